// What the entries so far say of changes and of quiet keys, kept from entry to entry.
// (1) The changes since a utility started: each write that was done is one, and a rollback is one
//     for each write of its unit.
// (2) A unit that has written has a number, by the order of first writes. Each key that was written
//     keeps the session and the unit that wrote it last, also when the unit is over; so the end of
//     a unit looks at no key.
// (3) The keys that are not quiet: those whose unit was open when the utility started, and those
//     written since. So a start looks at the open units alone.
// (4) An opening ends all units. The start of a utility begins the changes and the quiet keys anew.
ghost use Rattle.std.specs.Prelude.{◌≡◌, ◌+◌, ◌==◌, OnOk, IfOk, []};
ghost use Rattle.rg_rules.specs.Tally.Tallied.{IsTallied, is_stirred, is_unit, key_written};
ghost use Rattle.rg_rules.specs.Tally.Tallied.{tally_after};
ghost use Rattle.rg_rules.specs.Tally.Tallied.{tally_end, tally_quiet, tally_said, tally_write};
ghost use Rattle.rg_rules.specs.Tally.Tallied.{unit_of};
ghost use Rattle.rg_rules.specs.Tally.Tallied.{writes_of};
ghost use Rattle.rg_model.specs.Changes.{is_write, is_rollback, is_unit_end};
ghost use Rattle.rg_model.specs.Said.{may_want_log};
ghost use Rattle.std.specs.Option.{option_copied};

use crate::tally::sums::sum;
use rg_base::map::NumberMap;
use rg_base::no_memory::NoMemory;
use rg_base::session::Session;
use rg_model::plain::walks::entry_behind;
use rg_stmt::event::{Actor, Event};
use rg_stmt::stmt::{Reply, Stmt};
use std::alloc::Global;

/// Who wrote a key last: the session, and the number of its unit.
#[derive(Clone, Copy, Debug, PartialEq, Eq)]
pub struct Writer {
    pub session: u8,
    pub unit: u64,
}

/// What the entries so far say of changes and quiet keys.
#[derive(Drop)]
pub struct Tally {
    /// The changes since a utility started.
    pub changes: u64,
    /// The writes so far.
    pub count: u64,
    /// The number of writes of each session's open unit.
    pub writes: NumberMap<u64>,
    /// The number of each session's open unit, where it has written.
    pub units: NumberMap<u64>,
    /// Who wrote each key last.
    pub writers: NumberMap<Writer>,
    /// A utility has started.
    pub started: bool,
    /// The writes before a utility started.
    pub first: u64,
    /// The units that were open when it started.
    pub held: NumberMap<u64>,
}

/// Whether the statement writes, where it is done.
pub fn may_want_log(stmt: &Stmt) -> bool
    ensures { result ≡ may_want_log stmt.now }
{
    matches!(stmt, Stmt::Insert(_) | Stmt::Update(_) | Stmt::Delete(_))
}

/// The statement wrote.
pub fn is_write(stmt: &Stmt, reply: &Reply) -> bool
    ensures { result ≡ is_write stmt.now reply.now }
{
    matches!(reply, Reply::Done) && may_want_log(stmt)
}

/// The unit was rolled back.
pub fn is_rollback(stmt: &Stmt, reply: &Reply) -> bool
    ensures { result ≡ is_rollback stmt.now reply.now }
{
    matches!(
        (stmt, reply),
        (Stmt::Rollback, Reply::Done) | (_, Reply::Victim(_))
    )
}

/// The unit is over.
pub fn is_unit_end(stmt: &Stmt, reply: &Reply) -> bool
    ensures { result ≡ is_unit_end stmt.now reply.now }
{
    matches!((stmt, reply), (Stmt::Commit, Reply::Done)) || is_rollback(stmt, reply)
}

// The key that the statement writes, or 0 where it writes none.
fn key_written(stmt: &Stmt) -> u64
    ensures { result ≡ key_written stmt.now }
{
    match stmt {
        Stmt::Insert(row) | Stmt::Update(row) => row.key,
        Stmt::Delete(key) => *key,
        Stmt::Select(_) | Stmt::Scan { .. } | Stmt::Find(_) | Stmt::Commit | Stmt::Rollback => 0,
    }
}

// An equal map.
fn copy_units(alloc: Global, units: &NumberMap<u64>) -> Result<NumberMap<u64>, NoMemory>
    ensures { IfOk result (λ copy. copy ≡ units.now) }
{
    let mut copy = NumberMap::new(alloc);
    let mut last = None;
    while let Some((session, unit)) = entry_behind(units, last) {
        copy.insert(session, *unit)?;
        last = Some(session);
    }
    Ok(copy)
}

// The unit has this number.
fn is_unit(unit: Option<&u64>, number: u64) -> bool
    ensures { result ≡ is_unit (option_copied unit.entry) number }
{
    match unit {
        Some(unit) => *unit == number,
        None => false,
    }
}

impl Tally {
    /// Nothing was entered.
    pub fn new(alloc: Global) -> Tally
        ensures { IsTallied [] result }
    {
        Tally {
            changes: 0,
            count: 0,
            writes: NumberMap::new(alloc),
            units: NumberMap::new(alloc),
            writers: NumberMap::new(alloc),
            started: false,
            first: 0,
            held: NumberMap::new(alloc),
        }
    }

    // The key was written since the utility started, or its unit was open then.
    fn is_stirred(&self, writer: Option<&Writer>) -> bool
        ensures { result ≡ is_stirred self.now (option_copied writer.entry) }
    {
        match writer {
            Some(writer) => {
                self.first <= writer.unit
                    || is_unit(self.held.get(u64::from(writer.session)), writer.unit)
            }
            None => false,
        }
    }

    /// Whether a key of the present table is quiet.
    pub fn is_quiet(&self, key: u64) -> bool
        ensures { result ≡ tally_quiet self.now key }
    {
        self.started && !self.is_stirred(self.writers.get(key))
    }

    fn writes_of(&self, session: Session) -> u64
        ensures { result ≡ writes_of self.now session.0 }
    {
        match self.writes.get(u64::from(session.0)) {
            Some(count) => *count,
            None => 0,
        }
    }

    // The number of the session's unit, which a write begins where none is open.
    fn unit_of(&self, session: Session) -> u64
        ensures { result ≡ unit_of self.now session.0 }
    {
        match self.units.get(u64::from(session.0)) {
            Some(unit) => *unit,
            None => self.count,
        }
    }

    // A write of a session that was done.
    fn add_write(&mut self, session: Session, key: u64) -> Result<(), NoMemory>
        ensures { OnOk result (self.new ≡ tally_write self.old session key) }
    {
        let writes = sum(self.writes_of(session), 1)?;
        let unit = self.unit_of(session);
        let writer = Writer {
            session: session.0,
            unit,
        };
        self.changes = sum(self.changes, 1)?;
        self.count = sum(self.count, 1)?;
        self.writes.insert(u64::from(session.0), writes)?;
        self.units.insert(u64::from(session.0), unit)?;
        self.writers.insert(key, writer)?;
        Ok(())
    }

    // The end of a unit.
    fn end_unit(&mut self, session: Session)
        ensures { self.new ≡ tally_end self.old session }
    {
        self.writes.remove(u64::from(session.0));
        self.units.remove(u64::from(session.0));
    }

    fn add_said(&mut self, session: Session, stmt: &Stmt, reply: &Reply) -> Result<(), NoMemory>
        ensures { OnOk result (self.new ≡ tally_said self.old session stmt.now reply.now) }
    {
        if is_write(stmt, reply) {
            return self.add_write(session, key_written(stmt));
        }
        if is_rollback(stmt, reply) {
            self.changes = sum(self.changes, self.writes_of(session))?;
        }
        if is_unit_end(stmt, reply) {
            self.end_unit(session);
        }
        Ok(())
    }

    /// One entry more.
    pub fn add(&mut self, alloc: Global, actor: Actor, event: &Event) -> Result<(), NoMemory>
        ensures { OnOk result (self.new ≡ tally_after self.old actor event.now) }
    {
        match event {
            Event::Opened { .. } => {
                self.writes = NumberMap::new(alloc);
                self.units = NumberMap::new(alloc);
                Ok(())
            }
            Event::Started { .. } => {
                self.changes = 0;
                self.started = true;
                self.first = self.count;
                self.held = copy_units(alloc, &self.units)?;
                Ok(())
            }
            Event::Said { stmt, reply } => match actor {
                Actor::Session(session) => self.add_said(session, stmt, reply),
                Actor::System | Actor::Utility => Ok(()),
            },
            _ => Ok(()),
        }
    }
}
