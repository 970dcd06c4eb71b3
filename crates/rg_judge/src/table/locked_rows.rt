// A table with its locks.
// (1) A write sets the row of its key. Where the key is not locked it also locks it, and the lock
//     keeps the row from before.
// (2) The locked keys of each session are found by the `cat`s of their present and kept rows. So
//     whether another session blocks a FIND is found without a look at its locks.
ghost use Rattle.std.specs.Prelude.{◌≡◌, OnOk, IfOk};
ghost use Rattle.std.specs.FinMap as map;
ghost use Rattle.std.specs.Option.{option_copied};
ghost use Rattle.rg_judge.specs.Table.Locked.{Locked};
ghost use Rattle.rg_lock.specs.Taken.{take_key};
ghost use Rattle.rg_model.specs.Committed.{locks_without, own_locks, put_back, set_to};
ghost use Rattle.rg_model.specs.Held.{find_holder, scan_holder};
ghost use Rattle.rg_model.specs.State.{row_of};
ghost use Rattle.rg_judge.specs.Table.Owners.{owner_or, committed_or};

use crate::table::cat_table::CatTable;
use crate::table::held_cats::HeldCats;
use rg_base::no_memory::NoMemory;
use rg_base::row::Row;
use rg_base::session::Session;
use rg_lock::locks::Locks;
use std::alloc::Global;
use std::marker::Model;

/// A table with the locks of its keys. It is seen as the two.
#[derive(Drop)]
pub struct LockedRows {
    table: CatTable,
    locks: Locks,
    held: HeldCats,
}

impl Model for LockedRows {
    ghost use Rattle.std.specs.Coded.{codes, coded_ℕ};
    ghost use Rattle.std.specs.FinMap as map;
    ghost use Rattle.std.specs.Ordering.{nat_cmp};
    ghost use Rattle.rg_base.specs.contracts.lock.Lock as kept;
    ghost use Rattle.rg_base.specs.contracts.row.Row as present;
    ghost use Rattle.rg_judge.specs.Table.Locked.{Locked};
    ghost use Rattle.rg_judge.specs.Table.Owners.{AreHeld};

    ghost Value = { Locked };

    ghost coded = { Prim.hlevel (
      codes,
      map.code {R = nat_cmp} coded_ℕ present.the_row.coded,
      map.code {R = nat_cmp} coded_ℕ kept.the_row.coded,
    ) };

    ghost view = { λ r. record { table = r.table; locks = r.locks } };

    ghost invariant = { λ r. AreHeld r.table r.locks r.held.owners };
}

// The session that has locked a key, or this one.
fn owner_or(locks: &Locks, key: u64, session: Session) -> Session
    ensures { result ≡ owner_or (map.get locks.now key) session }
{
    match locks.owner(key) {
        Some(owner) => owner,
        None => session,
    }
}

// The row that the lock of a key keeps, or this one where it is not locked.
fn committed_or<'a>(locks: &'a Locks, key: u64, row: Option<&'a Row>) -> Option<&'a Row>
    ensures { option_copied result
        ≡ committed_or (map.get locks.now key) (option_copied row.entry) }
{
    match locks.owner(key) {
        Some(_) => locks.kept(key),
        None => row,
    }
}

// Locks a key that is not locked.
fn lock(locks: &mut Locks, session: Session, key: u64, before: Option<Row>) -> Result<(), NoMemory>
    ensures { OnOk result (locks.new ≡ take_key locks.old session key before) }
{
    if locks.owner(key).is_some() {
        return Ok(());
    }
    match locks.take(session, key, before) {
        Ok(()) => Ok(()),
        Err(_) => Err(NoMemory),
    }
}

// The table with the rows put back that the session's locks keep. These locks are dropped.
fn roll_back(
    alloc: Global,
    table: CatTable,
    locks: &mut Locks,
    session: Session,
) -> Result<CatTable, NoMemory>
    ensures rows { IfOk result (λ after.
        after ≡ put_back (map.entries (own_locks session locks.old)) table) }
    ensures locks { OnOk result (locks.new ≡ locks_without session locks.old) }
{
    let mut after = table;
    while let Some((key, kept)) = locks.release(session) {
        let (next, _) = after.set(alloc, key, kept)?;
        after = next;
    }
    Ok(after)
}

impl LockedRows {
    /// A table without locks.
    pub fn new(alloc: Global, table: CatTable) -> Result<LockedRows, NoMemory>
        ensures { IfOk result (λ rows. rows ≡ record { table = table; locks = map.empty }) }
    {
        Ok(LockedRows {
            table,
            locks: Locks::new(alloc)?,
            held: HeldCats::new(alloc),
        })
    }

    pub fn table(&self) -> &CatTable
        ensures { result.now ≡ self.now.table }
    {
        &self.table
    }

    pub fn locks(&self) -> &Locks
        ensures { result.now ≡ self.now.locks }
    {
        &self.locks
    }

    /// The table and the locks by themselves.
    pub fn into_parts(self) -> (CatTable, Locks)
        ensures table { result.0 ≡ self.table }
        ensures locks { result.1 ≡ self.locks }
    {
        (self.table, self.locks)
    }

    /// Sets the row of a key, or removes it. A key that is not locked gets the session's lock.
    pub fn write(
        self,
        alloc: Global,
        session: Session,
        key: u64,
        row: Option<Row>,
    ) -> Result<LockedRows, NoMemory>
        ensures { IfOk result (λ rows. rows ≡ record {
          table = set_to self.table key row;
          locks = take_key self.locks session key (row_of self.table key);
        }) }
    {
        let LockedRows {
            table,
            mut locks,
            mut held,
        } = self;
        let owner = owner_or(&locks, key, session);
        let present = table.rows().get(key);
        let committed = committed_or(&locks, key, present);
        held.note(alloc, owner, key, present, committed, row.as_ref())?;
        let (table, before) = table.set(alloc, key, row)?;
        lock(&mut locks, session, key, before)?;
        Ok(LockedRows { table, locks, held })
    }

    /// Drops the locks of a session.
    pub fn commit(self, session: Session) -> LockedRows
        ensures { result ≡ record self { locks = locks_without session self.locks } }
    {
        let LockedRows {
            table,
            mut locks,
            mut held,
        } = self;
        locks.end(session);
        held.end(session);
        LockedRows { table, locks, held }
    }

    /// Puts back the rows that the session's locks keep, and drops these locks.
    pub fn rollback(self, alloc: Global, session: Session) -> Result<LockedRows, NoMemory>
        ensures { IfOk result (λ rows. rows ≡ record {
          table = put_back (map.entries (own_locks session self.locks)) self.table;
          locks = locks_without session self.locks;
        }) }
    {
        let LockedRows {
            table,
            mut locks,
            mut held,
        } = self;
        let table = roll_back(alloc, table, &mut locks, session)?;
        held.end(session);
        Ok(LockedRows { table, locks, held })
    }

    /// The owner of the least key from `lo` to `hi` that another session has locked. On the way it
    /// looks at the session's own locks of this range only.
    pub fn scan_holder(&self, session: Session, lo: u64, hi: u64) -> Option<Session>
        ensures { result ≡ scan_holder self.now.locks session lo hi }
    {
        match self.locks.first_held(session, lo, hi) {
            Some((_, owner)) => Some(owner),
            None => None,
        }
    }

    /// The owner of the least key, locked by another session, whose present or kept row has the
    /// `cat`. It is found by one search for each session.
    pub fn find_holder(&self, session: Session, cat: u64) -> Option<Session>
        ensures { result ≡ find_holder self.now.table self.now.locks session cat }
    {
        match self.held.least(session, cat) {
            Some(key) => self.locks.owner(key),
            None => None,
        }
    }
}
