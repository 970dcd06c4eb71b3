// The table over pages, with the locks, claims and units of its sessions.
//
// 1. A write is planned first. Then all that may be refused is taken: copies of rows, room in the
//    indexes, bytes of the log, and last the lock. After that nothing fails.
// 2. A record is applied to the pages and then appended. So the pages are always those that the
//    records leave.
ghost use Rattle.std.specs.Prelude.{◌≡◌, ◌≤◌, ◌<◌, ◌+◌, ◌*◌, ◌^◌, ℕ, false, ◌∷◌, ◌++◌, [], List};
ghost use Rattle.std.specs.Prelude.{None, nat_le, if◌then◌else◌, length, IfOk, IfErr, OnOk};
ghost use Rattle.rg_base.specs.declared.part.Part.{Part};
ghost use Rattle.rg_home.specs.Pages.{applied, row_or_empty};
ghost use Rattle.rg_space.specs.Carries.{AllThere};
ghost use Rattle.rg_btree.specs.Indexes.Listings.{AreListedAt, AreListings, HasSpare};
ghost use Rattle.rg_record.specs.Applied.{parts_of};
ghost use Rattle.rg_record.specs.Spelled.{IsRecord};
ghost use Rattle.rg_redo.specs.Redo.{is_switch};
ghost use Rattle.rg_space.specs.Ready.{CanApply, CanApplyRecord, IsAtHand, AllReady};
ghost use Rattle.rg_space.specs.Ready.{record_applied};
ghost use Rattle.rg_space.specs.Space.{Agree, InStep, capacity_in, frames_of, summaries_of};
ghost use Rattle.rg_page.specs.Content.{slots_of};
ghost use Rattle.rg_model.specs.Held.{holder};
ghost use Rattle.rg_model.specs.State.{Table, at_rest};
ghost use Rattle.rg_home.specs.Pages.{slot_of};
ghost use Rattle.rg_home.specs.Rows.{row_at};
ghost use Rattle.rg_engine.specs.Begins.{CanBegin};
ghost use Rattle.rg_engine.specs.Stored.{IsStored};
ghost use Rattle.rg_space.specs.Memory.{list_seen, space_pages};
ghost use Rattle.rg_engine.specs.Engine.{HasPages, seen_in};
ghost use Rattle.rg_engine.specs.Newest.{StayNewest};
ghost use Rattle.rg_engine.specs.Shows.{Shows};
ghost use Rattle.rg_engine.specs.Units.{unit_at};
ghost use Rattle.rg_engine.specs.Bytes.{IsPurge, IsSpelled, kind_bytes, most_needed, plan_bytes};
ghost use Rattle.rg_engine.specs.Bytes.{purge_bytes};
ghost use Rattle.rg_engine.specs.Wrote.{Prepares, Puts, Refuses, Writes, records_cleared};

use crate::bytes::needed;
use crate::records::{append, next_position};
use crate::units::{OpenUnit, Units};
use rg_base::no_memory::NoMemory;
use rg_base::part::Parts;
use rg_base::position::Position;
use rg_base::row::{Row, copy_row};
use rg_base::session::Session;
use rg_base::tran::Tran;
use rg_btree::indexes::indexes::Indexes;
use rg_claim::claims::Claims;
use rg_home::plan::Plan;
use rg_lock::locks::Locks;
use rg_log::fault::ReserveFault;
use rg_log::log::Log;
use rg_page::list::ListFrames;
use rg_record::record::{Kind, Record};
use rg_space::space::Space;
use rg_stmt::stmt::Reply;
use std::alloc::Global;

/// The table, and what its sessions hold of it.
#[derive(Drop)]
pub struct Engine {
    pub alloc: Global,
    pub space: Space<ListFrames>,
    pub log: Log,
    pub indexes: Indexes,
    pub locks: Locks,
    pub claims: Claims,
    pub units: Units,
    pub top: u32,
    /// How many records the log had when its pages were begun with.
    pub opened: usize,
    /// How many bytes of the log are reserved for the utility.
    pub set_aside: u32,
}

// Applies a record to the pages, and appends it. It takes no memory.
fn make(space: &mut Space<ListFrames>, log: &mut Log, entry: Record)
    requires step { InStep (list_seen (frames_of space.old)) (summaries_of space.old)
        (capacity_in space.old) }
    requires spelled { IsRecord entry }
    requires next { entry.position.0 ≡ length log.old.records + 1 }
    requires room { kind_bytes entry.kind ≤ log.old.reserved }
    ensures step { InStep (list_seen (frames_of space.new)) (summaries_of space.new)
        (capacity_in space.new) }
    ensures agree { Agree (list_seen (frames_of space.old)) (summaries_of space.old)
        → Agree (list_seen (frames_of space.new)) (summaries_of space.new) }
    ensures capacity { capacity_in space.new ≡ capacity_in space.old }
    ensures slots { CanApplyRecord (list_seen (frames_of space.old)) (capacity_in space.old) entry
        → slots_of (list_seen (frames_of space.new)).pages
        ≡ record_applied (slots_of (list_seen (frames_of space.old)).pages) entry }
    ensures newest { CanApplyRecord (list_seen (frames_of space.old)) (capacity_in space.old) entry
        → is_switch entry.kind ≡ false
        → StayNewest log.old.records space.old log.new.records space.new }
    ensures stay { CanApplyRecord (list_seen (frames_of space.old)) (capacity_in space.old) entry
        → AllThere (length (list_seen (frames_of space.old)).pages) (parts_of entry.kind)
        → (parts : List Part)
        → AllReady (list_seen (frames_of space.old)) (capacity_in space.old) parts
        → AllReady (list_seen (frames_of space.new)) (capacity_in space.old) parts }
    ensures records { log.new.records ≡ log.old.records ++ entry ∷ [] }
    ensures reserved { log.new.reserved + kind_bytes entry.kind ≡ log.old.reserved }
    ensures pages { log.new.pages ≡ log.old.pages }
    ensures forced { log.new.forced ≡ log.old.forced }
{
    space.apply(&entry);
    append(log, entry);
}

// Makes the Purge record of these parts, if there are any.
fn clear(space: &mut Space<ListFrames>, log: &mut Log, purge: Parts)
    requires step { InStep (list_seen (frames_of space.old)) (summaries_of space.old)
        (capacity_in space.old) }
    requires purge { IsPurge purge }
    requires room { purge_bytes purge ≤ log.old.reserved }
    ensures step { InStep (list_seen (frames_of space.new)) (summaries_of space.new)
        (capacity_in space.new) }
    ensures agree { Agree (list_seen (frames_of space.old)) (summaries_of space.old)
        → Agree (list_seen (frames_of space.new)) (summaries_of space.new) }
    ensures capacity { capacity_in space.new ≡ capacity_in space.old }
    ensures slots { CanApply (list_seen (frames_of space.old)) (capacity_in space.old) 0 None purge
        → slots_of (list_seen (frames_of space.new)).pages
        ≡ applied 0 (row_or_empty None) (slots_of (list_seen (frames_of space.old)).pages) purge }
    ensures newest { CanApply (list_seen (frames_of space.old)) (capacity_in space.old) 0 None purge
        → StayNewest log.old.records space.old log.new.records space.new }
    ensures stay { CanApply (list_seen (frames_of space.old)) (capacity_in space.old) 0 None purge
        → AllThere (length (list_seen (frames_of space.old)).pages) purge
        → (parts : List Part)
        → AllReady (list_seen (frames_of space.old)) (capacity_in space.old) parts
        → AllReady (list_seen (frames_of space.new)) (capacity_in space.old) parts }
    ensures records { log.new.records ≡ records_cleared log.old.records purge }
    ensures reserved { log.new.reserved + purge_bytes purge ≡ log.old.reserved }
    ensures pages { log.new.pages ≡ log.old.pages }
    ensures forced { log.new.forced ≡ log.old.forced }
{
    if purge.as_slice().is_empty() {
        return;
    }
    let entry = Record {
        position: next_position(log),
        tran: Tran(0),
        back: Position(0),
        kind: Kind::Purge { parts: purge },
    };
    make(space, log, entry);
}

// The greater of the greatest number so far and this one.
fn greater(top: u32, tran: Tran) -> u32
    ensures { result ≡ (if nat_le tran.0 top then top else tran.0) }
{
    if tran.0 <= top { top } else { tran.0 }
}

impl Engine {
    /// The table that a log stores, over the pages that its records leave. All units of the log
    /// have ended, and `top` is the greatest number of a transaction.
    pub fn new(
        alloc: Global,
        log: Log,
        space: Space<ListFrames>,
        indexes: Indexes,
        top: u32,
    ) -> Result<Engine, NoMemory>
        requires begins { CanBegin (capacity_in space) (space_pages space) log top }
        requires step { InStep (list_seen (frames_of space)) (summaries_of space)
            (capacity_in space) }
        requires agree { Agree (list_seen (frames_of space)) (summaries_of space) }
        requires listings { AreListings (row_at (slot_of (space_pages space))) indexes }
        ensures shows { IfOk result (λ d. (start : Table) (copy : ℕ) → IsStored log.records start
            → Shows (at_rest start copy) (4064 * length (space_pages space)) d) }
        ensures space { IfOk result (λ d. d.space ≡ space) }
        ensures log { IfOk result (λ d. d.log ≡ log) }
        ensures opened { IfOk result (λ d. d.opened ≡ length log.records) }
        ensures set_aside { IfOk result (λ d. d.set_aside ≡ 0) }
        ensures top { IfOk result (λ d. d.top ≡ top) }
        ensures idle { IfOk result (λ d. (n : ℕ) → unit_at d.units n ≡ None) }
    {
        let opened = log.records().len();
        let locks = Locks::new(alloc)?;
        let claims = Claims::new(alloc)?;
        let units = Units::new(alloc)?;
        Ok(Engine {
            alloc,
            space,
            log,
            indexes,
            locks,
            claims,
            units,
            top,
            opened,
            set_aside: 0,
        })
    }

    // Carries out a plan, for which all room is taken.
    fn put(&mut self, session: Session, unit: OpenUnit, plan: Plan, after: Option<Row>)
        requires pages { HasPages self.old }
        requires hand { IsAtHand (seen_in self.old) (capacity_in self.old.space) plan }
        requires listed { AreListedAt self.old.indexes plan.home plan.before }
        requires spare { HasSpare 1 self.old.indexes }
        requires spelled { IsSpelled plan }
        requires room { plan_bytes plan after ≤ self.old.log.reserved }
        requires writes { unit.writes + 1 < 2 ^ 64 }
        ensures { Puts self.old session unit plan after self.new }
    {
        let Plan {
            home,
            before,
            purge,
            parts,
        } = plan;
        self.indexes.replace(home, before.as_ref(), after.as_ref());
        clear(&mut self.space, &mut self.log, purge);
        let position = next_position(&self.log);
        let entry = Record {
            position,
            tran: unit.tran,
            back: unit.last,
            kind: Kind::Change {
                home,
                before,
                after,
                parts,
            },
        };
        make(&mut self.space, &mut self.log, entry);
        let next = OpenUnit {
            tran: unit.tran,
            last: position,
            writes: unit.writes + 1,
        };
        self.units.set(session, Some(next));
        self.top = greater(self.top, unit.tran);
    }

    // Takes all that a write may be refused: room in the indexes, bytes of the log, and last the
    // lock of its key.
    fn prepare(
        &mut self,
        session: Session,
        need: u32,
        key: u64,
        kept: Option<Row>,
    ) -> Result<(), Reply>
        requires small { need ≤ most_needed }
        requires alone { holder self.old.locks session key ≡ None }
        ensures ok { OnOk result (Prepares self.old session need key kept self.new) }
        ensures err { IfErr result (λ reply. Refuses self.old need reply self.new) }
    {
        match self.indexes.reserve(1) {
            Ok(()) => {}
            Err(_) => return Err(Reply::NoMemory),
        }
        match self.log.reserve(need) {
            Ok(()) => {}
            Err(ReserveFault::LogFull { need, left }) => return Err(Reply::LogFull { need, left }),
            Err(ReserveFault::NoMemory) => return Err(Reply::NoMemory),
        }
        if self.locks.take(session, key, kept).is_err() {
            self.log.give_back(need);
            return Err(Reply::NoMemory);
        }
        Ok(())
    }

    /// Writes as planned, at a key that no other session has locked.
    pub fn write(
        &mut self,
        session: Session,
        unit: OpenUnit,
        plan: Plan,
        key: u64,
        after: Option<Row>,
    ) -> Reply
        requires pages { HasPages self.old }
        requires hand { IsAtHand (seen_in self.old) (capacity_in self.old.space) plan }
        requires listed { AreListedAt self.old.indexes plan.home plan.before }
        requires spelled { IsSpelled plan }
        requires writes { unit.writes + 1 < 2 ^ 64 }
        requires alone { holder self.old.locks session key ≡ None }
        ensures { Writes self.old session unit plan key after result self.new }
    {
        let Ok(kept) = copy_row(self.alloc, plan.before.as_ref()) else {
            return Reply::NoMemory;
        };
        let need = needed(self.units.get(session), &plan, &after);
        match self.prepare(session, need, key, kept) {
            Ok(()) => {}
            Err(reply) => return reply,
        }
        self.put(session, unit, plan, after);
        Reply::Done
    }
}
