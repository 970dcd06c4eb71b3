// INSERT, UPDATE and DELETE.
//
// 1. A key that another session has locked is refused before anything else is looked at.
// 2. A unit gets its number with its first write. There are 4,294,967,295 numbers, and a unit that
//    is to have one more is out of memory.
ghost use Rattle.std.specs.Prelude.{◌≡◌, ◌+◌, ◌<◌, ◌^◌, Option, Some, None, true, false, IfOk};
ghost use Rattle.std.specs.Prelude.{IfErr, IfSome};
ghost use Rattle.rg_base.specs.RowBytes.{row_size};
ghost use Rattle.rg_base.specs.declared.place.Place.{Place};
ghost use Rattle.rg_home.specs.Pages.{slot_of};
ghost use Rattle.rg_home.specs.Plan.{is_home};
ghost use Rattle.rg_index.specs.Entries.{has_entry};
ghost use Rattle.rg_btree.specs.Indexes.Listings.{entries_of};
ghost use Rattle.rg_model.specs.Held.{holder};
ghost use Rattle.rg_engine.specs.Engine.{HasPages, slots_in};
ghost use Rattle.rg_engine.specs.Planned.{IsHanded, IsRefusal, change_plan, drop_plan, put_plan};
ghost use Rattle.rg_engine.specs.Planned.{refused};
ghost use Rattle.rg_engine.specs.Shows.{IsShown};
ghost use Rattle.rg_engine.specs.Steps.{IsUnitOf, Steps};
ghost use Rattle.rg_engine.specs.Wrote.{SameEngine};

use crate::engine::Engine;
use crate::units::OpenUnit;
use rg_base::no_memory::NoMemory;
use rg_base::note::note;
use rg_base::place::Place;
use rg_base::position::Position;
use rg_base::row::Row;
use rg_base::session::Session;
use rg_base::tran::Tran;
use rg_home::plan::Plan;
use rg_space::fault::SpaceFault;
use rg_stmt::stmt::{Reply, Stmt};

// The reply to a statement whose write has no plan.
fn reply_of(fault: SpaceFault) -> Reply
    ensures { result ≡ refused fault }
{
    match fault {
        SpaceFault::Full { need } => Reply::Full { need },
        SpaceFault::Device => Reply::Device,
        SpaceFault::NoMemory => Reply::NoMemory,
    }
}

impl Engine {
    // The other session that has the key.
    pub fn holder(&self, session: Session, key: u64) -> Option<Session>
        ensures { result ≡ holder self.now.locks session key }
    {
        match self.locks.owner(key) {
            Some(owner) if owner.0 != session.0 => Some(owner),
            _ => None,
        }
    }

    // The unit of a session that is to write: its own, or a new one of the next number.
    fn unit_of(&self, session: Session) -> Option<OpenUnit>
        ensures unit { IfSome result (IsUnitOf self.now session.0) }
        ensures writes { IfSome result (λ unit. unit.writes + 1 < 2 ^ 64) }
        ensures small { session.0 < 256 }
    {
        match self.units.get(session) {
            Some(unit) if unit.writes < u64::MAX => Some(unit),
            Some(_) => None,
            None => {
                let number = self.top.checked_add(1)?;
                Some(OpenUnit {
                    tran: Tran(number),
                    last: Position(0),
                    writes: 0,
                })
            }
        }
    }

    // The plan of a new row.
    fn plan_put(&mut self, tran: Tran, row: &Row) -> Result<Plan, SpaceFault>
        requires pages { HasPages self.old }
        ensures same { SameEngine self.old self.new }
        ensures handed { IfOk result (IsHanded self.new) }
        ensures plan { IfOk result (λ plan.
            Some plan ≡ put_plan tran.0 (row_size row.now) self.new) }
        ensures refusal { IfErr result
            (IsRefusal (row_size row.now) (put_plan tran.0 (row_size row.now) self.new)) }
    {
        let Ok(live) = self.units.with(self.alloc, tran) else {
            return Err(SpaceFault::NoMemory);
        };
        self.space.plan_put(row, live.as_slice())
    }

    // The plan of a row in the place of the one whose home this is.
    fn plan_change(&mut self, tran: Tran, home: Place, row: &Row) -> Result<Plan, SpaceFault>
        requires pages { HasPages self.old }
        ensures same { SameEngine self.old self.new }
        ensures handed { IfOk result (IsHanded self.new) }
        ensures plan { IfOk result (λ plan.
            Some plan ≡ change_plan tran.0 (row_size row.now) home self.new) }
        ensures refusal { IfErr result
            (IsRefusal (row_size row.now) (change_plan tran.0 (row_size row.now) home self.new)) }
    {
        let Ok(live) = self.units.with(self.alloc, tran) else {
            return Err(SpaceFault::NoMemory);
        };
        self.space.plan_change(home, row, live.as_slice())
    }

    // The plan of the drop of the row whose home this is.
    fn plan_drop(&mut self, home: Place) -> Result<Plan, NoMemory>
        requires shown { IsShown self.old }
        requires home { is_home (slot_of (slots_in self.old) home) ≡ true }
        ensures same { SameEngine self.old self.new }
        ensures handed { IfOk result (IsHanded self.new) }
        ensures plan { IfOk result (λ plan. plan ≡ drop_plan home self.new) }
    {
        match self.space.plan_drop(home) {
            Ok(plan) => Ok(plan),
            Err(_) => Err(NoMemory),
        }
    }

    // Writes a new row, whose key no other session has and no row.
    fn put_row(&mut self, session: Session, row: Row) -> Reply
        requires shown { IsShown self.old }
        requires alone { holder self.old.locks session row.key ≡ None }
        requires absent { (p : Place) → has_entry (entries_of self.old.indexes.keys) (row.key, p)
            ≡ false }
        ensures { Steps self.old session (Stmt.Insert row) result self.new }
    {
        let Some(unit) = self.unit_of(session) else {
            return Reply::NoMemory;
        };
        note(&row.size());
        match self.plan_put(unit.tran, &row) {
            Ok(plan) => self.write(session, unit, plan, row.key, Some(row)),
            Err(fault) => reply_of(fault),
        }
    }

    // Writes a row in the place of the one of its key, which lies here and which no other session
    // has.
    fn change_row(&mut self, session: Session, home: Place, row: Row) -> Reply
        requires shown { IsShown self.old }
        requires alone { holder self.old.locks session row.key ≡ None }
        requires there { has_entry (entries_of self.old.indexes.keys) (row.key, home) ≡ true }
        ensures { Steps self.old session (Stmt.Update row) result self.new }
    {
        let Some(unit) = self.unit_of(session) else {
            return Reply::NoMemory;
        };
        note(&row.size());
        match self.plan_change(unit.tran, home, &row) {
            Ok(plan) => self.write(session, unit, plan, row.key, Some(row)),
            Err(fault) => reply_of(fault),
        }
    }

    /// Adds a row.
    pub fn insert(&mut self, session: Session, row: &Row) -> Reply
        requires shown { IsShown self.old }
        ensures { Steps self.old session (Stmt.Insert row.now) result self.new }
    {
        if let Some(owner) = self.holder(session, row.key) {
            return Reply::Held(owner);
        }
        match self.indexes.home_of(row.key) {
            Some(_) => return Reply::Duplicate,
            None => {}
        }
        match row.copy(self.alloc) {
            Ok(copy) => self.put_row(session, copy),
            Err(_) => Reply::NoMemory,
        }
    }

    /// Replaces the row of its key.
    pub fn update(&mut self, session: Session, row: &Row) -> Reply
        requires shown { IsShown self.old }
        ensures { Steps self.old session (Stmt.Update row.now) result self.new }
    {
        if let Some(owner) = self.holder(session, row.key) {
            return Reply::Held(owner);
        }
        let Some(home) = self.indexes.home_of(row.key) else {
            return Reply::Absent;
        };
        match row.copy(self.alloc) {
            Ok(copy) => self.change_row(session, home, copy),
            Err(_) => Reply::NoMemory,
        }
    }

    /// Removes the row of a key.
    pub fn delete(&mut self, session: Session, key: u64) -> Reply
        requires shown { IsShown self.old }
        ensures { Steps self.old session (Stmt.Delete key) result self.new }
    {
        if let Some(owner) = self.holder(session, key) {
            return Reply::Held(owner);
        }
        let Some(home) = self.indexes.home_of(key) else {
            return Reply::Absent;
        };
        let Some(unit) = self.unit_of(session) else {
            return Reply::NoMemory;
        };
        match self.plan_drop(home) {
            Ok(plan) => self.write(session, unit, plan, key, None),
            Err(_) => Reply::NoMemory,
        }
    }
}
