// COMMIT and ROLLBACK.
//
// 1. The room for the record of a unit's end was reserved with its first write. So a COMMIT takes
//    no memory.
// 2. What was reserved for undoing the unit is given back.
// 3. A unit that has written is committed once its records are on the volume for good. Until then
//    it keeps its locks. A COMMIT of one that has not calls no volume.
ghost use Rattle.rg_base.specs.Session.{IsSession};
ghost use Rattle.std.specs.Prelude.{◌≡◌, ◌≤◌, ◌+◌, ◌*◌};
ghost use Rattle.rg_log.specs.Kept.{log_pages};
ghost use Rattle.rg_engine.specs.Answers.{Asks, forces};
ghost use Rattle.rg_engine.specs.Ended.{EndsSession, LogsCommit, LogsRolledBack};
ghost use Rattle.rg_engine.specs.Shows.{IsShown};
ghost use Rattle.rg_engine.specs.Steps.{Steps};

use crate::bytes::{END_BYTES, UNDO_BYTES};
use crate::engine::Engine;
use crate::records::{append, next_position};
use crate::units::OpenUnit;
use rg_base::position::Position;
use rg_base::session::Session;
use rg_outside::volume::Volume;
use rg_record::record::{Kind, Record};
use rg_stmt::stmt::{Reply, Stmt};

// What is reserved for undoing so many writes.
fn undo_bytes(writes: u64, reserved: u32) -> u32
    requires { 911 * writes ≤ reserved }
    ensures { result ≡ 911 * writes }
{
    (writes * u64::from(UNDO_BYTES)) as u32
}

impl Engine {
    // Appends the Commit of the session's unit, if it has written, and gives back what was reserved
    // for its undo.
    fn log_commit(&mut self, session: Session)
        requires shown { IsShown self.old }
        ensures { LogsCommit self.old session self.new }
    {
        let Some(unit) = self.units.get(session) else {
            return;
        };
        let undo = undo_bytes(unit.writes, self.log.reserved());
        let entry = Record {
            position: next_position(&self.log),
            tran: unit.tran,
            back: unit.last,
            kind: Kind::Commit,
        };
        append(&mut self.log, entry);
        self.log.give_back(undo);
    }

    /// Ends the unit of work and keeps what it wrote, on the volume for good. It takes no memory.
    /// Where the device fails nothing is known of the unit, and the engine is down.
    pub fn commit<V: Volume>(&mut self, volume: &mut V, session: Session) -> Reply
        requires session { IsSession session }
        requires shown { IsShown self.old }
        requires pages { self.old.log.pages ≡ log_pages (V.seen volume.old).capacities }
        ensures steps { Steps self.old session Stmt.Commit result self.new }
        ensures asks { Asks (forces self.old.units session Stmt.Commit) result
            self.old.log self.new.log
            (V.seen volume.old) (V.seen volume.new) }
    {
        if self.units.get(session).is_none() {
            self.end(session);
            return Reply::Done;
        }
        self.log_commit(session);
        match self.log.force(volume) {
            Ok(()) => {
                self.end(session);
                Reply::Done
            }
            Err(_) => Reply::Device,
        }
    }

    // Appends the RolledBack of a unit, whose last record this is, and gives back what was reserved
    // for it: `others` is what is reserved for all others.
    fn log_rolled_back(&mut self, unit: OpenUnit, last: Position, others: u32)
        requires { others + 23 ≤ self.old.log.reserved }
        ensures { LogsRolledBack self.old unit last.0 others self.new }
    {
        let entry = Record {
            position: next_position(&self.log),
            tran: unit.tran,
            back: last,
            kind: Kind::RolledBack,
        };
        append(&mut self.log, entry);
        let left = self.log.reserved() - others;
        self.log.give_back(left);
    }

    // The session has no unit, no locks and no claim any more.
    fn end(&mut self, session: Session)
        requires session { IsSession session }
        ensures { EndsSession self.old session self.new }
    {
        self.units.set(session, None);
        self.locks.end(session);
        self.claims.release(session);
    }

    /// Ends the unit of work and puts back what it wrote. Out of memory leaves all as it was.
    pub fn rollback(&mut self, session: Session) -> Reply
        requires session { IsSession session }
        requires shown { IsShown self.old }
        ensures { Steps self.old session Stmt.Rollback result self.new }
    {
        let Some(unit) = self.units.get(session) else {
            self.end(session);
            return Reply::Done;
        };
        let reserved = self.log.reserved();
        let others = reserved - END_BYTES - undo_bytes(unit.writes, reserved);
        let Ok(last) = self.undo_writes(session, unit) else {
            return Reply::NoMemory;
        };
        self.log_rolled_back(unit, last, others);
        self.end(session);
        Reply::Done
    }
}
