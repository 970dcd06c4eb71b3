// The undo of a unit's writes.
//
// 1. The Changes of the unit are copied first, from its last record back, and room in the indexes
//    is taken for each. After that nothing fails.
// 2. The latest is undone first. Each undo is a record of its own.
ghost use Rattle.std.specs.Prelude.{◌≡◌, ◌≤◌, ◌+◌, ◌++◌, ◌∷◌, [], true, List, Some, IfOk, OnOk};
ghost use Rattle.std.specs.Prelude.{OnErr, length};
ghost use Rattle.rg_record.specs.Spelled.{IsRecord};
ghost use Rattle.rg_laws_log.specs.LogState.Write.{Write};
ghost use Rattle.rg_engine.specs.Bytes.{taken_of};
ghost use Rattle.rg_engine.specs.Undoing.{AreChain, CanUndoNext, CanUnlist, HasWrites, KeepsUndone};
ghost use Rattle.rg_image.specs.Rules.{is_undo};
ghost use Rattle.rg_engine.specs.Undoing.{UndidNext, Unlists, change_in};
ghost use Rattle.rg_engine.specs.Shows.{IsShown};
ghost use Rattle.rg_engine.specs.Undone.{IsUndone};
ghost use Rattle.rg_engine.specs.Units.{unit_at};
ghost use Rattle.rg_engine.specs.Wrote.{SameEngine};
ghost use Rattle.rg_engine.specs.Walks.{Walks};

use crate::engine::Engine;
use crate::records::{append, next_position, record_at};
use crate::units::OpenUnit;
use rg_base::no_memory::NoMemory;
use rg_base::position::Position;
use rg_base::session::Session;
use rg_log::log::Log;
use rg_record::record::{Kind, Record};
use rg_undo::work::UndoWork;
use std::alloc::Global;

// A copy of a Change, or None of another record.
fn copy_change(alloc: Global, entry: &Record) -> Result<Option<Record>, NoMemory>
    ensures { IfOk result (λ copy. copy ≡ change_in entry.now) }
{
    match &entry.kind {
        Kind::Change { .. } => Ok(Some(entry.copy(alloc)?)),
        _ => Ok(None),
    }
}

// Appends the record of an undo. What was reserved for it and is left stays reserved.
fn append_undo(log: &mut Log, undo: Record)
    requires spelled { IsRecord undo }
    requires undo { is_undo undo.kind ≡ true }
    requires next { undo.position.0 ≡ length log.old.records + 1 }
    requires room { 911 ≤ log.old.reserved }
    ensures records { log.new.records ≡ log.old.records ++ undo ∷ [] }
    ensures reserved { log.new.reserved ≤ log.old.reserved }
    ensures least { log.old.reserved ≤ log.new.reserved + 911 }
    ensures taken { taken_of log.new ≡ taken_of log.old }
    ensures pages { log.new.pages ≡ log.old.pages }
    ensures forced { log.new.forced ≡ log.old.forced }
{
    undo.fits();
    append(log, undo);
}

impl Engine {
    // Copies of a unit's Changes, from its last one back.
    fn collect(&self, unit: OpenUnit) -> Result<Vec<Record>, NoMemory>
        requires writes { HasWrites self.now.log.records unit }
        ensures { IfOk result (λ changes. (ws : List Write)
            → Walks self.now.log.records unit.tran.0 unit.last.0 ws
            → length ws ≡ unit.writes → AreChain self.now.log.records unit.tran.0
            unit.last.0 ws changes.items) }
    {
        let mut changes = Vec::new(self.alloc);
        let mut at = unit.last;
        for _ in 0..unit.writes {
            let Some(entry) = record_at(&self.log, at) else {
                unreachable!()
            };
            let Some(copy) = copy_change(self.alloc, entry)? else {
                unreachable!()
            };
            at = copy.back;
            changes.push(copy)?;
        }
        Ok(changes)
    }

    // The row of the Change at this position is taken back in the indexes. The answer is the
    // position of the Change before it.
    fn unlist(&mut self, at: Position) -> Position
        requires low { 1 ≤ at.0 }
        requires can { CanUnlist self.old at.0 }
        ensures { Unlists self.old at.0 result.0 self.new }
    {
        let Some(entry) = record_at(&self.log, at) else {
            unreachable!()
        };
        match &entry.kind {
            Kind::Change {
                home,
                before,
                after,
                ..
            } => {
                self.indexes.replace(*home, after.as_ref(), before.as_ref());
                entry.back
            }
            _ => unreachable!(),
        }
    }

    // Undoes the latest Change that is left, which stands at this position. The answer is the
    // position of the Change before it.
    fn undo_next(&mut self, work: &mut UndoWork, at: Position, back: Position) -> Position
        requires low { 1 ≤ at.0 }
        requires can { CanUndoNext self.old work.old at.0 }
        ensures did { UndidNext self.old work.old at.0 back.0 result.0 self.new work.new }
        ensures newest { KeepsUndone self.old work.old at.0 self.new }
    {
        let next = self.unlist(at);
        let position = next_position(&self.log);
        match work.next(&mut self.space, position, back) {
            Ok(Some(undo)) => {
                append_undo(&mut self.log, undo);
                next
            }
            _ => unreachable!(),
        }
    }

    /// Undoes all writes of a session's unit. The answer is the position of the unit's last record
    /// then. Out of memory leaves all as it was, but for room.
    pub fn undo_writes(&mut self, session: Session, unit: OpenUnit) -> Result<Position, NoMemory>
        requires shown { IsShown self.old }
        requires unit { unit_at self.old.units session.0 ≡ Some unit }
        ensures ok { IfOk result (λ back. IsUndone self.old unit back.0 self.new) }
        ensures err { OnErr result (SameEngine self.old self.new) }
    {
        let changes = self.collect(unit)?;
        let Ok(more) = u32::try_from(changes.len()) else {
            return Err(NoMemory);
        };
        self.indexes.reserve(more)?;
        let mut work = UndoWork::new(&mut self.space, changes)?;
        let mut at = unit.last;
        let mut back = unit.last;
        for _ in 0..unit.writes {
            let position = next_position(&self.log);
            at = self.undo_next(&mut work, at, back);
            back = position;
        }
        Ok(back)
    }
}
