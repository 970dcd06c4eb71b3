// The undo of a unit, one Change at a time.
//
// 1. All memory is taken before the first Change is undone. So a rollback that has begun stops only
//    where a page cannot be read.
// 2. The latest Change is undone first. Each step needs only the areas that are there, so other
//    units may write between two steps.
// 3. Each step answers the record of the undo, which the caller puts into the log before it forces
//    the log or lets the pages be written.
ghost use Rattle.std.specs.Prelude.{◌≡◌, ◌≤◌, ◌<◌, ◌+◌, ◌^◌, ◌↔◌, IsTrue, [], true, length, Some};
ghost use Rattle.std.specs.Prelude.{None, IsNone, IfOk, IfErr, OnOk};
ghost use Rattle.rg_page.specs.Content.{slots_of};
ghost use Rattle.rg_page.specs.Seen.{Keeps};
ghost use Rattle.rg_space.specs.Space.{InStep, frames_of, summaries_of, capacity_in, undos_in};
ghost use Rattle.rg_space.specs.Took.{IsRisen};
ghost use Rattle.rg_undo.specs.Undoing.{AreChanges, undo_record, CanUndoChange, UndidChange};
ghost use Rattle.rg_undo.specs.Undoing.{IfFirst, later_of};

use crate::one::undo_one;
use rg_base::no_memory::NoMemory;
use rg_base::position::Position;
use rg_page::frames::Frames;
use rg_record::record::Record;
use rg_space::fault::SpaceFault;
use rg_space::space::Space;
use std::marker::Model;

/// The Changes of a unit that are not undone yet. It is seen as a list of them, the latest first.
#[derive(Drop)]
pub struct UndoWork {
    // The latest is the last, so that it can be taken out.
    changes: Vec<Record>,
}

impl Model for UndoWork {
    ghost use Rattle.std.specs.Prelude.{List, reverse};
    ghost use Rattle.rg_record.specs.declared.record.Record.{Record};
    ghost use Rattle.rg_undo.specs.Undoing.{AreChanges};

    ghost Value = { List Record };

    ghost view = { λ w. reverse w.changes.items };

    ghost invariant = { λ w. AreChanges w.changes.items };
}

impl UndoWork {
    /// The work of undoing these Changes of a unit, the latest first. It takes the memory for all
    /// of it: where there is none, the space is as before, but for room for undos.
    pub fn new<F: Frames>(space: &mut Space<F>, changes: Vec<Record>) -> Result<UndoWork, NoMemory>
        requires changes { AreChanges changes.items }
        ensures work { IfOk result (λ work. work ≡ changes.items) }
        ensures room { OnOk result (undos_in space.old + length changes.items
            ≤ undos_in space.new) }
        ensures least { undos_in space.old ≤ undos_in space.new }
        ensures frames { frames_of space.new ≡ frames_of space.old }
        ensures summaries { summaries_of space.new ≡ summaries_of space.old }
        ensures capacity { capacity_in space.new ≡ capacity_in space.old }
    {
        for _ in &changes {
            space.reserve_undo(1)?;
        }
        let mut changes = changes;
        changes.reverse();
        Ok(UndoWork { changes })
    }

    /// How many Changes are left.
    pub fn len(&self) -> usize
        ensures { result ≡ length self.now }
    {
        self.changes.len()
    }

    /// Whether all is undone.
    pub fn is_empty(&self) -> bool
        ensures { IsTrue result ↔ (self.now ≡ []) }
    {
        self.changes.is_empty()
    }

    /// Undoes the latest Change that is left, and answers the record of that, at this position;
    /// None where none is left. It takes no memory, and lets all pages go. After a Device the
    /// Change is neither left nor undone, so that the caller has to open the volume again.
    pub fn next<F: Frames>(
        &mut self,
        space: &mut Space<F>,
        position: Position,
        back: Position,
    ) -> Result<Option<Record>, SpaceFault>
        requires spare { 5 ≤ (F.seen (frames_of space.old)).spare }
        requires step { InStep (F.seen (frames_of space.old)) (summaries_of space.old)
            (capacity_in space.old) }
        requires room { length self.old ≤ undos_in space.old }
        ensures none { IfOk result (λ undo. IsNone undo ↔ (self.old ≡ [])) }
        ensures left { self.new ≡ later_of self.old }
        ensures undo { (F.seen (frames_of space.new)).sure ≡ true
            → IfFirst self.old (λ entry.
            CanUndoChange (F.seen (frames_of space.old)) (summaries_of space.old) entry
            → IfOk result (λ undo. undo ≡ Some (undo_record position.0 back.0
            (slots_of (F.seen (frames_of space.old)).pages) entry))) }
        ensures undone { (F.seen (frames_of space.new)).sure ≡ true
            → IfFirst self.old (λ entry.
            CanUndoChange (F.seen (frames_of space.old)) (summaries_of space.old) entry
            → OnOk result (UndidChange position.0 back.0 (F.seen (frames_of space.old))
            (F.seen (frames_of space.new)) (summaries_of space.new) entry)) }
        ensures step { InStep (F.seen (frames_of space.new)) (summaries_of space.new)
            (capacity_in space.new) }
        ensures capacity { capacity_in space.new ≡ capacity_in space.old }
        ensures room { length self.new ≤ undos_in space.new }
        ensures keeps { Keeps (F.seen (frames_of space.old)) (F.seen (frames_of space.new)) }
        ensures forced { (F.seen (frames_of space.new)).forced
            ≡ (F.seen (frames_of space.old)).forced }
        // A page that was changed is not idle before its record is forced.
        ensures idle { position.0 ≤ (F.seen (frames_of space.old)).forced
            → (F.seen (frames_of space.old)).idle ≤ (F.seen (frames_of space.new)).idle }
        ensures spare { (F.seen (frames_of space.new)).spare
            ≡ (F.seen (frames_of space.new)).idle }
        ensures device { IfErr result (λ fault. IsRisen fault (F.seen (frames_of space.old))
            (F.seen (frames_of space.new))) }
        ensures gave { F.gave (F.seen (frames_of space.old)).pages
            (F.seen (frames_of space.old)).forced (frames_of space.old) (frames_of space.new) }
    {
        let Some(entry) = self.changes.pop() else {
            space.let_go();
            return Ok(None);
        };
        let undo = undo_one(space, entry, position, back);
        space.let_go();
        match undo {
            Ok(undo) => Ok(Some(undo)),
            Err(fault) => Err(fault),
        }
    }
}
