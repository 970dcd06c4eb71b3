// One Change is undone.
//
// 1. The row before is put back at its home, in the areas that are there, at the sizes they have.
//    So an undo needs no space, and is never full.
// 2. The Undo record takes the row before out of the Change, so no memory is needed.
ghost use Rattle.std.specs.Prelude.{◌≡◌, ◌≤◌, ◌+◌, true, IfOk, IfErr, OnOk};
ghost use Rattle.rg_page.specs.Content.{slots_of};
ghost use Rattle.rg_page.specs.Seen.{Keeps};
ghost use Rattle.rg_space.specs.Space.{InStep, frames_of, summaries_of, capacity_in, undos_in};
ghost use Rattle.rg_space.specs.Took.{IsRisen};
ghost use Rattle.rg_undo.specs.Undoing.{is_change, undo_record, CanUndoChange, UndidChange};

use rg_base::position::Position;
use rg_page::frames::Frames;
use rg_record::record::{Kind, Record};
use rg_space::fault::SpaceFault;
use rg_space::space::Space;

/// Undoes a Change, and answers the record of that, at this position. Its pages are held.
pub fn undo_one<F: Frames>(
    space: &mut Space<F>,
    entry: Record,
    position: Position,
    back: Position,
) -> Result<Record, SpaceFault>
    requires spare { 5 ≤ (F.seen (frames_of space.old)).spare }
    requires step { InStep (F.seen (frames_of space.old)) (summaries_of space.old)
        (capacity_in space.old) }
    requires room { 1 ≤ undos_in space.old }
    requires change { is_change entry.kind ≡ true }
    ensures undo { IfOk result (λ undo. (F.seen (frames_of space.new)).sure ≡ true
        → CanUndoChange (F.seen (frames_of space.old)) (summaries_of space.old) entry
        → undo ≡ undo_record position.0 back.0
        (slots_of (F.seen (frames_of space.old)).pages) entry) }
    ensures undone { OnOk result ((F.seen (frames_of space.new)).sure ≡ true
        → CanUndoChange (F.seen (frames_of space.old)) (summaries_of space.old) entry
        → UndidChange position.0 back.0 (F.seen (frames_of space.old))
        (F.seen (frames_of space.new)) (summaries_of space.new) entry) }
    ensures step { InStep (F.seen (frames_of space.new)) (summaries_of space.new)
        (capacity_in space.new) }
    ensures capacity { capacity_in space.new ≡ capacity_in space.old }
    ensures undos { undos_in space.new + 1 ≡ undos_in space.old }
    ensures keeps { Keeps (F.seen (frames_of space.old)) (F.seen (frames_of space.new)) }
    ensures forced { (F.seen (frames_of space.new)).forced
        ≡ (F.seen (frames_of space.old)).forced }
    ensures idle { position.0 ≤ (F.seen (frames_of space.old)).forced
        → (F.seen (frames_of space.old)).idle ≤ (F.seen (frames_of space.new)).idle }
    ensures device { IfErr result (λ fault. IsRisen fault (F.seen (frames_of space.old))
        (F.seen (frames_of space.new))) }
    ensures gave { F.gave (F.seen (frames_of space.old)).pages
        (F.seen (frames_of space.old)).forced (frames_of space.old) (frames_of space.new) }
{
    let Record {
        tran,
        back: next,
        kind,
        ..
    } = entry;
    match kind {
        Kind::Change {
            home,
            before,
            parts,
            ..
        } => {
            let undo = space.plan_undo(home, before.as_ref(), parts.as_slice())?;
            let record = Record {
                position,
                tran,
                back,
                kind: Kind::Undo {
                    next,
                    home,
                    after: before,
                    parts: undo,
                },
            };
            space.apply(&record);
            Ok(record)
        }
        _ => unreachable!(),
    }
}
