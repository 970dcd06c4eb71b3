// Whether the undo of a Change has what it needs, at its turn.
//
// 1. Its home is there. Where there was no row before, a row is there; else the home may be dead.
// 2. The row before fits the home, or else the Over area that it had: that area is there, dead or
//    not, names the home, and holds the row.
// 3. The place that is named is the home, or the area where the home is right and that area is
//    not.
ghost use Rattle.std.specs.Prelude.{◌≡◌, ◌≤◌, true, length, IfOk, IfErr};
ghost use Rattle.std.specs.Option.{option_copied};
ghost use Rattle.rg_page.specs.Content.{slots_of};
ghost use Rattle.rg_space.specs.Space.{InStep, frames_of, summaries_of, capacity_in};
ghost use Rattle.rg_space.specs.Took.{slot_in, IsRisen};
ghost use Rattle.rg_undo.specs.Undoing.{is_change, written_of};
ghost use Rattle.rg_check.specs.PageTests.Breach.{BreaksOf, IsBreach};
ghost use Rattle.rg_check.specs.PageTests.Looked.{Looked, LeftAsItWas};

use crate::page_tests::outline::outline_of;
use rg_base::place::Place;
use rg_base::row::Row;
use rg_page::frames::Frames;
use rg_record::record::{Kind, Record};
use rg_space::fault::SpaceFault;
use rg_space::moves::over_before;
use rg_space::space::Space;

// The place that breaks what the undo of a write at this home needs, where this row was there
// before, in the Over area `over` if it had moved.
fn breach_in<F: Frames>(
    frames: &mut F,
    home: Place,
    before: Option<&Row>,
    over: Option<Place>,
) -> Result<Option<Place>, SpaceFault>
    requires spare { 2 ≤ (F.seen frames.old).spare }
    ensures breach { IfOk result (λ breach. (F.seen frames.new).sure ≡ true
        → IsBreach (slot_in (F.seen frames.new)) home (option_copied before.entry) over breach) }
    ensures looked { Looked (F.seen frames.old) (F.seen frames.new) }
    ensures device { IfErr result (λ fault. IsRisen fault (F.seen frames.old) (F.seen frames.new)) }
    ensures gave { F.gave (F.seen frames.old).pages
        (F.seen frames.old).forced frames.old frames.new }
{
    let here = outline_of(frames, home)?;
    let Some(row) = before else {
        return Ok(if here.has_row() { None } else { Some(home) });
    };
    if !here.is_home() {
        return Ok(Some(home));
    }
    if row.size() <= here.capacity() {
        return Ok(None);
    }
    let Some(area) = over else {
        return Ok(Some(home));
    };
    let there = outline_of(frames, area)?;
    if there.is_area_of(home) && row.size() <= there.capacity() {
        Ok(None)
    } else {
        Ok(Some(area))
    }
}

/// The place that breaks what the undo of this Change needs, on the pages as they are: its home, or
/// the Over area that its row before had. It takes no memory, and lets all pages go.
pub fn breach_of<F: Frames>(
    space: &mut Space<F>,
    entry: &Record,
) -> Result<Option<Place>, SpaceFault>
    requires change { is_change entry.now.kind ≡ true }
    requires spare { 2 ≤ (F.seen (frames_of space.old)).spare }
    requires step { InStep (F.seen (frames_of space.old)) (summaries_of space.old)
        (capacity_in space.old) }
    ensures breach { IfOk result (λ breach. (F.seen (frames_of space.new)).sure ≡ true
        → BreaksOf (slots_of (F.seen (frames_of space.new)).pages) (written_of entry.now)
        breach) }
    ensures left { LeftAsItWas space.old space.new (F.seen (frames_of space.old))
        (F.seen (frames_of space.new)) }
    ensures device { IfErr result (λ fault. IsRisen fault (F.seen (frames_of space.old))
        (F.seen (frames_of space.new))) }
    ensures gave { F.gave (F.seen (frames_of space.old)).pages
        (F.seen (frames_of space.old)).forced (frames_of space.old) (frames_of space.new) }
{
    match &entry.kind {
        Kind::Change {
            home,
            before,
            parts,
            ..
        } => {
            let over = over_before(parts.as_slice());
            let breach = breach_in(space.frames(), *home, before.as_ref(), over);
            space.let_go();
            breach
        }
        _ => unreachable!(),
    }
}
