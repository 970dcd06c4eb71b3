// One page copied.
//
// 1. The copy has the rows whose homes are on the page, by rising slot, each with its home. A row
//    that was moved is read from its Over area.
// 2. Rows that are not committed are copied as they are: what is undone later is a change like any
//    other.
// 3. The position is the caller's: that of the last record of the log, not that of the page.
ghost use Rattle.std.specs.Prelude.{◌≡◌, ◌≤◌, true, None, IfOk, IfErr};
ghost use Rattle.rg_base.specs.declared.place.Place.{Place};
ghost use Rattle.rg_feed.specs.Fold.Fold.{step_at};
ghost use Rattle.rg_feed.specs.Fold.Lawful.{IsWell};
ghost use Rattle.rg_feed.specs.declared.fold.item.Item.TheVariants.{PageCopy};
ghost use Rattle.rg_home.specs.Rows.{row_at};
ghost use Rattle.rg_page.specs.Content.{slots_of};
ghost use Rattle.rg_page.specs.Seen.{Reads};
ghost use Rattle.rg_space.specs.Homes.{homes_on};
ghost use Rattle.rg_space.specs.Space.{InStep, capacity_in, frames_of, summaries_of, undos_in};
ghost use Rattle.rg_space.specs.Took.{HasRisen, slot_in};

use rg_base::position::Position;
use rg_feed::fold::item::Item;
use rg_page::frames::Frames;
use rg_space::fault::SpaceFault;
use rg_space::space::Space;

/// A copy of the page of this number, as it is after the record at this position. All pages are
/// let go.
pub fn unload<F: Frames>(
    space: &mut Space<F>,
    page: u32,
    position: Position,
) -> Result<Item, SpaceFault>
    requires spare { 2 ≤ (F.seen (frames_of space.old)).spare }
    requires step { InStep (F.seen (frames_of space.old)) (summaries_of space.old)
        (capacity_in space.old) }
    // Where frames are not sure, the page may have changed between two of its rows.
    ensures copy { IfOk result (λ item. (F.seen (frames_of space.new)).sure ≡ true
        → item ≡ PageCopy page position
        (homes_on (slots_of (F.seen (frames_of space.new)).pages) page)) }
    // The rows have different homes, all on the page.
    ensures well { IfOk result (λ item. (F.seen (frames_of space.new)).sure ≡ true
        → IsWell item) }
    // The copy gives each place of the page the row that the space has there.
    ensures rows { IfOk result (λ item. (F.seen (frames_of space.new)).sure ≡ true
        → (place : Place) → place.page ≡ page
        → step_at place item None ≡ row_at (slot_in (F.seen (frames_of space.new))) place) }
    ensures step { InStep (F.seen (frames_of space.new)) (summaries_of space.new)
        (capacity_in space.new) }
    ensures capacity { capacity_in space.new ≡ capacity_in space.old }
    ensures undos { undos_in space.new ≡ undos_in space.old }
    ensures summaries { summaries_of space.new ≡ summaries_of space.old }
    ensures reserved { (F.seen (frames_of space.new)).reserved
        ≡ (F.seen (frames_of space.old)).reserved }
    ensures reads { Reads (F.seen (frames_of space.old)) (F.seen (frames_of space.new)) }
    ensures idle { (F.seen (frames_of space.old)).idle ≤ (F.seen (frames_of space.new)).idle }
    ensures spare { (F.seen (frames_of space.new)).spare ≡ (F.seen (frames_of space.new)).idle }
    ensures cause { IfErr result (λ fault. HasRisen fault (F.seen (frames_of space.old))
        (F.seen (frames_of space.new))) }
    ensures gave { F.gave (F.seen (frames_of space.old)).pages
        (F.seen (frames_of space.old)).forced (frames_of space.old) (frames_of space.new) }
{
    let rows = space.home_rows(page)?;
    Ok(Item::PageCopy {
        page,
        position,
        rows,
    })
}
