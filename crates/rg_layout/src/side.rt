// The layout of a space and its three indexes.
//
// 1. The pages are read one after the other, and all are let go at the end.
// 2. A layout is right for the table of these rows: what is read is the table, where frames are
//    sure.
ghost use Rattle.std.specs.Prelude.{◌≡◌, ◌≤◌, true, length, IfOk, IfErr};
ghost use Rattle.rg_btree.specs.Indexes.Listings.{entries_of};
ghost use Rattle.rg_layout.specs.Right.{IsRightFor};
ghost use Rattle.rg_layout.specs.Spots.{spots_of};
ghost use Rattle.rg_page.specs.Content.{slots_of};
ghost use Rattle.rg_page.specs.Seen.{Reads};
ghost use Rattle.rg_space.specs.Space.{InStep, frames_of, summaries_of, capacity_in, undos_in};
ghost use Rattle.rg_space.specs.Took.{HasRisen};

use crate::spots::all_spots;
use rg_btree::indexes::indexes::Indexes;
use rg_btree::tree::Tree;
use rg_page::frames::Frames;
use rg_space::fault::SpaceFault;
use rg_space::space::Space;
use rg_stmt::layout::{Listing, Side, Spots};
use std::alloc::Global;

// The spots of a space. All pages are let go.
fn spots_in<F: Frames>(alloc: Global, space: &mut Space<F>) -> Result<Spots, SpaceFault>
    requires spare { 2 ≤ (F.seen (frames_of space.old)).spare }
    requires step { InStep (F.seen (frames_of space.old)) (summaries_of space.old)
        (capacity_in space.old) }
    ensures spots { IfOk result (λ spots. (F.seen (frames_of space.new)).sure ≡ true
        → spots ≡ spots_of (slots_of (F.seen (frames_of space.new)).pages)) }
    ensures step { InStep (F.seen (frames_of space.new)) (summaries_of space.new)
        (capacity_in space.new) }
    ensures capacity { capacity_in space.new ≡ capacity_in space.old }
    ensures undos { undos_in space.new ≡ undos_in space.old }
    ensures summaries { summaries_of space.new ≡ summaries_of space.old }
    ensures reserved { (F.seen (frames_of space.new)).reserved
        ≡ (F.seen (frames_of space.old)).reserved }
    ensures reads { Reads (F.seen (frames_of space.old)) (F.seen (frames_of space.new)) }
    ensures idle { (F.seen (frames_of space.old)).idle ≤ (F.seen (frames_of space.new)).idle }
    ensures spare { (F.seen (frames_of space.new)).spare ≡ (F.seen (frames_of space.new)).idle }
    ensures cause { IfErr result (λ fault. HasRisen fault (F.seen (frames_of space.old))
        (F.seen (frames_of space.new))) }
    ensures gave { F.gave (F.seen (frames_of space.old)).pages
        (F.seen (frames_of space.old)).forced (frames_of space.old) (frames_of space.new) }
{
    let spots = all_spots(space.frames(), alloc);
    space.let_go();
    spots
}

// What an index lists.
fn listing_of(index: &Tree) -> Result<Listing, SpaceFault>
    ensures listing { IfOk result (λ listing. listing ≡ entries_of index.now) }
    ensures cause { IfErr result (λ fault. fault ≡ SpaceFault.NoMemory) }
{
    match index.listing() {
        Ok(listing) => Ok(listing),
        Err(_) => Err(SpaceFault::NoMemory),
    }
}

/// The layout of a space and three trees that index it: its pages, the spots of its rows by rising
/// place, and what each tree lists. All pages are let go at the end.
pub fn side_of<F: Frames>(
    alloc: Global,
    space: &mut Space<F>,
    keys: &Tree,
    cluses: &Tree,
    cats: &Tree,
) -> Result<Side, SpaceFault>
    requires spare { 2 ≤ (F.seen (frames_of space.old)).spare }
    requires step { InStep (F.seen (frames_of space.old)) (summaries_of space.old)
        (capacity_in space.old) }
    ensures pages { IfOk result (λ side. side.pages
        ≡ length (F.seen (frames_of space.new)).pages) }
    ensures spots { IfOk result (λ side. (F.seen (frames_of space.new)).sure ≡ true
        → side.spots ≡ spots_of (slots_of (F.seen (frames_of space.new)).pages)) }
    ensures keys { IfOk result (λ side. side.keys ≡ entries_of keys.now) }
    ensures cluses { IfOk result (λ side. side.cluses ≡ entries_of cluses.now) }
    ensures cats { IfOk result (λ side. side.cats ≡ entries_of cats.now) }
    // Where frames are not sure, pages may have changed between two slots.
    ensures right { IfOk result (λ side. (F.seen (frames_of space.new)).sure ≡ true
        → IsRightFor (slots_of (F.seen (frames_of space.new)).pages)
        (record { keys = keys.now; cluses = cluses.now; cats = cats.now }) side) }
    ensures step { InStep (F.seen (frames_of space.new)) (summaries_of space.new)
        (capacity_in space.new) }
    ensures capacity { capacity_in space.new ≡ capacity_in space.old }
    ensures undos { undos_in space.new ≡ undos_in space.old }
    ensures summaries { summaries_of space.new ≡ summaries_of space.old }
    ensures reserved { (F.seen (frames_of space.new)).reserved
        ≡ (F.seen (frames_of space.old)).reserved }
    ensures reads { Reads (F.seen (frames_of space.old)) (F.seen (frames_of space.new)) }
    ensures idle { (F.seen (frames_of space.old)).idle ≤ (F.seen (frames_of space.new)).idle }
    ensures spare { (F.seen (frames_of space.new)).spare ≡ (F.seen (frames_of space.new)).idle }
    ensures cause { IfErr result (λ fault. HasRisen fault (F.seen (frames_of space.old))
        (F.seen (frames_of space.new))) }
    ensures gave { F.gave (F.seen (frames_of space.old)).pages
        (F.seen (frames_of space.old)).forced (frames_of space.old) (frames_of space.new) }
{
    let spots = spots_in(alloc, space)?;
    let keys = listing_of(keys)?;
    let cluses = listing_of(cluses)?;
    let cats = listing_of(cats)?;
    Ok(Side {
        pages: space.count(),
        spots,
        keys,
        cluses,
        cats,
    })
}

/// The layout of a space and its indexes: that of their three trees.
pub fn side<F: Frames>(
    alloc: Global,
    space: &mut Space<F>,
    indexes: &Indexes,
) -> Result<Side, SpaceFault>
    requires spare { 2 ≤ (F.seen (frames_of space.old)).spare }
    requires step { InStep (F.seen (frames_of space.old)) (summaries_of space.old)
        (capacity_in space.old) }
    ensures pages { IfOk result (λ side. side.pages
        ≡ length (F.seen (frames_of space.new)).pages) }
    ensures spots { IfOk result (λ side. (F.seen (frames_of space.new)).sure ≡ true
        → side.spots ≡ spots_of (slots_of (F.seen (frames_of space.new)).pages)) }
    ensures keys { IfOk result (λ side. side.keys ≡ entries_of indexes.now.keys) }
    ensures cluses { IfOk result (λ side. side.cluses ≡ entries_of indexes.now.cluses) }
    ensures cats { IfOk result (λ side. side.cats ≡ entries_of indexes.now.cats) }
    // Where frames are not sure, pages may have changed between two slots.
    ensures right { IfOk result (λ side. (F.seen (frames_of space.new)).sure ≡ true
        → IsRightFor (slots_of (F.seen (frames_of space.new)).pages) indexes.now side) }
    ensures step { InStep (F.seen (frames_of space.new)) (summaries_of space.new)
        (capacity_in space.new) }
    ensures capacity { capacity_in space.new ≡ capacity_in space.old }
    ensures undos { undos_in space.new ≡ undos_in space.old }
    ensures summaries { summaries_of space.new ≡ summaries_of space.old }
    ensures reserved { (F.seen (frames_of space.new)).reserved
        ≡ (F.seen (frames_of space.old)).reserved }
    ensures reads { Reads (F.seen (frames_of space.old)) (F.seen (frames_of space.new)) }
    ensures idle { (F.seen (frames_of space.old)).idle ≤ (F.seen (frames_of space.new)).idle }
    ensures spare { (F.seen (frames_of space.new)).spare ≡ (F.seen (frames_of space.new)).idle }
    ensures cause { IfErr result (λ fault. HasRisen fault (F.seen (frames_of space.old))
        (F.seen (frames_of space.new))) }
    ensures gave { F.gave (F.seen (frames_of space.old)).pages
        (F.seen (frames_of space.old)).forced (frames_of space.old) (frames_of space.new) }
{
    side_of(alloc, space, &indexes.keys, &indexes.cluses, &indexes.cats)
}
