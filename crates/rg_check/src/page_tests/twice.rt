// Whether a key stands twice, after undo.
//
// 1. The place that is named is the least of all places whose row has the key of another place's
//    row. It is the first of its pair, but need not be of the pair that is found first: with key 1
//    at 1.0, key 2 at 1.1 and 1.2, and key 1 again at 1.3, it is 1.0.
// 2. So the homes are walked to the end, once, by rising place. The first place of each key is
//    kept.
ghost use Rattle.std.specs.Prelude.{◌≡◌, ◌≤◌, ◌+◌, true, length, IfOk, IfErr, OnOk, Option};
ghost use Rattle.std.specs.FinMap as map;
ghost use Rattle.rg_home.specs.Rows.{row_at};
ghost use Rattle.rg_space.specs.Homes.{place_on};
ghost use Rattle.rg_space.specs.Space.{InStep, frames_of, summaries_of, capacity_in};
ghost use Rattle.rg_space.specs.Took.{slot_in, HasRisen};
ghost use Rattle.rg_check.specs.PageTests.Keys.{IsAlone, first_noted, noted_by};
ghost use Rattle.rg_check.specs.PageTests.Looked.{Looked, LeftAsItWas};
ghost use Rattle.rg_check.specs.PageTests.Places.{IsLeastBreach};
ghost use Rattle.rg_check.specs.PageTests.Twins.{Kept, is_before, lesser};

use crate::page_tests::outline::slot_count_of;
use crate::page_tests::rows::row_of;
use rg_base::map::NumberMap;
use rg_base::place::Place;
use rg_page::frames::Frames;
use rg_space::fault::SpaceFault;
use rg_space::space::Space;
use std::alloc::Global;

// Whether one place is before another.
fn is_before(a: Place, b: Place) -> bool
    ensures { result ≡ is_before a b }
{
    a.page < b.page || (a.page == b.page && a.slot < b.slot)
}

// The lesser of two places, of which there may be one or none.
fn lesser(least: Option<Place>, found: Option<Place>) -> Option<Place>
    ensures { result ≡ lesser least found }
{
    match (least, found) {
        (None, found) => found,
        (Some(place), None) => Some(place),
        (Some(place), Some(first)) => {
            if is_before(first, place) {
                Some(first)
            } else {
                Some(place)
            }
        }
    }
}

// The first place with the key of this home's row, if there is one before. Else the home is noted.
fn first_with<F: Frames>(
    alloc: Global,
    frames: &mut F,
    notes: &mut NumberMap<Place>,
    home: Place,
) -> Result<Option<Place>, SpaceFault>
    requires idle { 2 ≤ (F.seen frames.old).idle }
    ensures first { IfOk result (λ first. first
        ≡ noted_by notes.old (row_at (slot_in (F.seen frames.new)) home)) }
    ensures noted { OnOk result (notes.new
        ≡ first_noted notes.old home (row_at (slot_in (F.seen frames.new)) home)) }
    ensures looked { Looked (F.seen frames.old) (F.seen frames.new) }
    ensures cause { IfErr result (λ fault. HasRisen fault (F.seen frames.old) (F.seen frames.new)) }
    ensures gave { F.gave (F.seen frames.old).pages
        (F.seen frames.old).forced frames.old frames.new }
{
    let Some(row) = row_of(alloc, frames, home)? else {
        return Ok(None);
    };
    if let Some(first) = notes.get(row.key) {
        return Ok(Some(*first));
    }
    match notes.insert(row.key, home) {
        Ok(_) => Ok(None),
        Err(_) => Err(SpaceFault::NoMemory),
    }
}

// The least place whose key stands twice, up to the end of a page, where `least` is the one before
// that page.
fn twice_on<F: Frames>(
    alloc: Global,
    frames: &mut F,
    notes: &mut NumberMap<Place>,
    least: Option<Place>,
    page: u32,
) -> Result<Option<Place>, SpaceFault>
    requires idle { 2 ≤ (F.seen frames.old).idle }
    ensures kept { IfOk result (λ after. (F.seen frames.new).sure ≡ true
        → Kept (row_at (slot_in (F.seen frames.new))) (place_on page 0) notes.old least
        → Kept (row_at (slot_in (F.seen frames.new))) (place_on (page + 1) 0) notes.new after) }
    ensures looked { Looked (F.seen frames.old) (F.seen frames.new) }
    ensures cause { IfErr result (λ fault. HasRisen fault (F.seen frames.old) (F.seen frames.new)) }
    ensures gave { F.gave (F.seen frames.old).pages
        (F.seen frames.old).forced frames.old frames.new }
{
    let count = match slot_count_of(frames, page) {
        Ok(count) => count,
        Err(fault) => return Err(fault),
    };
    let mut least = least;
    let mut slot = 0;
    while slot < count {
        let first = first_with(alloc, frames, notes, Place { page, slot })?;
        least = lesser(least, first);
        slot += 1;
    }
    Ok(least)
}

// The least place whose key stands twice.
fn twice_in<F: Frames>(alloc: Global, frames: &mut F) -> Result<Option<Place>, SpaceFault>
    requires idle { 2 ≤ (F.seen frames.old).idle }
    ensures least { IfOk result (λ place. (F.seen frames.new).sure ≡ true
        → IsLeastBreach (IsAlone (row_at (slot_in (F.seen frames.new)))) place) }
    ensures looked { Looked (F.seen frames.old) (F.seen frames.new) }
    ensures cause { IfErr result (λ fault. HasRisen fault (F.seen frames.old) (F.seen frames.new)) }
    ensures gave { F.gave (F.seen frames.old).pages
        (F.seen frames.old).forced frames.old frames.new }
{
    let count = frames.count();
    let mut notes = NumberMap::new(alloc);
    let mut least = None;
    let mut n = 0;
    while n < count {
        least = twice_on(alloc, frames, &mut notes, least, n + 1)?;
        n += 1;
    }
    Ok(least)
}

/// The least place whose row has the key of another place's row, if a key stands twice. All pages
/// are let go.
pub fn twice<F: Frames>(alloc: Global, space: &mut Space<F>) -> Result<Option<Place>, SpaceFault>
    requires spare { 2 ≤ (F.seen (frames_of space.old)).spare }
    requires step { InStep (F.seen (frames_of space.old)) (summaries_of space.old)
        (capacity_in space.old) }
    ensures least { IfOk result (λ place. (F.seen (frames_of space.new)).sure ≡ true
        → IsLeastBreach (IsAlone (row_at (slot_in (F.seen (frames_of space.new))))) place) }
    ensures left { LeftAsItWas space.old space.new (F.seen (frames_of space.old))
        (F.seen (frames_of space.new)) }
    ensures cause { IfErr result (λ fault. HasRisen fault (F.seen (frames_of space.old))
        (F.seen (frames_of space.new))) }
    ensures gave { F.gave (F.seen (frames_of space.old)).pages
        (F.seen (frames_of space.old)).forced (frames_of space.old) (frames_of space.new) }
{
    let least = twice_in(alloc, space.frames());
    space.let_go();
    least
}
