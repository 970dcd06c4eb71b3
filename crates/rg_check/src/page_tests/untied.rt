// Whether slots name each other, before undo.
//
// 1. Each Pointer names an Over area that names it, and each Over area names a Pointer that names
//    it.
// 2. Each DeadPointer of an open transaction names an Over area that names it, dead or not. A
//    DeadPointer of any other transaction is not tested: its area may be freed.
// 3. The slots are tested by rising place, each once, and the first that breaks a rule is named.
// 4. All pages are let go before each slot, so that two idle frames are enough. What is said is of
//    one state of the pages where frames are sure.
ghost use Rattle.std.specs.Prelude.{◌≡◌, ◌≤◌, true, length, IfOk, IfErr};
ghost use Rattle.rg_page.specs.Bare.{numbers_of};
ghost use Rattle.rg_space.specs.Space.{InStep, frames_of, summaries_of, capacity_in};
ghost use Rattle.rg_space.specs.Took.{slot_in, IsRisen};
ghost use Rattle.rg_check.specs.PageTests.Looked.{Looked, LeftAsItWas};
ghost use Rattle.rg_check.specs.PageTests.Places.{IsLeastBreach, IsLeastOnPage, Says};
ghost use Rattle.rg_check.specs.PageTests.Ties.{IsTiedAt, asked_of, is_open, names_back};

use crate::page_tests::outline::{Outline, outline_of, slot_count_of};
use rg_base::place::Place;
use rg_base::tran::Tran;
use rg_page::frames::Frames;
use rg_space::fault::SpaceFault;
use rg_space::space::Space;

// Whether a transaction is one of these.
fn is_open(live: &[Tran], owner: Tran) -> bool
    ensures { result ≡ is_open (numbers_of live.now) owner.0 }
{
    live.iter().map(|t| t.0).any(|number| number == owner.0)
}

// The place whose slot has to name this one.
fn asked_of(slot: Outline, live: &[Tran]) -> Option<Place>
    ensures { result ≡ asked_of (numbers_of live.now) slot }
{
    match slot {
        Outline::Pointer { other, .. } => Some(other),
        Outline::Over { home, .. } => Some(home),
        Outline::DeadPointer { other, owner, .. } => {
            if is_open(live, owner) {
                Some(other)
            } else {
                None
            }
        }
        Outline::Free | Outline::Row { .. } | Outline::DeadRow { .. } | Outline::DeadOver { .. } =>
            None,
    }
}

// Whether the slot that was asked names this place, as the one here asks.
fn names_back(slot: Outline, there: Outline, place: Place) -> bool
    ensures { result ≡ names_back slot there place }
{
    match slot {
        Outline::Pointer { .. } => there.is_over_of(place),
        Outline::Over { .. } => there.is_pointer_to(place),
        Outline::DeadPointer { .. } => there.is_area_of(place),
        Outline::Free | Outline::Row { .. } | Outline::DeadRow { .. } | Outline::DeadOver { .. } =>
            true,
    }
}

// Whether what this place names names it.
fn is_tied<F: Frames>(frames: &mut F, live: &[Tran], place: Place) -> Result<bool, SpaceFault>
    requires idle { 2 ≤ (F.seen frames.old).idle }
    ensures tied { IfOk result (λ tied. (F.seen frames.new).sure ≡ true
        → Says tied (IsTiedAt (numbers_of live.now) (slot_in (F.seen frames.new)) place)) }
    ensures looked { Looked (F.seen frames.old) (F.seen frames.new) }
    ensures device { IfErr result (λ fault. IsRisen fault (F.seen frames.old) (F.seen frames.new)) }
    ensures gave { F.gave (F.seen frames.old).pages
        (F.seen frames.old).forced frames.old frames.new }
{
    frames.let_go();
    let here = outline_of(frames, place)?;
    let Some(other) = asked_of(here, live) else {
        return Ok(true);
    };
    let there = outline_of(frames, other)?;
    Ok(names_back(here, there, place))
}

// The least place of a page that is not tied.
fn untied_on<F: Frames>(
    frames: &mut F,
    live: &[Tran],
    page: u32,
) -> Result<Option<Place>, SpaceFault>
    requires idle { 2 ≤ (F.seen frames.old).idle }
    ensures least { IfOk result (λ place. (F.seen frames.new).sure ≡ true
        → IsLeastOnPage (IsTiedAt (numbers_of live.now) (slot_in (F.seen frames.new)))
        page place) }
    ensures looked { Looked (F.seen frames.old) (F.seen frames.new) }
    ensures device { IfErr result (λ fault. IsRisen fault (F.seen frames.old) (F.seen frames.new)) }
    ensures gave { F.gave (F.seen frames.old).pages
        (F.seen frames.old).forced frames.old frames.new }
{
    let count = slot_count_of(frames, page)?;
    let mut slot = 0;
    while slot < count {
        let place = Place { page, slot };
        if !is_tied(frames, live, place)? {
            return Ok(Some(place));
        }
        slot += 1;
    }
    Ok(None)
}

// The least place that is not tied.
fn untied_in<F: Frames>(frames: &mut F, live: &[Tran]) -> Result<Option<Place>, SpaceFault>
    requires idle { 2 ≤ (F.seen frames.old).idle }
    ensures least { IfOk result (λ place. (F.seen frames.new).sure ≡ true
        → IsLeastBreach (IsTiedAt (numbers_of live.now) (slot_in (F.seen frames.new))) place) }
    ensures looked { Looked (F.seen frames.old) (F.seen frames.new) }
    ensures device { IfErr result (λ fault. IsRisen fault (F.seen frames.old) (F.seen frames.new)) }
    ensures gave { F.gave (F.seen frames.old).pages
        (F.seen frames.old).forced frames.old frames.new }
{
    let count = frames.count();
    let mut n = 0;
    while n < count {
        let found = untied_on(frames, live, n + 1)?;
        if found.is_some() {
            return Ok(found);
        }
        n += 1;
    }
    Ok(None)
}

/// The least place whose Pointer, Over area or DeadPointer is not named by what it names, where
/// these are the open transactions: those of the log without an end record. It takes no memory, and
/// lets all pages go.
pub fn untied<F: Frames>(space: &mut Space<F>, live: &[Tran]) -> Result<Option<Place>, SpaceFault>
    requires spare { 2 ≤ (F.seen (frames_of space.old)).spare }
    requires step { InStep (F.seen (frames_of space.old)) (summaries_of space.old)
        (capacity_in space.old) }
    ensures least { IfOk result (λ place. (F.seen (frames_of space.new)).sure ≡ true
        → IsLeastBreach (IsTiedAt (numbers_of live.now)
        (slot_in (F.seen (frames_of space.new)))) place) }
    ensures left { LeftAsItWas space.old space.new (F.seen (frames_of space.old))
        (F.seen (frames_of space.new)) }
    ensures device { IfErr result (λ fault. IsRisen fault (F.seen (frames_of space.old))
        (F.seen (frames_of space.new))) }
    ensures gave { F.gave (F.seen (frames_of space.old)).pages
        (F.seen (frames_of space.old)).forced (frames_of space.old) (frames_of space.new) }
{
    let found = untied_in(space.frames(), live);
    space.let_go();
    found
}
