// Slots and rows, read through frames. What is said is of the pages as they are afterwards, and
// what was held stays as it is, so it holds whether or not pages come back that are given up.
ghost use Rattle.std.specs.Prelude.{◌≡◌, ◌≤◌, ◌<◌, ◌+◌, ◌↔◌, IsTrue, true, length, IfOk, IfErr};
ghost use Rattle.std.specs.Prelude.{OnOk, OnErr};
ghost use Rattle.rg_home.specs.Plan.{pointed_to};
ghost use Rattle.rg_page.specs.Content.{Content};
ghost use Rattle.rg_space.specs.Glimpse.{IsGlimpse, IsValuesGlimpse};
ghost use Rattle.rg_space.specs.Took.{Took, slot_in, HasRisen, IsRisen, IsHeldAt};
ghost use Rattle.rg_space.specs.AtHome.{AreValuesAt, IsAtHome};

use crate::fault::SpaceFault;
use crate::look::{Glimpse, ValuesGlimpse, look_at, look_at_values, pointer_at};
use rg_base::place::Place;
use rg_base::row::Row;
use rg_base::values::Values;
use rg_page::frames::Frames;
use std::alloc::Global;

/// What the slot at a place says of a row. Its page is held from then on.
pub fn glimpse_of<F: Frames>(
    frames: &mut F,
    alloc: Global,
    place: Place,
) -> Result<Glimpse, SpaceFault>
    requires low { 1 ≤ place.page }
    requires high { place.page ≤ length (F.seen frames.old).pages }
    requires spare { 1 ≤ (F.seen frames.old).spare }
    ensures seen { IfOk result (λ seen. IsGlimpse seen (slot_in (F.seen frames.new) place)) }
    ensures held { OnOk result ((F.seen frames.new).held place.page ≡ true) }
    ensures took { Took 1 (F.seen frames.old) (F.seen frames.new) }
    ensures reserved { (F.seen frames.new).reserved ≡ (F.seen frames.old).reserved }
    ensures cause { IfErr result (λ fault. HasRisen fault (F.seen frames.old) (F.seen frames.new)) }
    ensures gave { F.gave (F.seen frames.old).pages
        (F.seen frames.old).forced frames.old frames.new }
{
    let page = match frames.with_page(place.page) {
        Ok(page) => page,
        Err(_) => return Err(SpaceFault::Device),
    };
    match look_at(alloc, page, place.slot) {
        Ok(seen) => Ok(seen),
        Err(_) => Err(SpaceFault::NoMemory),
    }
}

/// Whether there is a page of this number.
pub fn is_there<F: Frames>(frames: &F, number: u32) -> bool
    ensures { IsTrue result ↔ ((1 ≤ number) × (number ≤ length (F.seen frames.now).pages)) }
{
    number != 0 && number <= frames.count()
}

/// What a home shows: the Over area that it points to, and its row, wherever that lies.
#[derive(Debug, Drop)]
pub struct AtHome {
    pub other: Option<Place>,
    pub row: Option<Row>,
}

/// What the home at this place shows. Its page, and that of its Over area, are held from then on.
pub fn home_of<F: Frames>(frames: &mut F, alloc: Global, home: Place) -> Result<AtHome, SpaceFault>
    requires spare { 2 ≤ (F.seen frames.old).spare }
    ensures seen { IfOk result (IsAtHome (F.seen frames.new) home) }
    ensures took { Took 2 (F.seen frames.old) (F.seen frames.new) }
    ensures reserved { (F.seen frames.new).reserved ≡ (F.seen frames.old).reserved }
    ensures cause { IfErr result (λ fault. HasRisen fault (F.seen frames.old) (F.seen frames.new)) }
    ensures gave { F.gave (F.seen frames.old).pages
        (F.seen frames.old).forced frames.old frames.new }
{
    if !is_there(frames, home.page) {
        return Ok(AtHome {
            other: None,
            row: None,
        });
    }
    let seen = glimpse_of(frames, alloc, home)?;
    let Some(other) = seen.other else {
        return Ok(AtHome {
            other: None,
            row: seen.row,
        });
    };
    if !is_there(frames, other.page) {
        return Ok(AtHome {
            other: Some(other),
            row: None,
        });
    }
    let over = glimpse_of(frames, alloc, other)?;
    Ok(AtHome {
        other: Some(other),
        row: over.moved,
    })
}

// What the slot at a place says of a row, without its text. Its page is held from then on.
fn glimpse_values<F: Frames>(frames: &mut F, place: Place) -> Result<ValuesGlimpse, SpaceFault>
    requires low { 1 ≤ place.page }
    requires high { place.page ≤ length (F.seen frames.old).pages }
    requires spare { 1 ≤ (F.seen frames.old).spare }
    ensures seen { IfOk result (λ seen. IsValuesGlimpse seen (slot_in (F.seen frames.new) place)) }
    ensures held { OnOk result ((F.seen frames.new).held place.page ≡ true) }
    ensures took { Took 1 (F.seen frames.old) (F.seen frames.new) }
    ensures reserved { (F.seen frames.new).reserved ≡ (F.seen frames.old).reserved }
    ensures device { IfErr result (λ fault. IsRisen fault (F.seen frames.old) (F.seen frames.new)) }
    ensures gave { F.gave (F.seen frames.old).pages
        (F.seen frames.old).forced frames.old frames.new }
{
    match frames.with_page(place.page) {
        Ok(page) => Ok(look_at_values(page, place.slot)),
        Err(_) => Err(SpaceFault::Device),
    }
}

/// What a home shows but for the text of its row: the Over area that it points to, and the row's
/// values, wherever it lies.
#[derive(Clone, Copy, Debug)]
pub struct ValuesAt {
    pub other: Option<Place>,
    pub values: Option<Values>,
}

/// What the home at this place shows, without the text of its row. It takes no memory. Its page,
/// and that of its Over area, are held from then on.
pub fn values_at<F: Frames>(frames: &mut F, home: Place) -> Result<ValuesAt, SpaceFault>
    requires spare { 2 ≤ (F.seen frames.old).spare }
    ensures seen { IfOk result (AreValuesAt (F.seen frames.new) home) }
    ensures took { Took 2 (F.seen frames.old) (F.seen frames.new) }
    ensures reserved { (F.seen frames.new).reserved ≡ (F.seen frames.old).reserved }
    ensures device { IfErr result (λ fault. IsRisen fault (F.seen frames.old) (F.seen frames.new)) }
    ensures gave { F.gave (F.seen frames.old).pages
        (F.seen frames.old).forced frames.old frames.new }
{
    if !is_there(frames, home.page) {
        return Ok(ValuesAt {
            other: None,
            values: None,
        });
    }
    let seen = glimpse_values(frames, home)?;
    let Some(other) = seen.other else {
        return Ok(ValuesAt {
            other: None,
            values: seen.values,
        });
    };
    if !is_there(frames, other.page) {
        return Ok(ValuesAt {
            other: Some(other),
            values: None,
        });
    }
    let over = glimpse_values(frames, other)?;
    Ok(ValuesAt {
        other: Some(other),
        values: over.moved,
    })
}

/// The place that the slot at a place points to, if it is a Pointer. It takes no memory. The page
/// is held from then on.
pub fn pointer_of<F: Frames>(frames: &mut F, place: Place) -> Result<Option<Place>, SpaceFault>
    requires spare { 1 ≤ (F.seen frames.old).spare }
    ensures other { IfOk result (λ other. other ≡ pointed_to (slot_in (F.seen frames.new) place)) }
    ensures held { OnOk result (IsHeldAt (F.seen frames.new) place.page) }
    ensures took { Took 1 (F.seen frames.old) (F.seen frames.new) }
    ensures reserved { (F.seen frames.new).reserved ≡ (F.seen frames.old).reserved }
    ensures device { IfErr result (λ fault. IsRisen fault (F.seen frames.old) (F.seen frames.new)) }
    ensures gave { F.gave (F.seen frames.old).pages
        (F.seen frames.old).forced frames.old frames.new }
{
    if !is_there(frames, place.page) {
        return Ok(None);
    }
    match frames.with_page(place.page) {
        Ok(page) => Ok(pointer_at(page, place.slot)),
        Err(_) => Err(SpaceFault::Device),
    }
}

/// Holds the page of this number, if it is there. It takes no memory.
pub fn hold_at<F: Frames>(frames: &mut F, number: u32) -> Result<(), SpaceFault>
    requires spare { 1 ≤ (F.seen frames.old).spare }
    ensures held { OnOk result (IsHeldAt (F.seen frames.new) number) }
    ensures took { Took 1 (F.seen frames.old) (F.seen frames.new) }
    ensures reserved { (F.seen frames.new).reserved ≡ (F.seen frames.old).reserved }
    ensures device { IfErr result (λ fault. IsRisen fault (F.seen frames.old) (F.seen frames.new)) }
    ensures gave { F.gave (F.seen frames.old).pages
        (F.seen frames.old).forced frames.old frames.new }
{
    if !is_there(frames, number) {
        return Ok(());
    }
    match frames.with_page(number) {
        Ok(_) => Ok(()),
        Err(_) => Err(SpaceFault::Device),
    }
}
