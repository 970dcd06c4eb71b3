// The rows whose homes are on a page.
//
// 1. A row is read from where it lies: at its home, or in the Over area that the home names.
// 2. All pages are let go before each row, so that two idle frames are enough. Frames may then give
//    the page up between two rows. The rows are those of one state of the pages where frames are
//    sure.
ghost use Rattle.std.specs.Prelude.{◌≡◌, ◌≤◌, ◌<◌, ◌+◌, ◌++◌, true, length, map, IfOk, IfErr, OnOk};
ghost use Rattle.std.specs.Prelude.{ℕ, List};
ghost use Rattle.rg_home.specs.Pages.{page_at};
ghost use Rattle.rg_home.specs.Rows.{row_at};
ghost use Rattle.rg_page.specs.Content.{slots_of};
ghost use Rattle.rg_page.specs.Seen.{Reads};
ghost use Rattle.rg_space.specs.Homes.{home_with, homed_values, homes_on, values_on};
ghost use Rattle.rg_space.specs.Took.{slot_in, HasRisen};

use crate::fault::SpaceFault;
use crate::read::{home_of, is_there, values_at};
use rg_base::homes::Homes;
use rg_base::place::Place;
use rg_base::row::Row;
use rg_base::values::Values;
use rg_page::frames::Frames;
use std::alloc::Global;

// How many slots a page has; none where it is not there.
fn slot_count_of<F: Frames>(frames: &mut F, number: u32) -> Result<u16, SpaceFault>
    requires spare { 1 ≤ (F.seen frames.old).spare }
    ensures count { IfOk result (λ count. count
        ≡ length (page_at (slots_of (F.seen frames.new).pages) number)) }
    ensures reads { Reads (F.seen frames.old) (F.seen frames.new) }
    ensures reserved { (F.seen frames.new).reserved ≡ (F.seen frames.old).reserved }
    ensures idle { (F.seen frames.old).idle ≤ (F.seen frames.new).idle }
    ensures cause { IfErr result (λ fault. HasRisen fault (F.seen frames.old) (F.seen frames.new)) }
    ensures gave { F.gave (F.seen frames.old).pages
        (F.seen frames.old).forced frames.old frames.new }
{
    if !is_there(frames, number) {
        return Ok(0);
    }
    match frames.with_page(number) {
        Ok(page) => Ok(page.slot_count()),
        Err(_) => Err(SpaceFault::Device),
    }
}

// Adds the row whose home is at this place, if there is one.
fn add_home<F: Frames>(
    frames: &mut F,
    alloc: Global,
    home: Place,
    rows: &mut Vec<(Place, Row)>,
) -> Result<(), SpaceFault>
    requires idle { 2 ≤ (F.seen frames.old).idle }
    ensures added { OnOk result (rows.new.items ≡ rows.old.items
        ++ home_with home (row_at (slot_in (F.seen frames.new)) home)) }
    ensures reads { Reads (F.seen frames.old) (F.seen frames.new) }
    ensures reserved { (F.seen frames.new).reserved ≡ (F.seen frames.old).reserved }
    ensures idle { (F.seen frames.old).idle ≤ (F.seen frames.new).idle }
    ensures cause { IfErr result (λ fault. HasRisen fault (F.seen frames.old) (F.seen frames.new)) }
    ensures gave { F.gave (F.seen frames.old).pages
        (F.seen frames.old).forced frames.old frames.new }
{
    frames.let_go();
    let seen = home_of(frames, alloc, home)?;
    match seen.row {
        None => Ok(()),
        Some(row) => match rows.push((home, row)) {
            Ok(()) => Ok(()),
            Err(_) => Err(SpaceFault::NoMemory),
        },
    }
}

/// The rows whose homes are on a page, by rising slot, each with the place of its home.
pub fn homes_of<F: Frames>(frames: &mut F, alloc: Global, page: u32) -> Result<Homes, SpaceFault>
    requires spare { 1 ≤ (F.seen frames.old).spare }
    requires idle { 2 ≤ (F.seen frames.old).idle }
    ensures rows { IfOk result (λ rows. (F.seen frames.new).sure ≡ true
        → rows ≡ homes_on (slots_of (F.seen frames.new).pages) page) }
    ensures reads { Reads (F.seen frames.old) (F.seen frames.new) }
    ensures reserved { (F.seen frames.new).reserved ≡ (F.seen frames.old).reserved }
    ensures idle { (F.seen frames.old).idle ≤ (F.seen frames.new).idle }
    ensures cause { IfErr result (λ fault. HasRisen fault (F.seen frames.old) (F.seen frames.new)) }
    ensures gave { F.gave (F.seen frames.old).pages
        (F.seen frames.old).forced frames.old frames.new }
{
    let count = slot_count_of(frames, page)?;
    let mut rows = match Vec::with_capacity(alloc, count as usize) {
        Ok(rows) => rows,
        Err(_) => return Err(SpaceFault::NoMemory),
    };
    let mut slot = 0;
    while slot < count {
        add_home(frames, alloc, Place { page, slot }, &mut rows)?;
        slot += 1;
    }
    Ok(Homes::new(rows))
}

// Adds the values of the row whose home is at this place, if there is one.
fn add_values<F: Frames>(
    frames: &mut F,
    home: Place,
    values: &mut Vec<(Place, Values)>,
) -> Result<(), SpaceFault>
    requires idle { 2 ≤ (F.seen frames.old).idle }
    ensures added { OnOk result (values.new.items ≡ values.old.items ++ map homed_values
        (home_with home (row_at (slot_in (F.seen frames.new)) home))) }
    ensures reads { Reads (F.seen frames.old) (F.seen frames.new) }
    ensures reserved { (F.seen frames.new).reserved ≡ (F.seen frames.old).reserved }
    ensures idle { (F.seen frames.old).idle ≤ (F.seen frames.new).idle }
    ensures cause { IfErr result (λ fault. HasRisen fault (F.seen frames.old) (F.seen frames.new)) }
    ensures gave { F.gave (F.seen frames.old).pages
        (F.seen frames.old).forced frames.old frames.new }
{
    frames.let_go();
    let seen = values_at(frames, home)?;
    match seen.values {
        None => Ok(()),
        Some(found) => match values.push((home, found)) {
            Ok(()) => Ok(()),
            Err(_) => Err(SpaceFault::NoMemory),
        },
    }
}

/// The values of the rows whose homes are on a page, by rising slot, each with the place of its
/// home. No text is copied.
pub fn values_of<F: Frames>(
    frames: &mut F,
    alloc: Global,
    page: u32,
) -> Result<Vec<(Place, Values)>, SpaceFault>
    requires spare { 1 ≤ (F.seen frames.old).spare }
    requires idle { 2 ≤ (F.seen frames.old).idle }
    ensures values { IfOk result (λ values. (F.seen frames.new).sure ≡ true
        → values.items ≡ values_on (slots_of (F.seen frames.new).pages) page) }
    ensures reads { Reads (F.seen frames.old) (F.seen frames.new) }
    ensures reserved { (F.seen frames.new).reserved ≡ (F.seen frames.old).reserved }
    ensures idle { (F.seen frames.old).idle ≤ (F.seen frames.new).idle }
    ensures cause { IfErr result (λ fault. HasRisen fault (F.seen frames.old) (F.seen frames.new)) }
    ensures gave { F.gave (F.seen frames.old).pages
        (F.seen frames.old).forced frames.old frames.new }
{
    let count = slot_count_of(frames, page)?;
    let mut values = match Vec::with_capacity(alloc, count as usize) {
        Ok(values) => values,
        Err(_) => return Err(SpaceFault::NoMemory),
    };
    let mut slot = 0;
    while slot < count {
        add_values(frames, Place { page, slot }, &mut values)?;
        slot += 1;
    }
    Ok(values)
}
