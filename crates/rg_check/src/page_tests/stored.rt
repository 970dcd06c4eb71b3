// Whether the home rows are the stored rows, after undo.
//
// 1. Each row that has a home is the stored row of its key: it is compared whole, not by its key
//    alone. The least place whose row is not is named.
// 2. Where each row is stored, a stored row may have no home. No place can be named then.
// 3. The homes are walked once, by rising place, and then the stored rows once.
ghost use Rattle.std.specs.Prelude.{◌≡◌, ◌≤◌, ℕ, true, length, IsTrue, IfOk, IfErr, OnOk, Some};
ghost use Rattle.std.specs.Prelude.{None, Option};
ghost use Rattle.std.specs.FinMap as map;
ghost use Rattle.std.specs.Option.{option_copied, option_map};
ghost use Rattle.rg_base.specs.First.{IsFirstFrom};
ghost use Rattle.rg_base.specs.declared.place.Place.{Place as ThePlace};
ghost use Rattle.rg_home.specs.Rows.{row_at};
ghost use Rattle.rg_space.specs.Space.{InStep, frames_of, summaries_of, capacity_in};
ghost use Rattle.rg_space.specs.Took.{slot_in, HasRisen};
ghost use Rattle.rg_check.specs.PageTests.Keys.{noted};
ghost use Rattle.rg_check.specs.PageTests.Looked.{Looked, LeftAsItWas};
ghost use Rattle.rg_check.specs.PageTests.Places.{IsLeastBreach, IsLeastOnPage, Says};
ghost use Rattle.rg_check.specs.PageTests.StoredRows.{AreNoted, AreSound, IsNoted, IsStoredAt};
ghost use Rattle.rg_base.specs.Start.{start_of};
ghost use Rattle.rg_check.specs.PageTests.StoredRows.{NotesPage, Stands};

use crate::page_tests::outline::slot_count_of;
use crate::page_tests::rows::{is_same, row_of};
use rg_base::map::NumberMap;
use rg_base::place::Place;
use rg_base::row::Row;
use rg_page::frames::Frames;
use rg_space::fault::SpaceFault;
use rg_space::space::Space;
use std::alloc::Global;

/// How the home rows stand to the stored rows.
#[derive(Clone, Copy, Debug, PartialEq, Eq)]
pub enum Standing {
    /// They are the stored rows, by key.
    Stored,
    /// The row of this place is not the stored row of its key, and no row of a place before is so.
    Strange { place: Place },
    /// Each home row is stored, but a stored row has no home.
    Missing,
}

// Whether a row is the stored row of its key.
fn is_stored(stored: &NumberMap<Row>, row: &Row) -> bool
    ensures { Says result (map.get stored.now row.now.key ≡ Some row.now) }
{
    match stored.get(row.key) {
        None => false,
        Some(other) => is_same(other, row),
    }
}

// Whether the row of this home, if there is one, is the stored row of its key, which is noted.
fn test_home<F: Frames>(
    alloc: Global,
    frames: &mut F,
    stored: &NumberMap<Row>,
    notes: &mut NumberMap<Place>,
    home: Place,
) -> Result<bool, SpaceFault>
    requires idle { 2 ≤ (F.seen frames.old).idle }
    ensures stored { IfOk result (λ is_stored. Says is_stored
        (IsStoredAt stored.now (row_at (slot_in (F.seen frames.new))) home)) }
    ensures noted { OnOk result (notes.new
        ≡ noted notes.old home (row_at (slot_in (F.seen frames.new)) home)) }
    ensures looked { Looked (F.seen frames.old) (F.seen frames.new) }
    ensures cause { IfErr result (λ fault. HasRisen fault (F.seen frames.old) (F.seen frames.new)) }
    ensures gave { F.gave (F.seen frames.old).pages
        (F.seen frames.old).forced frames.old frames.new }
{
    let Some(row) = row_of(alloc, frames, home)? else {
        return Ok(true);
    };
    match notes.insert(row.key, home) {
        Ok(_) => Ok(is_stored(stored, &row)),
        Err(_) => Err(SpaceFault::NoMemory),
    }
}

// The least place of a page whose row is not stored. The keys up to there are noted.
fn strange_on<F: Frames>(
    alloc: Global,
    frames: &mut F,
    stored: &NumberMap<Row>,
    notes: &mut NumberMap<Place>,
    page: u32,
) -> Result<Option<Place>, SpaceFault>
    requires idle { 2 ≤ (F.seen frames.old).idle }
    ensures least { IfOk result (λ place. (F.seen frames.new).sure ≡ true
        → IsLeastOnPage (IsStoredAt stored.now (row_at (slot_in (F.seen frames.new))))
        page place) }
    ensures noted { IfOk result (λ place. (F.seen frames.new).sure ≡ true
        → NotesPage (row_at (slot_in (F.seen frames.new))) page notes.old notes.new place) }
    ensures looked { Looked (F.seen frames.old) (F.seen frames.new) }
    ensures cause { IfErr result (λ fault. HasRisen fault (F.seen frames.old) (F.seen frames.new)) }
    ensures gave { F.gave (F.seen frames.old).pages
        (F.seen frames.old).forced frames.old frames.new }
{
    let count = match slot_count_of(frames, page) {
        Ok(count) => count,
        Err(fault) => return Err(fault),
    };
    let mut slot = 0;
    while slot < count {
        let place = Place { page, slot };
        if !test_home(alloc, frames, stored, notes, place)? {
            return Ok(Some(place));
        }
        slot += 1;
    }
    Ok(None)
}

// The least place whose row is not stored. Where there is none, the keys of all rows are noted.
fn strange_in<F: Frames>(
    alloc: Global,
    frames: &mut F,
    stored: &NumberMap<Row>,
    notes: &mut NumberMap<Place>,
) -> Result<Option<Place>, SpaceFault>
    requires idle { 2 ≤ (F.seen frames.old).idle }
    requires none { notes.old ≡ map.empty }
    ensures least { IfOk result (λ place. (F.seen frames.new).sure ≡ true
        → IsLeastBreach (IsStoredAt stored.now (row_at (slot_in (F.seen frames.new)))) place) }
    ensures sound { OnOk result ((F.seen frames.new).sure ≡ true
        → AreSound (row_at (slot_in (F.seen frames.new))) notes.new) }
    ensures noted { IfOk result (λ place. (F.seen frames.new).sure ≡ true → place ≡ None
        → (p : ThePlace) → IsNoted (row_at (slot_in (F.seen frames.new))) notes.new p) }
    ensures looked { Looked (F.seen frames.old) (F.seen frames.new) }
    ensures cause { IfErr result (λ fault. HasRisen fault (F.seen frames.old) (F.seen frames.new)) }
    ensures gave { F.gave (F.seen frames.old).pages
        (F.seen frames.old).forced frames.old frames.new }
{
    let count = frames.count();
    let mut n = 0;
    while n < count {
        let found = strange_on(alloc, frames, stored, notes, n + 1)?;
        if found.is_some() {
            return Ok(found);
        }
        n += 1;
    }
    Ok(None)
}

// The stored row with the least key, or with the least one above the last key.
fn row_after(stored: &NumberMap<Row>, last: Option<u64>) -> Option<(u64, &Row)>
    ensures { IsFirstFrom stored.now (start_of last)
        (option_map (λ entry. (entry.0, entry.1.now)) result) }
{
    match last {
        Some(key) => stored.first_after(key),
        None => stored.first_from(0),
    }
}

// Whether the key of each stored row is noted.
fn are_noted(stored: &NumberMap<Row>, notes: &NumberMap<Place>) -> bool
    ensures { AreNoted stored.now notes.now result }
{
    let mut last = None;
    while let Some((key, _)) = row_after(stored, last) {
        if !notes.contains_key(key) {
            return false;
        }
        last = Some(key);
    }
    true
}

// The same as `not_stored`, over frames.
fn standing_in<F: Frames>(
    alloc: Global,
    frames: &mut F,
    stored: &NumberMap<Row>,
) -> Result<Standing, SpaceFault>
    requires idle { 2 ≤ (F.seen frames.old).idle }
    ensures stands { IfOk result (λ standing. (F.seen frames.new).sure ≡ true
        → Stands stored.now (row_at (slot_in (F.seen frames.new))) standing) }
    ensures looked { Looked (F.seen frames.old) (F.seen frames.new) }
    ensures cause { IfErr result (λ fault. HasRisen fault (F.seen frames.old) (F.seen frames.new)) }
    ensures gave { F.gave (F.seen frames.old).pages
        (F.seen frames.old).forced frames.old frames.new }
{
    let mut notes = NumberMap::new(alloc);
    let found = strange_in(alloc, frames, stored, &mut notes)?;
    if let Some(place) = found {
        return Ok(Standing::Strange { place });
    }
    if are_noted(stored, &notes) {
        Ok(Standing::Stored)
    } else {
        Ok(Standing::Missing)
    }
}

/// How the home rows stand to these stored rows, which are by key. All pages are let go.
pub fn not_stored<F: Frames>(
    alloc: Global,
    space: &mut Space<F>,
    stored: &NumberMap<Row>,
) -> Result<Standing, SpaceFault>
    requires spare { 2 ≤ (F.seen (frames_of space.old)).spare }
    requires step { InStep (F.seen (frames_of space.old)) (summaries_of space.old)
        (capacity_in space.old) }
    ensures stands { IfOk result (λ standing. (F.seen (frames_of space.new)).sure ≡ true
        → Stands stored.now (row_at (slot_in (F.seen (frames_of space.new)))) standing) }
    ensures left { LeftAsItWas space.old space.new (F.seen (frames_of space.old))
        (F.seen (frames_of space.new)) }
    ensures cause { IfErr result (λ fault. HasRisen fault (F.seen (frames_of space.old))
        (F.seen (frames_of space.new))) }
    ensures gave { F.gave (F.seen (frames_of space.old)).pages
        (F.seen (frames_of space.old)).forced (frames_of space.old) (frames_of space.new) }
{
    let standing = standing_in(alloc, space.frames(), stored);
    space.let_go();
    standing
}
