// A page of slots.
//
// 1. A page keeps a header for each slot, the place that the slot names, and the bytes of its row.
//    The rows' bytes lie in one buffer of the page's own, so a change of a slot takes no memory.
// 2. The slots stay within 4,064 bytes, at 18 bytes a slot and its capacity, and the last one is
//    not Free. 225 slots are never passed, since a header takes 18 bytes.
// 3. A row lies in an area that holds it.
ghost use Rattle.std.specs.Prelude.{◌≡◌, ◌≤◌, ◌<◌, ◌+◌, ◌↔◌, ℕ, List, [], IsTrue, IfOk, OnOk};
ghost use Rattle.std.specs.Prelude.{OnErr, IsSomeAnd, length, map, take, slice_index_or, vec_len};
ghost use Rattle.std.specs.Prelude.{vec_capacity};
ghost use Rattle.std.specs.Option.{option_copied};
ghost use Rattle.rg_base.specs.RowBytes.{row_size};
ghost use Rattle.rg_base.specs.declared.place.Place.{Place as ThePlace};
ghost use Rattle.rg_home.specs.Pages.{altered, PartFits, TakesRow};
ghost use Rattle.rg_home.specs.Plan.{room};
ghost use Rattle.rg_home.specs.Slots.{slot_at, placed, used, Fits, IsTrimmed};
ghost use Rattle.rg_page.specs.Bare.{bare, nowhere, numbers_of};
ghost use Rattle.rg_page.specs.Changed.{changed, other_of, brought, IsLeft, IsShown};
ghost use Rattle.rg_page.specs.Laid.{laid, whole_slot, IsArea, IsLaid};
ghost use Rattle.rg_page.specs.Stretches.{filled_by, bytes_of, size_of};
ghost use Rattle.rg_page.specs.Content.{empty};
ghost use Rattle.rg_page.specs.Shown.{shown, IsHeld, IsSpelled};

use crate::areas::{Areas, push_within};
use crate::header::Header;
use crate::slot::Slot;
use crate::summary::Summary;
use rg_base::copy::TableCopy;
use rg_base::no_memory::NoMemory;
use rg_base::part::{Part, SlotOp};
use rg_base::place::Place;
use rg_base::position::Position;
use rg_base::row::Row;
use rg_base::tran::Tran;
use std::alloc::Global;
use std::marker::Model;

/// Why a part is not applied.
#[derive(Clone, Copy, Debug, PartialEq, Eq, thiserror::Error)]
pub enum PartFault {
    /// It does not fit its page: it is of another page, brings a row that is not there or that its
    /// area does not hold, or would take the page beyond its bytes.
    #[error("a part that does not fit its page")]
    Unfit,
}

/// A page of the table space. It is seen as its copy, its number, the position of the last record
/// that changed it, and its slots.
#[derive(Drop)]
pub struct Page {
    copy: TableCopy,
    number: u32,
    position: u64,
    summary: Summary,
    others: Vec<Place>,
    areas: Areas,
}

impl Model for Page {
    ghost use Rattle.rg_page.specs.Content.{Content};
    ghost use Rattle.rg_page.specs.Laid.{laid, IsLaid};

    ghost Value = { Content };

    ghost view = { λ p. record {
      copy = p.copy;
      number = p.number;
      position = p.position;
      slots = laid p.summary p.others.items p.areas;
    } };

    ghost invariant = { λ p. IsLaid p.summary p.others p.areas };
}

impl Page {
    /// The page without slots and with position 0. It takes the room that any later content needs.
    pub fn new(alloc: Global, copy: TableCopy, number: u32) -> Result<Page, NoMemory>
        ensures { IfOk result (λ page. page ≡ empty copy number) }
    {
        Ok(Page {
            copy,
            number,
            position: 0,
            summary: Summary::new(alloc)?,
            others: Vec::with_capacity(alloc, 226)?,
            areas: Areas::new(alloc)?,
        })
    }

    /// The page with position 0 whose slots have these headers, places and bytes.
    pub(crate) fn of(
        copy: TableCopy,
        number: u32,
        summary: Summary,
        others: Vec<Place>,
        areas: Areas,
    ) -> Page
        requires { IsLaid summary others areas }
        ensures { result ≡ record {
          copy = copy;
          number = number;
          position = 0;
          slots = laid summary others.items areas;
        } }
    {
        Page {
            copy,
            number,
            position: 0,
            summary,
            others,
            areas,
        }
    }

    /// The copy that it is of.
    pub fn copy(&self) -> TableCopy
        ensures { result ≡ self.now.copy }
    {
        self.copy
    }

    /// Gives it another number.
    pub(crate) fn set_number(&mut self, number: u32)
        ensures { self.new ≡ record self.old { number = number } }
    {
        self.number = number;
    }

    /// Gives it another position.
    pub(crate) fn set_position(&mut self, at: Position)
        ensures { self.new ≡ record self.old { position = at.0 } }
    {
        self.position = at.0;
    }

    /// Its number, from 1.
    pub fn number(&self) -> u32
        ensures { result ≡ self.now.number }
    {
        self.number
    }

    /// The position of the last record that changed it.
    pub fn position(&self) -> Position
        ensures { result.0 ≡ self.now.position }
    {
        Position(self.position)
    }

    pub fn slot_count(&self) -> u16
        ensures count { result ≡ length self.now.slots }
        ensures fits { Fits self.now.slots }
        ensures trimmed { IsTrimmed self.now.slots }
    {
        self.summary.len()
    }

    /// The headers of its slots.
    pub fn summary(&self) -> &Summary
        ensures { result.now ≡ map bare self.now.slots }
    {
        &self.summary
    }

    /// What lies in slot i, counted from 0.
    pub fn slot(&self, i: u16) -> Slot<'_>
        requires { i < length self.now.slots }
        ensures slot { shown result ≡ slot_at self.now.slots i }
        ensures spelled { IsSpelled result }
        ensures held { IsHeld result }
    {
        let at = i as usize;
        self.summary.slot(i, self.others[at], self.areas.get(at))
    }

    /// The bytes that no slot takes.
    pub fn free(&self) -> u16
        ensures { result + used self.now.slots ≡ 4064 }
    {
        self.summary.free()
    }

    /// What would be free if all dead areas but those of these owners were purged.
    pub fn room(&self, live: &[Tran]) -> u16
        ensures { result ≡ room (numbers_of live.now) self.now.slots }
    {
        self.summary.room(live)
    }

    /// Does what a part says. It takes no memory.
    pub fn apply(
        &mut self,
        part: &Part,
        tran: Tran,
        after: Option<&Row>,
        position: Position,
    ) -> Result<(), PartFault>
        ensures ok { OnOk result (self.new ≡ changed self.old part.now tran.0
            (option_copied after.entry) position.0) }
        ensures fits { OnOk result (PartFits self.old.number self.old.slots tran.0
            (option_copied after.entry) part.now) }
        ensures unfit { OnErr result (PartFits self.old.number self.old.slots tran.0
            (option_copied after.entry) part.now → ⊥) }
        ensures err { OnErr result (self.new ≡ self.old) }
    {
        if part.page != self.number {
            return Err(PartFault::Unfit);
        }
        if !takes(part.op, after) {
            return Err(PartFault::Unfit);
        }
        let header = Header::of(part.op, tran);
        if !self.summary.fits(part.slot, &header) {
            return Err(PartFault::Unfit);
        }
        self.set(part.slot, header, other_of(part.op), row_of(part.op, after));
        self.position = position.0;
        Ok(())
    }

    // Sets a slot that fits.
    fn set(&mut self, i: u16, header: Header, other: Place, row: Option<&Row>)
        requires fits { Fits (placed (map bare self.old.slots) i header) }
        requires bare { bare header ≡ header }
        requires area { IsArea header (bytes_of (option_copied row)) }
        ensures { self.new ≡ record self.old {
          slots = placed self.old.slots i
              (whole_slot header other (bytes_of (option_copied row.entry)));
        } }
    {
        let at = i as usize;
        self.summary.set(i, header);
        let left = self.summary.len() as usize;
        put_place(&mut self.others, at, left, other);
        put_area(&mut self.areas, at, left, row);
    }
}

// Puts a place at its number, past none where there are fewer, and leaves the first ones alone.
fn put_place(others: &mut Vec<Place>, at: usize, left: usize, other: Place)
    requires left { IsLeft at (vec_len others.old) left }
    requires few { left ≤ 225 }
    requires room { 226 ≤ vec_capacity others.old }
    ensures items { others.new.items ≡ take left (altered nowhere
        (λ _. other) others.old.items at) }
    ensures capacity { vec_capacity others.old ≤ vec_capacity others.new }
{
    if at < others.len() {
        others[at] = other;
        others.truncate(left);
        return;
    }
    if left <= at {
        others.truncate(left);
        return;
    }
    pad_places(others, at);
    push_within(others, other);
}

/// Adds no places until there are this many.
pub(crate) fn pad_places(others: &mut Vec<Place>, count: usize)
    requires past { vec_len others.old ≤ count }
    requires room { count ≤ vec_capacity others.old }
    ensures count { vec_len others.new ≡ count }
    ensures same { (x : ThePlace) → altered nowhere (λ _. x) others.new.items count
        ≡ altered nowhere (λ _. x) others.old.items count }
    ensures capacity { vec_capacity others.old ≤ vec_capacity others.new }
{
    while others.len() < count {
        push_within(others, Place { page: 0, slot: 0 });
    }
}

// The same of the bytes of a row, or none.
fn put_area(areas: &mut Areas, at: usize, left: usize, row: Option<&Row>)
    requires few { left ≤ 225 }
    requires fits { filled_by areas.old + size_of (option_copied row)
        ≤ 4064 + length (slice_index_or areas.old at []) }
    requires left { IsLeft at (length areas.old) left }
    ensures { areas.new ≡ take left (altered []
        (λ _. bytes_of (option_copied row.entry)) areas.old at) }
{
    if at < areas.len() {
        areas.replace(at, row);
        areas.truncate(left);
        return;
    }
    if left <= at {
        areas.truncate(left);
        return;
    }
    pad_areas(areas, at);
    areas.push_empty();
    areas.replace(at, row);
}

// Adds empty stretches until there are this many.
fn pad_areas(areas: &mut Areas, count: usize)
    requires past { length areas.old ≤ count }
    requires few { count ≤ 225 }
    ensures count { length areas.new ≡ count }
    ensures filled { filled_by areas.new ≡ filled_by areas.old }
    ensures same { (x : List ℕ) → altered [] (λ _. x) areas.new count
        ≡ altered [] (λ _. x) areas.old count }
{
    while areas.len() < count {
        areas.push_empty();
    }
}

/// The place that an operation names, or none.
fn other_of(op: SlotOp) -> Place
    ensures { result ≡ other_of op }
{
    match op {
        SlotOp::Pointer { other, .. }
        | SlotOp::Over { other, .. }
        | SlotOp::DeadPointer { other, .. }
        | SlotOp::DeadOver { other, .. } => other,
        _ => Place { page: 0, slot: 0 },
    }
}

/// The row that an operation puts in its area, if it puts one.
fn row_of(op: SlotOp, after: Option<&Row>) -> Option<&Row>
    ensures { option_copied result ≡ brought op (option_copied after.entry) }
{
    match op {
        SlotOp::Row { .. } | SlotOp::Over { .. } => after,
        _ => None,
    }
}

// Whether an operation that puts a row has one, which its area holds.
fn takes(op: SlotOp, after: Option<&Row>) -> bool
    ensures takes { IsTrue result ↔ TakesRow (option_copied after.entry) op }
    ensures shown { IsShown (brought op (option_copied after.entry)) }
{
    match op {
        SlotOp::Row { capacity } => holds(capacity, after),
        SlotOp::Over { capacity, .. } => holds(capacity, after),
        _ => true,
    }
}

fn holds(capacity: u16, after: Option<&Row>) -> bool
    ensures holds { IsTrue result ↔ IsSomeAnd (option_copied after.entry)
        (λ row. row_size row ≤ capacity) }
    ensures shown { IsShown (option_copied after.entry) }
{
    match after {
        None => false,
        Some(row) => row.size() <= capacity,
    }
}
