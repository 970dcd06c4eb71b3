// What a write does to slots, found over the summaries of pages: which page is purged, and which
// parts are written. Beside the summaries it takes only the place that the home points to.
//
// 1. A row that grows stays at home if its page has the room; else in its Over area; else it goes
//    to a new one, on the first page that admits it.
// 2. Nothing is chosen here: `specs/Moves.antt` computes each answer.
ghost use Rattle.std.specs.Prelude.{◌≡◌, ◌≤◌, ◌<◌, ◌+◌, ◌^◌, ◌∷◌, ◌++◌, ◌-◌, [], IfOk, length};
ghost use Rattle.std.specs.Prelude.{drop};
ghost use Rattle.rg_home.specs.Pages.{page_at, slot_of, part_at, place_of};
ghost use Rattle.rg_home.specs.Undo.{left_area, over_place, over_before};
ghost use Rattle.rg_home.specs.Plan.{new_area, fitting, listed, purge_of};
ghost use Rattle.rg_home.specs.Slots.{capacity_of};
ghost use Rattle.std.specs.Option.{option_copied};
ghost use Rattle.rg_space.specs.Planned.{size_in};
ghost use Rattle.rg_page.specs.Bare.{numbers_of};
ghost use Rattle.rg_space.specs.Moves.{IsPut, home_moves, over_moves, new_moves, change_moves};
ghost use Rattle.rg_space.specs.Moves.{drop_moves, undo_moves, left_by, back_moves, points_to};

use crate::summaries::Summaries;
use rg_base::no_memory::NoMemory;
use rg_base::part::{Part, Parts, SlotOp};
use rg_base::place::Place;
use rg_base::row::Row;
use rg_base::tran::Tran;
use rg_home::plan::{Area, Fitting};
use rg_page::areas::push_within;
use std::alloc::Global;
use std::marker::Model;

/// The parts that purge a page, and then those that write.
#[derive(Debug, Drop)]
pub struct Moves {
    pub purge: Parts,
    pub parts: Parts,
}

/// Room for the parts of one write, which are three at most.
#[derive(Drop)]
pub struct PartsRoom {
    parts: Vec<Part>,
}

impl Model for PartsRoom {
    ghost use Rattle.std.specs.Prelude.{◌≡◌, ◌≤◌, [], vec_capacity};

    ghost Value = { Unit {0} };

    ghost view = { λ x. tt };

    ghost invariant = { λ x. (x.parts.items ≡ []) × (3 ≤ vec_capacity x.parts) };
}

impl PartsRoom {
    pub fn new(alloc: Global) -> Result<PartsRoom, NoMemory> {
        Ok(PartsRoom {
            parts: Vec::with_capacity(alloc, 3)?,
        })
    }

    // No part.
    fn empty(self) -> Parts
        ensures { result ≡ [] }
    {
        Parts::new(self.parts)
    }

    // One part, and two more if they are there.
    fn fill(self, first: Part, second: Option<Part>, third: Option<Part>) -> Parts
        ensures { result ≡ first ∷ (listed second ++ listed third) }
    {
        let mut parts = self.parts;
        push_within(&mut parts, first);
        if let Some(second) = second {
            push_within(&mut parts, second);
        }
        if let Some(third) = third {
            push_within(&mut parts, third);
        }
        Parts::new(parts)
    }
}

impl Summaries {
    /// Where a new area of `b` bytes comes to lie, or none where a page above `capacity` is needed.
    pub fn area(&self, live: &[Tran], b: u16, capacity: u32) -> Option<Area>
        requires some { 1 ≤ b }
        requires size { b ≤ 826 }
        ensures { result ≡ new_area (numbers_of live.now) b capacity self.now.pages }
    {
        let i = self.first(live, b);
        if i >= capacity {
            return None;
        }
        Some(match self.page(i + 1) {
            None => Area {
                place: Place {
                    page: i + 1,
                    slot: 0,
                },
                purges: false,
            },
            Some(summary) => summary.area(i + 1, live, b),
        })
    }

    /// How an area of this capacity on a page takes a row of `b` bytes, if it does.
    pub fn fitting(&self, live: &[Tran], page: u32, capacity: u16, b: u16) -> Option<Fitting>
        requires { b ≤ 826 }
        ensures { result ≡ fitting (numbers_of live.now) b capacity (page_at self.now.pages page) }
    {
        match self.page(page) {
            Some(summary) => summary.fitting(live, capacity, b),
            None => Some(Fitting {
                capacity: if b <= capacity { capacity } else { b },
                purges: false,
            }),
        }
    }

    /// The capacity of the area at a place; 0 if there is none.
    pub fn capacity(&self, place: Place) -> u16
        ensures { result ≡ capacity_of (slot_of self.now.pages place) }
    {
        match self.page(place.page) {
            None => 0,
            Some(summary) => {
                if place.slot < summary.len() {
                    summary.header(place.slot).capacity()
                } else {
                    0
                }
            }
        }
    }

    /// The parts that purge a page, if it has to be.
    pub fn purge(
        &self,
        alloc: Global,
        live: &[Tran],
        page: u32,
        purges: bool,
    ) -> Result<Parts, NoMemory>
        ensures { IfOk result (λ parts. parts ≡ purge_of
            (numbers_of live.now) self.now.pages page purges) }
    {
        if !purges {
            return Ok(Parts::new(Vec::new(alloc)));
        }
        match self.page(page) {
            None => Ok(Parts::new(Vec::new(alloc))),
            Some(summary) => Ok(Parts::new(summary.purge(alloc, page, live)?)),
        }
    }

    /// Of a new row of `b` bytes: where it comes to lie, and how. None is for a copy that is full.
    pub fn put(
        &self,
        alloc: Global,
        live: &[Tran],
        b: u16,
        capacity: u32,
    ) -> Result<Option<(Place, Moves)>, NoMemory>
        requires some { 1 ≤ b }
        requires size { b ≤ 826 }
        ensures { IfOk result (λ put. IsPut put (numbers_of live.now) b self.now.pages
            (new_area (numbers_of live.now) b capacity self.now.pages)) }
    {
        let Some(area) = self.area(live, b, capacity) else {
            return Ok(None);
        };
        let purge = self.purge(alloc, live, area.place.page, area.purges)?;
        let part = part_at(area.place, SlotOp::Row { capacity: b });
        let parts = parts_of(alloc, part, None, None)?;
        Ok(Some((area.place, Moves { purge, parts })))
    }

    /// Of a row that becomes one of `b` bytes, where its home points to this place. None is for a
    /// copy that is full.
    pub fn change(
        &self,
        alloc: Global,
        live: &[Tran],
        home: Place,
        other: Option<Place>,
        b: u16,
        capacity: u32,
    ) -> Result<Option<Moves>, NoMemory>
        requires some { 1 ≤ b }
        requires size { b ≤ 826 }
        ensures { IfOk result (λ moves. moves ≡ change_moves
            (numbers_of live.now) b capacity self.now.pages home other) }
    {
        if let Some(fitting) = self.fitting(live, home.page, self.capacity(home), b) {
            return Ok(Some(self.to_home(alloc, live, home, other, fitting)?));
        }
        if let Some(over) = other {
            if let Some(fitting) = self.fitting(live, over.page, self.capacity(over), b) {
                return Ok(Some(self.in_over(alloc, live, home, over, fitting)?));
            }
        }
        let Some(area) = self.area(live, b, capacity) else {
            return Ok(None);
        };
        Ok(Some(self.to_new(alloc, live, home, other, b, area)?))
    }

    fn to_home(
        &self,
        alloc: Global,
        live: &[Tran],
        home: Place,
        other: Option<Place>,
        fitting: Fitting,
    ) -> Result<Moves, NoMemory>
        ensures { IfOk result (λ moves. moves ≡ home_moves
            (numbers_of live.now) self.now.pages home other fitting) }
    {
        let purge = self.purge(alloc, live, home.page, fitting.purges)?;
        let part = part_at(
            home,
            SlotOp::Row {
                capacity: fitting.capacity,
            },
        );
        let parts = parts_of(alloc, part, None, self.left(home, other))?;
        Ok(Moves { purge, parts })
    }

    fn in_over(
        &self,
        alloc: Global,
        live: &[Tran],
        home: Place,
        over: Place,
        fitting: Fitting,
    ) -> Result<Moves, NoMemory>
        ensures { IfOk result (λ moves. moves ≡ over_moves
            (numbers_of live.now) self.now.pages home over fitting) }
    {
        let purge = self.purge(alloc, live, over.page, fitting.purges)?;
        let part = part_at(
            over,
            SlotOp::Over {
                capacity: fitting.capacity,
                other: home,
            },
        );
        let parts = parts_of(alloc, part, None, None)?;
        Ok(Moves { purge, parts })
    }

    fn to_new(
        &self,
        alloc: Global,
        live: &[Tran],
        home: Place,
        other: Option<Place>,
        b: u16,
        area: Area,
    ) -> Result<Moves, NoMemory>
        ensures { IfOk result (λ moves. new_moves (numbers_of live.now) b self.now.pages home other
            (Some area) ≡ Some moves) }
    {
        let purge = self.purge(alloc, live, area.place.page, area.purges)?;
        let pointer = part_at(
            home,
            SlotOp::Pointer {
                capacity: self.capacity(home),
                other: area.place,
            },
        );
        let over = part_at(
            area.place,
            SlotOp::Over {
                capacity: b,
                other: home,
            },
        );
        let parts = parts_of(alloc, pointer, Some(over), self.left(home, other))?;
        Ok(Moves { purge, parts })
    }

    // The part for the Over area that is left.
    fn left(&self, home: Place, other: Option<Place>) -> Option<Part>
        ensures { listed result ≡ left_by self.now.pages home other }
    {
        match other {
            None => None,
            Some(over) => Some(part_at(
                over,
                SlotOp::DeadOver {
                    capacity: self.capacity(over),
                    other: home,
                },
            )),
        }
    }

    /// Of a row that is deleted, where its home points to this place.
    pub fn drop_row(&self, room: PartsRoom, home: Place, other: Option<Place>) -> Parts
        ensures { result ≡ drop_moves self.now.pages home other }
    {
        let capacity = self.capacity(home);
        let op = match other {
            None => SlotOp::DeadRow { capacity },
            Some(other) => SlotOp::DeadPointer { capacity, other },
        };
        room.fill(part_at(home, op), None, self.left(home, other))
    }

    /// Of a write that is undone: of the row before, its bytes, if there was one; of the write, the
    /// Over area that the row before had; and the place that its home points to now.
    pub fn undo(
        &self,
        room: PartsRoom,
        home: Place,
        before: Option<u16>,
        over: Option<Place>,
        other: Option<Place>,
    ) -> Parts
        ensures { result ≡ undo_moves self.now.pages home before over other }
    {
        let Some(b) = before else {
            return self.drop_row(room, home, other);
        };
        let capacity = self.capacity(home);
        if b <= capacity {
            let part = part_at(home, SlotOp::Row { capacity });
            return room.fill(part, None, self.left(home, other));
        }
        match over {
            None => room.empty(),
            Some(q) => self.back(room, home, q, other),
        }
    }

    // Of a row that goes back to its Over area q.
    fn back(&self, room: PartsRoom, home: Place, q: Place, other: Option<Place>) -> Parts
        ensures { result ≡ back_moves self.now.pages home q other (points_to other q) }
    {
        let over = part_at(
            q,
            SlotOp::Over {
                capacity: self.capacity(q),
                other: home,
            },
        );
        if points_to(other, q) {
            return room.fill(over, None, None);
        }
        let pointer = part_at(
            home,
            SlotOp::Pointer {
                capacity: self.capacity(home),
                other: q,
            },
        );
        room.fill(pointer, Some(over), self.left(home, other))
    }
}

fn points_to(other: Option<Place>, q: Place) -> bool
    ensures { result ≡ points_to other q }
{
    match other {
        None => false,
        Some(other) => other.page == q.page && other.slot == q.slot,
    }
}

fn part_at(place: Place, op: SlotOp) -> Part
    ensures { result ≡ part_at place op }
{
    Part {
        page: place.page,
        slot: place.slot,
        op,
    }
}

fn parts_of(
    alloc: Global,
    first: Part,
    second: Option<Part>,
    third: Option<Part>,
) -> Result<Parts, NoMemory>
    ensures { IfOk result (λ parts. parts ≡ first ∷ (listed second ++ listed third)) }
{
    let room = PartsRoom::new(alloc)?;
    Ok(room.fill(first, second, third))
}

// The Over area that parts leave, from part i on.
fn left_area(parts: &[Part], i: usize) -> Option<Place>
    ensures { result ≡ left_area (drop i parts.now) }
{
    if i >= parts.len() {
        return None;
    }
    match parts[i].op {
        SlotOp::DeadOver { .. } => Some(Place {
            page: parts[i].page,
            slot: parts[i].slot,
        }),
        _ => left_area(parts, i + 1),
    }
}

// The Over area that a lone part leaves, or within which it changes the row.
fn over_place(part: &Part) -> Option<Place>
    ensures { result ≡ over_place part.now.op (place_of part.now) }
{
    let place = Place {
        page: part.page,
        slot: part.slot,
    };
    match part.op {
        SlotOp::DeadOver { .. } | SlotOp::Over { .. } => Some(place),
        _ => None,
    }
}

/// The Over area in which the row before these parts lay, if it lay in one.
pub fn over_before(parts: &[Part]) -> Option<Place>
    ensures { result ≡ over_before parts.now }
{
    if parts.len() == 1 {
        return over_place(&parts[0]);
    }
    left_area(parts, 0)
}

/// The bytes of a row, if there is one.
pub fn size_of(row: Option<&Row>) -> Option<u16>
    ensures { result ≡ size_in (option_copied row.entry) }
{
    match row {
        None => None,
        Some(row) => Some(row.size()),
    }
}
