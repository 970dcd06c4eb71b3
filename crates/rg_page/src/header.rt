// 1. A plan reads of a slot its kind, its capacity and its owner, and neither row nor place.
// 2. Only a dead slot has an owner. What stands in another header in its place is not looked at.
ghost use Rattle.std.specs.Prelude.{◌≡◌, ◌==◌, ◌<◌, ◌^◌, IsTrue, ◌↔◌};
ghost use Rattle.std.specs.List.{list_any};
ghost use Rattle.rg_home.specs.Pages.{made, row_or_empty};
ghost use Rattle.rg_home.specs.Plan.{is_ended, swept};
ghost use Rattle.rg_home.specs.Slot.{Free};
ghost use Rattle.rg_home.specs.Slots.{capacity_of, is_free};
ghost use Rattle.rg_page.specs.Bare.{bare, numbers_of};
ghost use Rattle.rg_page.specs.Laid.{whole_slot, IsArea};
ghost use Rattle.rg_page.specs.Shown.{shown, IsHeld, IsSpelled};
ghost use Rattle.rg_base.specs.declared.row.Row.{Row as TableRow};

use crate::slot::Slot;
use rg_base::part::SlotOp;
use rg_base::place::Place;
use rg_base::tran::Tran;
use std::marker::Model;

/// The kinds of slots.
#[derive(Clone, Copy, Debug, PartialEq, Eq)]
pub enum Kind {
    Free,
    Row,
    Pointer,
    Over,
    DeadRow,
    DeadPointer,
    DeadOver,
}

/// What plans read of a slot: its kind, the capacity of its area, and the owner of a dead one. It
/// is seen as the slot without its row and its place.
#[derive(Debug, Drop)]
pub struct Header {
    kind: Kind,
    capacity: u16,
    owner: u32,
}

impl Model for Header {
    ghost use Rattle.rg_home.specs.Slot.{Slot};

    ghost Value = { Slot };

    ghost use Rattle.rg_page.specs.Bare.{header_slot};

    ghost view = { λ h. header_slot h.kind h.capacity h.owner };
}

fn has(live: &[Tran], owner: u32) -> bool
    ensures { result ≡ list_any (λ t. t == owner) (numbers_of live.now) }
{
    live.iter().map(|t| t.0).any(|number| number == owner)
}

impl Header {
    pub fn free() -> Header
        ensures { result ≡ Free }
    {
        Header {
            kind: Kind::Free,
            capacity: 0,
            owner: 0,
        }
    }

    pub fn copy(&self) -> Header
        ensures { result ≡ self.now }
    {
        Header {
            kind: self.kind,
            capacity: self.capacity,
            owner: self.owner,
        }
    }

    /// Of the slot that a part makes, where its record is of this transaction.
    pub fn of(op: SlotOp, tran: Tran) -> Header
        ensures made { (row : TableRow) → result ≡ bare (made tran.0 row op) }
        ensures bare { bare result ≡ result }
    {
        let (kind, capacity) = match op {
            SlotOp::Free => (Kind::Free, 0),
            SlotOp::Row { capacity } => (Kind::Row, capacity),
            SlotOp::Pointer { capacity, .. } => (Kind::Pointer, capacity),
            SlotOp::Over { capacity, .. } => (Kind::Over, capacity),
            SlotOp::DeadRow { capacity } => (Kind::DeadRow, capacity),
            SlotOp::DeadPointer { capacity, .. } => (Kind::DeadPointer, capacity),
            SlotOp::DeadOver { capacity, .. } => (Kind::DeadOver, capacity),
        };
        Header {
            kind,
            capacity,
            owner: tran.0,
        }
    }

    /// The slot, where it names this place and these are the bytes of its row.
    pub fn slot<'a>(&self, other: Place, bytes: &'a [u8]) -> Slot<'a>
        ensures shown { shown result ≡ whole_slot self.now other bytes.now }
        ensures spelled { IsArea self.now bytes.now → IsSpelled result }
        ensures held { IsArea self.now bytes.now → IsHeld result }
    {
        let capacity = self.capacity;
        let owner = Tran(self.owner);
        match self.kind {
            Kind::Free => Slot::Free,
            Kind::Row => Slot::Row { capacity, bytes },
            Kind::Pointer => Slot::Pointer { capacity, other },
            Kind::Over => Slot::Over {
                capacity,
                bytes,
                other,
            },
            Kind::DeadRow => Slot::DeadRow { capacity, owner },
            Kind::DeadPointer => Slot::DeadPointer {
                capacity,
                other,
                owner,
            },
            Kind::DeadOver => Slot::DeadOver {
                capacity,
                other,
                owner,
            },
        }
    }

    /// The capacity of its area.
    pub fn capacity(&self) -> u16
        ensures { result ≡ capacity_of self.now }
    {
        if self.is_free() { 0 } else { self.capacity }
    }

    pub fn is_free(&self) -> bool
        ensures { result ≡ is_free self.now }
    {
        match self.kind {
            Kind::Free => true,
            _ => false,
        }
    }

    /// Whether it is a dead slot whose owner has ended.
    pub fn is_ended(&self, live: &[Tran]) -> bool
        ensures { result ≡ is_ended (numbers_of live.now) self.now }
    {
        match self.kind {
            Kind::Free | Kind::Row | Kind::Pointer | Kind::Over => false,
            Kind::DeadRow | Kind::DeadPointer | Kind::DeadOver => !has(live, self.owner),
        }
    }

    /// Whether the slot is Free once its page is purged.
    pub fn goes(&self, live: &[Tran]) -> bool
        ensures { result ≡ is_free (swept (numbers_of live.now) self.now) }
    {
        match self.kind {
            Kind::Free => true,
            Kind::Row | Kind::Pointer | Kind::Over => false,
            Kind::DeadRow | Kind::DeadPointer | Kind::DeadOver => !has(live, self.owner),
        }
    }
}
