// Parts: what a record does to slots.
//
// 1. A part sets one slot of one page. The parts of a record are applied in their order.
// 2. A part has no row and no owner of its own: both are the record's.
ghost use Rattle.std.specs.Prelude.{◌≡◌};

use crate::place::Place;
use std::marker::Model;

/// What a part makes of a slot. `capacity` is the bytes of its area; `other` is the Over area that
/// a pointer names, or the home that an Over area names. The row of a Row or an Over is that of the
/// record that the part belongs to, and the owner of a dead slot is the record's transaction.
#[derive(Clone, Copy, Debug, PartialEq, Eq)]
pub enum SlotOp {
    Free,
    Row { capacity: u16 },
    Pointer { capacity: u16, other: Place },
    Over { capacity: u16, other: Place },
    DeadRow { capacity: u16 },
    DeadPointer { capacity: u16, other: Place },
    DeadOver { capacity: u16, other: Place },
}

/// One part of a record: it sets one slot of one page. Pages are numbered from 1, slots from 0.
#[derive(Clone, Copy, Debug, PartialEq, Eq)]
pub struct Part {
    pub page: u32,
    pub slot: u16,
    pub op: SlotOp,
}

/// Parts in the order in which they are applied, seen as a list.
#[derive(Debug, Drop)]
pub struct Parts {
    parts: Vec<Part>,
}

impl Model for Parts {
    ghost use Rattle.std.specs.Prelude.{List};
    ghost use Rattle.rg_base.specs.declared.part.Part.{Part};

    ghost Value = { List Part };

    ghost view = { λ p. p.parts.items };
}

impl Parts {
    pub fn new(parts: Vec<Part>) -> Parts
        ensures { result ≡ parts.items }
    {
        Parts { parts }
    }

    pub fn as_slice(&self) -> &[Part]
        ensures { result.now ≡ self.now }
    {
        self.parts.as_slice()
    }

    /// The same parts, without memory.
    pub fn into_vec(self) -> Vec<Part>
        ensures { result.items ≡ self }
    {
        let Parts { parts } = self;
        parts
    }
}
