// The size of a record is the number of its bytes, found without writing them.
ghost use Rattle.std.specs.Prelude.{◌≡◌, ◌≤◌, ◌+◌, ◌*◌, length};
ghost use Rattle.rg_base.specs.declared.place.Place.{Place};
ghost use Rattle.rg_record.specs.Spelled.{IsFew, IsKind, IsRecord, AreFrees, greatest};
ghost use Rattle.rg_record.specs.Spelling.{op_size, parts_size, row_field_size, kind_size};
ghost use Rattle.rg_record.specs.Spelling.{record_bytes, record_size};
ghost use Rattle.rg_record.specs.declared.record.Kind.TheVariants as kinds;

use crate::record::{Kind, Record};
use rg_base::part::{Part, Parts, SlotOp};
use rg_base::row::Row;

// The bytes of an operation.
#[tactic(auto, unfolding(crate::specs::Spelling::op_size))]
fn op_size(op: SlotOp) -> u32
    ensures size { result ≡ op_size op }
    ensures high { result ≤ 9 }
{
    match op {
        SlotOp::Free => 1,
        SlotOp::Row { .. } | SlotOp::DeadRow { .. } => 3,
        SlotOp::Pointer { .. }
        | SlotOp::Over { .. }
        | SlotOp::DeadPointer { .. }
        | SlotOp::DeadOver { .. } => 9,
    }
}

// The bytes of parts.
fn parts_size(parts: &[Part]) -> u32
    requires { length parts.now ≤ 225 }
    ensures size { result ≡ parts_size parts.now }
    ensures high { result ≤ 15 * length parts.now }
    ensures frees { AreFrees parts.now → result ≡ 7 * length parts.now }
{
    let mut size = 0;
    for part in parts {
        size += 6 + op_size(part.op);
    }
    size
}

// The bytes of a row behind its length.
#[tactic(auto, unfolding(crate::specs::Spelling::row_field_size))]
fn row_field_size(row: &Option<Row>) -> u32
    ensures size { result ≡ row_field_size row.now }
    ensures high { result ≤ 828 }
{
    match row {
        None => 2,
        Some(row) => 2 + row.size() as u32,
    }
}

/// The bytes of the kind Change with these rows and parts.
#[tactic(auto, unfolding(crate::specs::Spelling::kind_size))]
pub fn change_size(before: &Option<Row>, after: &Option<Row>, parts: &Parts) -> u32
    requires { IsFew parts.now }
    ensures size { (home : Place) → result
        ≡ kind_size (kinds.Change home before.now after.now parts.now) }
    ensures low { 8 ≤ result }
    ensures high { result ≤ 1709 }
{
    8 + row_field_size(before) + row_field_size(after) + parts_size(parts.as_slice())
}

/// The bytes of the kind Purge with these parts.
#[tactic(auto, unfolding(crate::specs::Spelling::kind_size))]
pub fn purge_size(parts: &Parts) -> u32
    requires few { length parts.now ≤ 225 }
    requires frees { AreFrees parts.now }
    ensures size { result ≡ kind_size (kinds.Purge parts.now) }
    ensures low { 2 ≤ result }
    ensures high { result ≤ 1577 }
{
    2 + parts_size(parts.as_slice())
}

// The bytes of a kind with what it has.
#[tactic(auto, unfolding(crate::specs::Spelling::kind_size))]
fn kind_size(kind: &Kind) -> u32
    requires { IsKind kind.now }
    ensures size { result ≡ kind_size kind.now }
    ensures low { 1 ≤ result }
    ensures high { 20 + result ≤ greatest kind.now }
{
    match kind {
        Kind::Change {
            before,
            after,
            parts,
            ..
        } => change_size(before, after, parts),
        Kind::Undo { after, parts, .. } => {
            16 + row_field_size(after) + parts_size(parts.as_slice())
        }
        Kind::Commit | Kind::RolledBack => 1,
        Kind::Purge { parts } => purge_size(parts),
        Kind::Switch { .. } => 6,
    }
}

impl Record {
    /// The number of its bytes, without memory.
    #[tactic(auto, using(crate::proofs::Sizes::record_sizes), unfolding(crate::specs::Spelling::record_size))]
    pub fn size(&self) -> u32
        requires { IsRecord self.now }
        ensures size { result ≡ record_size self.now }
        ensures bytes { length (record_bytes self.now) ≡ record_size self.now }
        ensures low { 21 ≤ result }
        ensures high { result ≤ greatest self.now.kind }
    {
        20 + kind_size(&self.kind)
    }
}
