// A record is written field by field, each at the end of the one before it.
ghost use Rattle.std.specs.Prelude.{◌≡◌, ◌≤◌, ◌+◌, ◌++◌, ◌∷◌, IfOk, length};
ghost use Rattle.rg_base.specs.Field.{field};
ghost use Rattle.rg_record.specs.Spelled.{IsKind, IsRecord};
ghost use Rattle.rg_record.specs.Spelling.{place_bytes, op_bytes, op_size, part_bytes, part_size};
ghost use Rattle.rg_record.specs.Spelling.{parts_field, parts_size, row_field, row_field_size};
ghost use Rattle.rg_record.specs.Spelling.{kind_bytes, kind_size, record_bytes, record_size};

use crate::buffer::Buffer;
use crate::record::{Kind, Record};
use rg_base::bytes::Bytes;
use rg_base::no_memory::NoMemory;
use rg_base::note::note;
use rg_base::part::{Part, SlotOp};
use rg_base::place::Place;
use rg_base::row::Row;
use std::alloc::Global;

/// Adds a place.
pub fn add_place(out: &mut Buffer, place: Place)
    requires { length out.old + 6 ≤ 4096 }
    ensures bytes { out.new ≡ out.old ++ place_bytes place }
    ensures len { length out.new ≡ length out.old + 6 }
{
    out.add_u32(place.page);
    out.add_u16(place.slot);
}

// A code and a capacity.
fn add_narrow(out: &mut Buffer, code: u8, capacity: u16)
    requires { length out.old + 3 ≤ 4096 }
    ensures bytes { out.new ≡ out.old ++ code ∷ field 2 capacity }
    ensures len { length out.new ≡ length out.old + 3 }
{
    out.add_u8(code);
    out.add_u16(capacity);
}

// A code, a capacity and a place.
fn add_wide(out: &mut Buffer, code: u8, capacity: u16, other: Place)
    requires { length out.old + 9 ≤ 4096 }
    ensures bytes { out.new ≡ out.old ++ code ∷ (field 2 capacity ++ place_bytes other) }
    ensures len { length out.new ≡ length out.old + 9 }
{
    add_narrow(out, code, capacity);
    add_place(out, other);
}

#[tactic(auto, unfolding(crate::specs::Spelling::op_bytes, crate::specs::Spelling::op_size))]
fn add_op(out: &mut Buffer, op: SlotOp)
    requires { length out.old + op_size op ≤ 4096 }
    ensures bytes { out.new ≡ out.old ++ op_bytes op }
    ensures len { length out.new ≡ length out.old + op_size op }
{
    match op {
        SlotOp::Free => out.add_u8(0),
        SlotOp::Row { capacity } => add_narrow(out, 1, capacity),
        SlotOp::Pointer { capacity, other } => add_wide(out, 2, capacity, other),
        SlotOp::Over { capacity, other } => add_wide(out, 3, capacity, other),
        SlotOp::DeadRow { capacity } => add_narrow(out, 4, capacity),
        SlotOp::DeadPointer { capacity, other } => add_wide(out, 5, capacity, other),
        SlotOp::DeadOver { capacity, other } => add_wide(out, 6, capacity, other),
    }
}

fn add_part(out: &mut Buffer, part: &Part)
    requires { length out.old + part_size part.now ≤ 4096 }
    ensures bytes { out.new ≡ out.old ++ part_bytes part.now }
    ensures len { length out.new ≡ length out.old + part_size part.now }
{
    out.add_u32(part.page);
    out.add_u16(part.slot);
    add_op(out, part.op);
}

// The number of parts, and the parts.
fn add_parts(out: &mut Buffer, parts: &[Part])
    requires few { length parts.now ≤ 225 }
    requires room { length out.old + (1 + parts_size parts.now) ≤ 4096 }
    ensures bytes { out.new ≡ out.old ++ parts_field parts.now }
    ensures len { length out.new ≡ length out.old + (1 + parts_size parts.now) }
{
    out.add_u8(parts.len() as u8);
    for part in parts {
        add_part(out, part);
    }
}

// The length of a row and the row, or the length 0.
#[tactic(auto, unfolding(crate::specs::Spelling::row_field, crate::specs::Spelling::row_field_size))]
fn add_row_field(out: &mut Buffer, row: &Option<Row>)
    requires { length out.old + row_field_size row.now ≤ 4096 }
    ensures bytes { out.new ≡ out.old ++ row_field row.now }
    ensures len { length out.new ≡ length out.old + row_field_size row.now }
{
    match row {
        None => out.add_u16(0),
        Some(row) => {
            out.add_u16(row.size());
            out.add_row(row);
        }
    }
}

// The code of the kind, and what the kind has.
#[tactic(auto, unfolding(crate::specs::Spelling::kind_bytes, crate::specs::Spelling::kind_size))]
fn add_kind(out: &mut Buffer, kind: &Kind)
    requires spelled { IsKind kind.now }
    requires room { length out.old + kind_size kind.now ≤ 4096 }
    ensures bytes { out.new ≡ out.old ++ kind_bytes kind.now }
    ensures len { length out.new ≡ length out.old + kind_size kind.now }
{
    match kind {
        Kind::Change {
            home,
            before,
            after,
            parts,
        } => {
            out.add_u8(1);
            add_place(out, *home);
            add_row_field(out, before);
            add_row_field(out, after);
            add_parts(out, parts.as_slice());
        }
        Kind::Undo {
            next,
            home,
            after,
            parts,
        } => {
            out.add_u8(2);
            out.add_u64(next.0);
            add_place(out, *home);
            add_row_field(out, after);
            add_parts(out, parts.as_slice());
        }
        Kind::Commit => out.add_u8(3),
        Kind::RolledBack => out.add_u8(4),
        Kind::Purge { parts } => {
            out.add_u8(5);
            add_parts(out, parts.as_slice());
        }
        Kind::Switch { copy, pages } => {
            out.add_u8(6);
            out.add_u8(*copy);
            out.add_u32(*pages);
        }
    }
}

impl Record {
    /// Adds its bytes at the end.
    #[tactic(auto, unfolding(crate::specs::Spelling::record_bytes, crate::specs::Spelling::record_size))]
    pub fn add_to(&self, out: &mut Buffer)
        requires spelled { IsRecord self.now }
        requires room { length out.old + record_size self.now ≤ 4096 }
        ensures bytes { out.new ≡ out.old ++ record_bytes self.now }
        ensures len { length out.new ≡ length out.old + record_size self.now }
    {
        out.add_u64(self.position.0);
        out.add_u32(self.tran.0);
        out.add_u64(self.back.0);
        add_kind(out, &self.kind);
    }
}

/// The bytes of a record.
pub fn write_record(alloc: Global, entry: &Record) -> Result<Bytes, NoMemory>
    requires { IsRecord entry.now }
    ensures { IfOk result (λ bytes. bytes ≡ record_bytes entry.now) }
{
    let mut out = Buffer::new();
    note(&entry.size());
    entry.add_to(&mut out);
    Ok(Bytes::new(out.as_slice().to_vec(alloc)?))
}
