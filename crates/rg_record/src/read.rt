// 1. A record is read from left to right, as `record_at` of the definitions reads.
// 2. What was read is a record only if it has a spelling, and that spelling is these very bytes. So
//    no test of a single byte is needed, and none can be forgotten.
ghost use Rattle.std.specs.Prelude.{◌≡◌, IfOk, IfErr, length};
ghost use Rattle.rg_record.specs.Fits.{Fits};
ghost use Rattle.rg_record.specs.Reading.{Gives, Refuses, refusal, code_at, number_at, place_at};
ghost use Rattle.rg_record.specs.Reading.{wide_at, op_at, part_at, parts_at, parts_field_at};
ghost use Rattle.rg_record.specs.Reading.{row_in, row_field_at, change_at, undo_at, purge_at};
ghost use Rattle.rg_record.specs.Reading.{switch_at, kind_at, record_at};
ghost use Rattle.rg_record.specs.Spelled.{IsRecord};
ghost use Rattle.rg_record.specs.Spelling.{record_bytes};
ghost use Rattle.rg_record.specs.Told.{IsNone};

use crate::buffer::Buffer;
use crate::fault::RecordFault;
use crate::fits::row_fits;
use crate::record::{Kind, Record};
use byteorder::{BigEndian, ByteOrder};
use rg_base::note::note;
use rg_base::part::{Part, Parts, SlotOp};
use rg_base::place::Place;
use rg_base::position::Position;
use rg_base::row::Row;
use rg_base::row_bytes::{RowFault, read_row};
use rg_base::tran::Tran;
use std::alloc::Global;

/// The first byte, and the bytes after it.
pub fn code_at(bytes: &[u8]) -> Result<(u8, &[u8]), RecordFault>
    ensures { Gives (λ x. (x.0, x.1.now)) result (code_at bytes.now) }
{
    match bytes {
        [] => Err(RecordFault::NotARecord),
        [code, rest @ ..] => Ok((*code, rest)),
    }
}

/// The number in the first 2 bytes, the highest first, and the bytes after it.
#[tactic(auto, unfolding(crate::specs::Reading::number_at))]
pub fn u16_at(bytes: &[u8]) -> Result<(u16, &[u8]), RecordFault>
    ensures { Gives (λ x. (x.0, x.1.now)) result (number_at 2 bytes.now) }
{
    if bytes.len() < 2 {
        return Err(RecordFault::NotARecord);
    }
    let number = BigEndian::read_u16(bytes);
    let (_, rest) = bytes.split_at(2);
    Ok((number, rest))
}

/// The same of 4 bytes.
#[tactic(auto, unfolding(crate::specs::Reading::number_at))]
pub fn u32_at(bytes: &[u8]) -> Result<(u32, &[u8]), RecordFault>
    ensures { Gives (λ x. (x.0, x.1.now)) result (number_at 4 bytes.now) }
{
    if bytes.len() < 4 {
        return Err(RecordFault::NotARecord);
    }
    let number = BigEndian::read_u32(bytes);
    let (_, rest) = bytes.split_at(4);
    Ok((number, rest))
}

/// The same of 8 bytes.
#[tactic(auto, unfolding(crate::specs::Reading::number_at))]
pub fn u64_at(bytes: &[u8]) -> Result<(u64, &[u8]), RecordFault>
    ensures { Gives (λ x. (x.0, x.1.now)) result (number_at 8 bytes.now) }
{
    if bytes.len() < 8 {
        return Err(RecordFault::NotARecord);
    }
    let number = BigEndian::read_u64(bytes);
    let (_, rest) = bytes.split_at(8);
    Ok((number, rest))
}

/// A place in the first 6 bytes, and the bytes after it.
#[tactic(auto, unfolding(crate::specs::Reading::place_at))]
pub fn place_at(bytes: &[u8]) -> Result<(Place, &[u8]), RecordFault>
    ensures { Gives (λ x. (x.0, x.1.now)) result (place_at bytes.now) }
{
    let (page, rest) = u32_at(bytes)?;
    let (slot, rest) = u16_at(rest)?;
    Ok((Place { page, slot }, rest))
}

// An operation that has a place.
#[tactic(auto, unfolding(crate::specs::Reading::wide_at))]
fn wide_at(code: u8, capacity: u16, bytes: &[u8]) -> Result<(SlotOp, &[u8]), RecordFault>
    ensures { Gives (λ x. (x.0, x.1.now)) result (wide_at code capacity bytes.now) }
{
    let (other, rest) = place_at(bytes)?;
    if code == 2 {
        return Ok((SlotOp::Pointer { capacity, other }, rest));
    }
    if code == 3 {
        return Ok((SlotOp::Over { capacity, other }, rest));
    }
    if code == 5 {
        return Ok((SlotOp::DeadPointer { capacity, other }, rest));
    }
    if code == 6 {
        return Ok((SlotOp::DeadOver { capacity, other }, rest));
    }
    Err(RecordFault::NotARecord)
}

#[tactic(auto, unfolding(crate::specs::Reading::op_at))]
fn op_at(bytes: &[u8]) -> Result<(SlotOp, &[u8]), RecordFault>
    ensures { Gives (λ x. (x.0, x.1.now)) result (op_at bytes.now) }
{
    let (code, rest) = code_at(bytes)?;
    if code == 0 {
        return Ok((SlotOp::Free, rest));
    }
    let (capacity, rest) = u16_at(rest)?;
    if code == 1 {
        return Ok((SlotOp::Row { capacity }, rest));
    }
    if code == 4 {
        return Ok((SlotOp::DeadRow { capacity }, rest));
    }
    wide_at(code, capacity, rest)
}

#[tactic(auto, unfolding(crate::specs::Reading::part_at))]
fn part_at(bytes: &[u8]) -> Result<(Part, &[u8]), RecordFault>
    ensures { Gives (λ x. (x.0, x.1.now)) result (part_at bytes.now) }
{
    let (page, rest) = u32_at(bytes)?;
    let (slot, rest) = u16_at(rest)?;
    let (op, rest) = op_at(rest)?;
    Ok((Part { page, slot, op }, rest))
}

fn parts_at(alloc: Global, count: u8, bytes: &[u8]) -> Result<(Vec<Part>, &[u8]), RecordFault>
    ensures { Gives (λ x. (x.0.items, x.1.now)) result (parts_at count bytes.now) }
{
    let mut parts = Vec::new(alloc);
    let mut rest = bytes;
    for _ in 0..count {
        let (part, after) = part_at(rest)?;
        parts.push(part)?;
        rest = after;
    }
    Ok((parts, rest))
}

// The number of parts, and the parts.
#[tactic(auto, unfolding(crate::specs::Reading::parts_field_at))]
fn parts_field_at(alloc: Global, bytes: &[u8]) -> Result<(Parts, &[u8]), RecordFault>
    ensures { Gives (λ x. (x.0, x.1.now)) result (parts_field_at bytes.now) }
{
    let (count, rest) = code_at(bytes)?;
    let (parts, rest) = parts_at(alloc, count, rest)?;
    Ok((Parts::new(parts), rest))
}

// What a fault of a row is to a record.
fn refusal(fault: RowFault) -> RecordFault
    ensures { result ≡ refusal fault }
{
    match fault {
        RowFault::NoMemory => RecordFault::NoMemory,
        RowFault::Short | RowFault::Length | RowFault::Byte { .. } => RecordFault::NotARecord,
    }
}

/// The row that these bytes are. No bytes say that there is none.
#[tactic(auto, unfolding(crate::specs::Reading::row_in))]
pub fn row_in(alloc: Global, bytes: &[u8]) -> Result<Option<Row>, RecordFault>
    ensures { Gives (λ x. x) result (row_in bytes.now) }
{
    if bytes.is_empty() {
        return Ok(None);
    }
    match read_row(alloc, bytes) {
        Ok(row) => {
            row_fits(&row);
            Ok(Some(row))
        }
        Err(fault) => Err(refusal(fault)),
    }
}

#[tactic(auto, unfolding(crate::specs::Reading::row_field_at))]
fn row_field_at(alloc: Global, bytes: &[u8]) -> Result<(Option<Row>, &[u8]), RecordFault>
    ensures { Gives (λ x. (x.0, x.1.now)) result (row_field_at bytes.now) }
{
    let (size, rest) = u16_at(bytes)?;
    let size = size as usize;
    if rest.len() < size {
        return Err(RecordFault::NotARecord);
    }
    let (front, rest) = rest.split_at(size);
    let row = row_in(alloc, front)?;
    Ok((row, rest))
}

#[tactic(auto, unfolding(crate::specs::Reading::change_at))]
fn change_at(alloc: Global, bytes: &[u8]) -> Result<Kind, RecordFault>
    ensures { Gives (λ x. x) result (change_at bytes.now) }
{
    let (home, rest) = place_at(bytes)?;
    let (before, rest) = row_field_at(alloc, rest)?;
    let (after, rest) = row_field_at(alloc, rest)?;
    let (parts, _) = parts_field_at(alloc, rest)?;
    Ok(Kind::Change {
        home,
        before,
        after,
        parts,
    })
}

#[tactic(auto, unfolding(crate::specs::Reading::undo_at))]
fn undo_at(alloc: Global, bytes: &[u8]) -> Result<Kind, RecordFault>
    ensures { Gives (λ x. x) result (undo_at bytes.now) }
{
    let (next, rest) = u64_at(bytes)?;
    let (home, rest) = place_at(rest)?;
    let (after, rest) = row_field_at(alloc, rest)?;
    let (parts, _) = parts_field_at(alloc, rest)?;
    Ok(Kind::Undo {
        next: Position(next),
        home,
        after,
        parts,
    })
}

#[tactic(auto, unfolding(crate::specs::Reading::purge_at))]
fn purge_at(alloc: Global, bytes: &[u8]) -> Result<Kind, RecordFault>
    ensures { Gives (λ x. x) result (purge_at bytes.now) }
{
    let (parts, _) = parts_field_at(alloc, bytes)?;
    Ok(Kind::Purge { parts })
}

#[tactic(auto, unfolding(crate::specs::Reading::switch_at))]
fn switch_at(bytes: &[u8]) -> Result<Kind, RecordFault>
    ensures { Gives (λ x. x) result (switch_at bytes.now) }
{
    let (copy, rest) = code_at(bytes)?;
    let (pages, _) = u32_at(rest)?;
    Ok(Kind::Switch { copy, pages })
}

#[tactic(auto, unfolding(crate::specs::Reading::kind_at))]
fn kind_at(alloc: Global, bytes: &[u8]) -> Result<Kind, RecordFault>
    ensures { Gives (λ x. x) result (kind_at bytes.now) }
{
    let (code, rest) = code_at(bytes)?;
    match code {
        1 => change_at(alloc, rest),
        2 => undo_at(alloc, rest),
        3 => Ok(Kind::Commit),
        4 => Ok(Kind::RolledBack),
        5 => purge_at(alloc, rest),
        6 => switch_at(rest),
        _ => Err(RecordFault::NotARecord),
    }
}

#[tactic(auto, unfolding(crate::specs::Reading::record_at))]
fn record_at(alloc: Global, bytes: &[u8]) -> Result<Record, RecordFault>
    ensures { Gives (λ x. x) result (record_at bytes.now) }
{
    let (position, rest) = u64_at(bytes)?;
    let (tran, rest) = u32_at(rest)?;
    let (back, rest) = u64_at(rest)?;
    let kind = kind_at(alloc, rest)?;
    Ok(Record {
        position: Position(position),
        tran: Tran(tran),
        back: Position(back),
        kind,
    })
}

/// The record that these bytes spell.
pub fn read_record(alloc: Global, bytes: &[u8]) -> Result<Record, RecordFault>
    ensures spelled { IfOk result IsRecord }
    ensures bytes { IfOk result (λ entry. record_bytes entry ≡ bytes.now) }
    ensures fits { IfOk result Fits }
    ensures fault { IfErr result (IsNone bytes.now) }
{
    let entry = record_at(alloc, bytes)?;
    if !entry.is_spelled() {
        return Err(RecordFault::NotARecord);
    }
    let mut again = Buffer::new();
    note(&entry.size());
    entry.add_to(&mut again);
    if again.as_slice() != bytes {
        return Err(RecordFault::NotARecord);
    }
    entry.fits();
    Ok(entry)
}
