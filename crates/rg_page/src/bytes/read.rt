// Reading the head and the slots of a page.
//
// 1. Each is read from left to right, as the definitions read.
// 2. Bytes that are read so need not be a spelling: what a field may not have is not looked at. The
//    page that was read is written again and compared, so no test of a single byte is needed.
ghost use Rattle.std.specs.Prelude.{◌≡◌};
ghost use Rattle.rg_page.specs.Bytes.Reading.{Gives, area_at, head_at, op_of, past, slot_at};

use crate::bytes::entry::{Entry, Head};
use crate::bytes::fault::PageFault;
use rg_base::part::SlotOp;
use rg_base::place::Place;
use rg_base::tran::Tran;
use rg_record::read::{code_at, place_at, row_in, u16_at, u32_at, u64_at};
use std::alloc::Global;

// The operation that makes a slot of this kind.
fn op_of(kind: u8, capacity: u16, other: Place) -> Result<SlotOp, PageFault>
    ensures { Gives (λ x. x) result (op_of kind capacity other) }
{
    match kind {
        0 => Ok(SlotOp::Free),
        1 => Ok(SlotOp::Row { capacity }),
        2 => Ok(SlotOp::Pointer { capacity, other }),
        3 => Ok(SlotOp::Over { capacity, other }),
        4 => Ok(SlotOp::DeadRow { capacity }),
        5 => Ok(SlotOp::DeadPointer { capacity, other }),
        6 => Ok(SlotOp::DeadOver { capacity, other }),
        _ => Err(PageFault::NotAPage),
    }
}

// The bytes of a row in an area, and the bytes behind the area.
#[tactic(auto, unfolding(crate::specs::Bytes::Reading::area_at))]
fn area_at(capacity: u16, size: u16, bytes: &[u8]) -> Result<(&[u8], &[u8]), PageFault>
    ensures { Gives (λ x. (x.0.now, x.1.now)) result (area_at capacity size bytes.now) }
{
    if bytes.len() < capacity as usize {
        return Err(PageFault::NotAPage);
    }
    if capacity < size {
        return Err(PageFault::NotAPage);
    }
    let (row, _) = bytes.split_at(size as usize);
    let (_, rest) = bytes.split_at(capacity as usize);
    Ok((row, rest))
}

/// The slot in front, and the bytes behind its area.
#[tactic(auto, unfolding(crate::specs::Bytes::Reading::slot_at))]
pub fn slot_at(alloc: Global, bytes: &[u8]) -> Result<(Entry, &[u8]), PageFault>
    ensures { Gives (λ x. (x.0, x.1.now)) result (slot_at bytes.now) }
{
    let (kind, rest) = code_at(bytes)?;
    let (_, rest) = code_at(rest)?;
    let (capacity, rest) = u16_at(rest)?;
    let (size, rest) = u16_at(rest)?;
    let (owner, rest) = u32_at(rest)?;
    let (other, rest) = place_at(rest)?;
    let op = op_of(kind, capacity, other)?;
    let (area, rest) = area_at(capacity, size, rest)?;
    let row = row_in(alloc, area)?;
    Ok((
        Entry {
            op,
            owner: Tran(owner),
            row,
        },
        rest,
    ))
}

// The bytes behind the first n.
#[tactic(auto, unfolding(crate::specs::Bytes::Reading::past))]
fn past(n: usize, bytes: &[u8]) -> Result<&[u8], PageFault>
    ensures { Gives (λ x. x.now) result (past n bytes.now) }
{
    if bytes.len() < n {
        return Err(PageFault::NotAPage);
    }
    let (_, rest) = bytes.split_at(n);
    Ok(rest)
}

/// The head of a page, and the bytes after it.
#[tactic(auto, unfolding(crate::specs::Bytes::Reading::head_at))]
pub fn head_at(bytes: &[u8]) -> Result<(Head, &[u8]), PageFault>
    ensures { Gives (λ x. (x.0, x.1.now)) result (head_at bytes.now) }
{
    let rest = past(4, bytes)?;
    let (copy, rest) = code_at(rest)?;
    let (_, rest) = code_at(rest)?;
    let (count, rest) = u16_at(rest)?;
    let (number, rest) = u32_at(rest)?;
    let (position, rest) = u64_at(rest)?;
    let (_, rest) = u16_at(rest)?;
    let rest = past(10, rest)?;
    Ok((
        Head {
            copy,
            count,
            number,
            position,
        },
        rest,
    ))
}
