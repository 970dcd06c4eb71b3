// Writing the head and the slots of a page, each behind the one before it.
ghost use Rattle.std.specs.Prelude.{◌≡◌, ◌≤◌, ◌+◌, ◌++◌, length, replicate};
ghost use Rattle.rg_page.specs.Bytes.PageBytes.{fields_bytes, head_bytes};

use crate::bytes::entry::Head;
use rg_base::place::Place;
use rg_record::buffer::{Buffer, PAGE_SIZE};
use rg_record::write::add_place;

/// The fields of a slot: what its kind has not is zero, and `row` has the bytes of its row.
#[derive(Clone, Copy, Debug)]
pub struct Fields<'a> {
    pub kind: u8,
    pub capacity: u16,
    pub owner: u32,
    pub other: Place,
    pub row: &'a [u8],
}

/// Adds so many zeros. Most areas are as long as their rows, and take none.
pub fn add_zeros(page: &mut Buffer, count: usize)
    requires { length page.old + count ≤ 4096 }
    ensures bytes { page.new ≡ page.old ++ replicate count 0 }
    ensures len { length page.new ≡ length page.old + count }
{
    if count == 0 {
        return;
    }
    let zeros = [0; PAGE_SIZE];
    page.add(&zeros[..count]);
}

/// Adds a slot and its area.
#[tactic(auto, unfolding(crate::specs::Bytes::PageBytes::fields_bytes))]
pub fn add_slot(page: &mut Buffer, fields: Fields<'_>)
    requires held { length fields.row.now ≤ fields.capacity }
    requires room { length page.old + (16 + fields.capacity) ≤ 4096 }
    ensures bytes { page.new ≡ page.old ++ fields_bytes fields.entry.kind
        fields.entry.capacity fields.entry.owner fields.entry.other fields.entry.row.now }
    ensures len { length page.new ≡ length page.old + (16 + fields.entry.capacity) }
{
    page.add_u8(fields.kind);
    page.add_u8(0);
    page.add_u16(fields.capacity);
    page.add_u16(fields.row.len() as u16);
    page.add_u32(fields.owner);
    add_place(page, fields.other);
    page.add(fields.row);
    add_zeros(page, fields.capacity as usize - fields.row.len());
}

/// Adds the head of a page whose slots end before `end`.
#[tactic(auto, unfolding(crate::specs::Bytes::PageBytes::head_bytes))]
pub fn add_head(page: &mut Buffer, head: Head, end: u16)
    requires { length page.old + 32 ≤ 4096 }
    ensures bytes { page.new ≡ page.old
        ++ head_bytes head.copy head.count head.number head.position end }
    ensures len { length page.new ≡ length page.old + 32 }
{
    page.add(b"RGP1");
    page.add_u8(head.copy);
    page.add_u8(0);
    page.add_u16(head.count);
    page.add_u32(head.number);
    page.add_u64(head.position);
    page.add_u16(end);
    add_zeros(page, 10);
}
