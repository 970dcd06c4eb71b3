// Writing a page: its head, its slots in their order, zeros, and the directory.
//
// 1. A page without slots and with position 0 is all zeros.
// 2. The directory is written from the last slot down, since the entry of slot 0 stands last.
ghost use Rattle.std.specs.Prelude.{◌≡◌, ◌≤◌, ◌<◌, ◌^◌, ◌+◌, ◌*◌, ◌++◌, [], length};
ghost use Rattle.std.specs.List.{AllByRecursion};
ghost use Rattle.rg_base.specs.RowBytes.{row_of, row_size};
ghost use Rattle.rg_home.specs.Slots.{capacity_of};
ghost use Rattle.rg_base.specs.Values.{FitsRow};
ghost use Rattle.rg_record.specs.Fits.{FitsPlace};
ghost use Rattle.rg_page.specs.Bytes.Content.{FitsPage, FitsSlot};
ghost use Rattle.rg_page.specs.Bytes.PageBytes.{directory, fields_bytes, filled_bytes, is_blank};
ghost use Rattle.rg_page.specs.Bytes.PageBytes.{page_bytes, slot_bytes, slots_bytes, slots_size};
ghost use Rattle.rg_page.specs.Bare.{nowhere};
ghost use Rattle.rg_page.specs.Shown.{shown, IsHeld, IsSpelled, SpellsRow};

use crate::bytes::entry::Head;
use crate::bytes::write::{Fields, add_head, add_slot, add_zeros};
use crate::page::Page;
use crate::slot::Slot;
use rg_base::note::note;
use rg_base::place::Place;
use rg_record::buffer::{Buffer, PAGE_SIZE};

// Says of bytes that spell a row, and that an area of this capacity holds, that they may stand in
// it.
fn row_fits(_capacity: u16, _bytes: &[u8])
    requires spelled { SpellsRow _bytes.now }
    requires held { length _bytes.now ≤ _capacity }
    ensures capacity { _capacity < 2 ^ 16 }
    ensures row { FitsRow (row_of _bytes.now) }
    ensures within { row_size (row_of _bytes.now) ≤ _capacity }
{}

fn place_fits(_place: Place)
    ensures { FitsPlace _place }
{}

// The fields of a slot that has neither an owner nor a place.
fn fields(kind: u8, capacity: u16, row: &[u8]) -> Fields<'_>
    ensures kind { result.kind ≡ kind }
    ensures capacity { result.capacity ≡ capacity }
    ensures owner { result.owner ≡ 0 }
    ensures other { result.other ≡ nowhere }
    ensures row { result.row.now ≡ row.now }
{
    Fields {
        kind,
        capacity,
        owner: 0,
        other: Place { page: 0, slot: 0 },
        row,
    }
}

// The fields of a slot.
fn fields_of(slot: Slot<'_>) -> Fields<'_>
    requires spelled { IsSpelled slot }
    requires held { IsHeld slot }
    ensures bytes { fields_bytes result.kind result.capacity result.owner result.other
        result.row.now ≡ slot_bytes (shown slot.entry) }
    ensures capacity { result.capacity ≡ capacity_of (shown slot.entry) }
    ensures held { length result.row.now ≤ result.capacity }
    ensures fits { FitsSlot (shown slot.entry) }
{
    match slot {
        Slot::Free => fields(0, 0, &[]),
        Slot::Row { capacity, bytes } => {
            row_fits(capacity, bytes);
            fields(1, capacity, bytes)
        }
        Slot::Pointer { capacity, other } => Fields {
            other,
            ..fields(2, capacity, &[])
        },
        Slot::Over {
            capacity,
            bytes,
            other,
        } => {
            row_fits(capacity, bytes);
            place_fits(other);
            Fields {
                other,
                ..fields(3, capacity, bytes)
            }
        }
        Slot::DeadRow { capacity, owner } => Fields {
            owner: owner.0,
            ..fields(4, capacity, &[])
        },
        Slot::DeadPointer {
            capacity,
            other,
            owner,
        } => Fields {
            other,
            owner: owner.0,
            ..fields(5, capacity, &[])
        },
        Slot::DeadOver {
            capacity,
            other,
            owner,
        } => Fields {
            other,
            owner: owner.0,
            ..fields(6, capacity, &[])
        },
    }
}

impl Page {
    // Adds its slots.
    fn add_slots(&self, page: &mut Buffer)
        requires { length page.old ≡ 32 }
        ensures bytes { page.new ≡ page.old ++ slots_bytes self.now.slots }
        ensures len { length page.new ≡ 32 + slots_size self.now.slots }
        ensures fits { AllByRecursion FitsSlot self.now.slots }
    {
        for i in 0..self.slot_count() {
            add_slot(page, fields_of(self.slot(i)));
        }
    }

    // Adds the directory of its slots, which end before `end`.
    fn add_directory(&self, page: &mut Buffer, end: u16)
        requires end { end ≡ 32 + slots_size self.now.slots }
        requires room { length page.old + 2 * length self.now.slots ≤ 4096 }
        ensures bytes { page.new ≡ page.old ++ directory 32 self.now.slots }
        ensures len { length page.new ≡ length page.old + 2 * length self.now.slots }
    {
        let mut at = end;
        let mut i = self.slot_count();
        while 0 < i {
            i -= 1;
            at -= 16 + fields_of(self.slot(i)).capacity;
            page.add_u16(at);
        }
    }

    // Whether it has no slots and no record has changed it.
    fn is_blank(&self) -> bool
        ensures { result ≡ is_blank self.now }
    {
        self.position().0 == 0 && self.slot_count() == 0
    }

    // Says that its numbers are of their types.
    fn numbers_fit(&self)
        ensures copy { self.now.copy < 256 }
        ensures number { self.now.number < 2 ^ 32 }
        ensures position { self.now.position < 2 ^ 64 }
    {
        note(&self.copy().number());
        note(&self.number());
        note(&self.position().0);
    }

    // Adds its head, its slots, zeros and the directory.
    fn add_all(&self, page: &mut Buffer)
        requires { page.old ≡ [] }
        ensures bytes { page.new ≡ filled_bytes self.now }
        ensures len { length page.new ≡ 4096 }
        ensures fits { AllByRecursion FitsSlot self.now.slots }
    {
        let count = self.slot_count();
        let free = self.free();
        let copy = self.copy().number();
        let head = Head {
            copy,
            count,
            number: self.number(),
            position: self.position().0,
        };
        let end = 4096 - free - 2 * count;
        add_head(page, head, end);
        self.add_slots(page);
        add_zeros(page, free as usize);
        self.add_directory(page, end);
    }

    /// Writes its bytes. It takes no memory.
    pub fn write_into(&self, into: &mut [u8; PAGE_SIZE])
        ensures bytes { into.new ≡ page_bytes self.now }
        ensures fits { FitsPage self.now }
    {
        self.numbers_fit();
        note(&self.slot_count());
        let mut page = Buffer::new();
        if !self.is_blank() {
            self.add_all(&mut page);
        }
        *into = page.into_page();
    }
}
