// Reading a page.
//
// 1. 4,096 zeros are the page without slots and with position 0.
// 2. Other bytes are read slot by slot, and each slot is put on the page as a part of a record
//    would put it. So what does not fit is refused.
// 3. What was read is the page only if its spelling is these very bytes. So no test of a single
//    byte is needed, and none can be forgotten.
ghost use Rattle.std.specs.Prelude.{◌≡◌, [], IfOk, IfErr, OnOk};
ghost use Rattle.rg_page.specs.Bytes.Content.{FitsPage};
ghost use Rattle.rg_page.specs.Bytes.PageBytes.{page_bytes};
ghost use Rattle.rg_page.specs.Bytes.Reading.{slot_of};
ghost use Rattle.rg_page.specs.Reading.{FillsPage, FillsSlots, IsNone, IsPut, IsUnput};
ghost use Rattle.rg_page.specs.Reading.{NoContentFills, NoSlotsFill};

use crate::bytes::entry::Entry;
use crate::bytes::fault::PageFault;
use crate::bytes::read::{head_at, slot_at};
use crate::page::Page;
use rg_base::copy::TableCopy;
use rg_base::part::Part;
use rg_base::position::Position;
use rg_record::buffer::PAGE_SIZE;
use std::alloc::Global;

impl Page {
    // Puts a slot that was read at its number.
    fn put(&mut self, i: u16, entry: &Entry) -> Result<(), PageFault>
        ensures ok { OnOk result (IsPut i entry.now self.old self.new) }
        ensures unfit { IfErr result (IsUnput i entry.now self.old) }
    {
        let part = Part {
            page: self.number(),
            slot: i,
            op: entry.op,
        };
        let position = self.position();
        match self.apply(&part, entry.owner, entry.row.as_ref(), position) {
            Ok(()) => Ok(()),
            Err(_) => Err(PageFault::NotAPage),
        }
    }

    // Puts so many slots, which these bytes show, on a page without slots.
    fn put_slots(&mut self, alloc: Global, count: u16, bytes: &[u8]) -> Result<(), PageFault>
        requires { self.old.slots ≡ [] }
        ensures ok { OnOk result (FillsSlots count bytes.now self.old self.new) }
        ensures unfit { IfErr result (NoSlotsFill count bytes.now) }
    {
        let mut rest = bytes;
        for i in 0..count {
            let (entry, after) = slot_at(alloc, rest)?;
            self.put(i, &entry)?;
            rest = after;
        }
        Ok(())
    }

    // Puts on a page without slots what bytes that are not all zeros show.
    fn fill(&mut self, alloc: Global, bytes: &[u8]) -> Result<(), PageFault>
        requires { self.old.slots ≡ [] }
        ensures ok { OnOk result (FillsPage bytes.now self.old self.new) }
        ensures unfit { IfErr result (NoContentFills bytes.now self.old) }
    {
        let (head, rest) = head_at(bytes)?;
        self.put_slots(alloc, head.count, rest)?;
        self.set_position(Position(head.position));
        Ok(())
    }

    /// The page of this copy and number that these bytes spell. It takes the room that any later
    /// content needs.
    pub fn read(
        alloc: Global,
        copy: TableCopy,
        number: u32,
        from: &[u8; PAGE_SIZE],
    ) -> Result<Page, PageFault>
        ensures bytes { IfOk result (λ page. page_bytes page ≡ from.now) }
        ensures copy { IfOk result (λ page. page.copy ≡ copy) }
        ensures number { IfOk result (λ page. page.number ≡ number) }
        ensures fits { IfOk result FitsPage }
        ensures fault { IfErr result (IsNone copy number from.now) }
    {
        let mut page = Page::new(alloc, copy, number)?;
        if *from != [0; PAGE_SIZE] {
            page.fill(alloc, from)?;
        }
        let mut again = [0; PAGE_SIZE];
        page.write_into(&mut again);
        if again != *from {
            return Err(PageFault::NotAPage);
        }
        Ok(page)
    }
}
