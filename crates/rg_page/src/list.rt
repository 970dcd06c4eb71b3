// Frames that keep all pages in memory.
//
// 1. A reserved page is there already, and only its number is to come, so adding it takes no
//    memory.
// 2. No page is ever given up, so all are sure and fixed, and frames are spare without end.
// 3. A page that is stamped keeps all but its position.
ghost use Rattle.std.specs.Prelude.{◌≡◌, ◌≤◌, ◌<◌, ◌+◌, ◌∷◌, ◌++◌, [], OnOk, OnErr, IfOk, length};
ghost use Rattle.rg_page.specs.Listed.{IsList, stamped};

use crate::areas::push_within;
use crate::frames::{Device, FrameFault, Frames};
use crate::page::{Page, PartFault};
use rg_base::copy::TableCopy;
use rg_base::no_memory::NoMemory;
use rg_base::part::Part;
use rg_base::position::Position;
use rg_base::row::Row;
use rg_base::tran::Tran;
use std::alloc::Global;

/// All pages of a copy, in memory. There can be 4,294,967,295 of them.
#[derive(Drop)]
pub struct ListFrames {
    alloc: Global,
    copy: TableCopy,
    pages: Vec<Page>,
    reserved: Vec<Page>,
    ghost is_list: { IsList copy pages reserved },
}

impl ListFrames {
    /// No pages, of this copy.
    pub fn new(alloc: Global, copy: TableCopy) -> ListFrames
        ensures pages { result.pages.items ≡ [] }
        ensures reserved { result.reserved.items ≡ [] }
        ensures copy { result.copy ≡ copy }
    {
        ListFrames {
            alloc,
            copy,
            pages: Vec::new(alloc),
            reserved: Vec::new(alloc),
        }
    }
}

impl ListFrames {
    /// Adds a page at the end.
    pub fn push(&mut self, page: Page) -> Result<(), NoMemory>
        requires copy { page.copy ≡ self.old.copy }
        requires number { page.number ≡ length self.old.pages.items + 1 }
        requires few { length self.old.pages.items + length self.old.reserved.items < 4294967295 }
        ensures ok { OnOk result (self.new.pages.items ≡ self.old.pages.items ++ page ∷ []) }
        ensures err { OnErr result (self.new.pages.items ≡ self.old.pages.items) }
        ensures reserved { self.new.reserved.items ≡ self.old.reserved.items }
        ensures copy_same { self.new.copy ≡ self.old.copy }
    {
        self.pages.reserve(self.reserved.len() + 1)?;
        push_within(&mut self.pages, page);
        Ok(())
    }

    /// Gives a page another position. The pages of a new copy, which no record has changed, take
    /// that of the last record of the log before they are written to a volume.
    pub fn stamp(&mut self, number: u32, at: Position)
        requires low { 1 ≤ number }
        requires high { number ≤ length self.old.pages.items }
        ensures pages { self.new.pages.items ≡ stamped self.old.pages.items number at.0 }
        ensures reserved { self.new.reserved.items ≡ self.old.reserved.items }
        ensures copy { self.new.copy ≡ self.old.copy }
    {
        self.pages[number as usize - 1].set_position(at);
    }
}

impl Frames for ListFrames {
    ghost use Rattle.std.specs.Prelude.{true, length};
    ghost use Rattle.std.proofs.Math.Nat.{le_refl};
    ghost use Rattle.rg_page.specs.Listed.{list_few, list_numbered};

    ghost seen = { λ f. record {
      copy = f.copy;
      pages = f.pages.items;
      held = λ _. true;
      reserved = length f.reserved.items;
      limit = 4294967295;
      forced = 18446744073709551616;
      spare = 4294967295;
      idle = 4294967295;
      faults = 0;
      sure = true;
      fixed = λ _. true;
    } };

    ghost gave = { λ _ _ _ _. Unit {0} };

    fn count(&self) -> u32 {
        self.pages.len() as u32
    }

    fn with_page(&mut self, number: u32) -> Result<&Page, Device> {
        Ok(&self.pages[number as usize - 1])
    }

    fn reserve_page(&mut self) -> Result<(), FrameFault> {
        if self.pages.reserve(self.reserved.len() + 1).is_err() {
            return Err(FrameFault::NoMemory);
        }
        let Ok(page) = Page::new(self.alloc, self.copy, 0) else {
            return Err(FrameFault::NoMemory);
        };
        if self.reserved.push(page).is_err() {
            return Err(FrameFault::NoMemory);
        }
        Ok(())
    }

    fn add_page(&mut self) {
        let number = self.pages.len() as u32 + 1;
        match self.reserved.pop() {
            None => unreachable!(),
            Some(page) => {
                let mut page = page;
                page.set_number(number);
                push_within(&mut self.pages, page);
            }
        }
    }

    fn set_page(
        &mut self,
        part: &Part,
        tran: Tran,
        after: Option<&Row>,
        position: Position,
    ) -> Result<(), PartFault> {
        let page = &mut self.pages[part.page as usize - 1];
        page.apply(part, tran, after, position)
    }

    fn let_go(&mut self) {}

    fn tell_forced(&mut self, _position: Position) {}

    fn spare(&self) -> u32 {
        u32::MAX
    }

    ghost spare_idle = { λ _. le_refl 4294967295 };

    ghost few = { λ f. list_few f.copy f.pages f.reserved f.is_list };

    ghost limited = { λ _. le_refl 4294967295 };

    ghost numbered = { λ f n low high.
        list_numbered f.copy f.pages f.reserved f.is_list n low high };

    ghost gave_none = { λ _ _ _. tt };

    ghost gave_more = { λ _ _ _ _ _ _ _. tt };
}
