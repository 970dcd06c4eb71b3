// The copy of a page, for the utility.
//
// 1. It has the rows whose homes are on the page, wherever they lie, and the position of the log's
//    last record. Rows that are not committed are among them.
// 2. A page has 225 slots at most, so a copy has no more rows.
ghost use Rattle.std.specs.Prelude.{◌≡◌, ◌≤◌, IfOk, length};
ghost use Rattle.rg_engine.specs.Sends.{IsCopyOf, rows_copied};
ghost use Rattle.rg_engine.specs.Shows.{IsShown};
ghost use Rattle.rg_engine.specs.Wrote.{SameEngine};

use crate::engine::Engine;
use rg_base::no_memory::NoMemory;
use rg_base::position::Position;
use rg_feed::fold::item::Item;
use rg_unload::unload::unload;

// How many rows a copy has.
fn count_rows(item: &Item) -> u16
    requires { rows_copied item.now ≤ 225 }
    ensures { result ≡ rows_copied item.now }
{
    match item {
        Item::PageCopy { rows, .. } => rows.as_slice().len() as u16,
        _ => 0,
    }
}

impl Engine {
    /// A copy of the page of this number, and how many rows it has.
    pub fn copy_page(&mut self, page: u32) -> Result<(Item, u16), NoMemory>
        requires shown { IsShown self.old }
        ensures same { SameEngine self.old self.new }
        ensures copy { IfOk result (λ made. IsCopyOf self.old page made.0 made.1) }
    {
        let position = Position(self.log.records().len() as u64);
        let Ok(item) = unload(&mut self.space, page, position) else {
            return Err(NoMemory);
        };
        let rows = count_rows(&item);
        Ok((item, rows))
    }
}
