// A page of given rows, built at once.
//
// 1. The rows lie in slots from 0 on, in their order. Each area is as long as its row.
// 2. Headers and bytes are made in a loop of their own each, and what the summary keeps of the
//    headers is computed once, behind the last.
// 3. The page has the room that any later content needs, so a change of it takes no memory.
ghost use Rattle.std.specs.Prelude.{◌≡◌, ◌≤◌, IfOk, OnOk, length, map, vec_capacity};
ghost use Rattle.rg_home.specs.Slots.{Fits};
ghost use Rattle.rg_page.specs.Bare.{bare};
ghost use Rattle.rg_page.specs.Packed.{packed_bytes, packed_slots, AreShown};

use crate::areas::{Areas, push_within};
use crate::header::Header;
use crate::page::{Page, pad_places};
use crate::summary::Summary;
use rg_base::copy::TableCopy;
use rg_base::no_memory::NoMemory;
use rg_base::part::SlotOp;
use rg_base::place::Place;
use rg_base::row::Row;
use rg_base::tran::Tran;
use std::alloc::Global;

impl Page {
    /// The page with these rows, in slots from 0 on, and with position 0.
    pub fn of_rows(
        alloc: Global,
        copy: TableCopy,
        number: u32,
        rows: &[(Place, Row)],
    ) -> Result<Page, NoMemory>
        requires { Fits (packed_slots rows.now) }
        ensures { IfOk result (λ page. page ≡ record {
          copy = copy;
          number = number;
          position = 0;
          slots = packed_slots rows.now;
        }) }
    {
        let summary = Summary::of(headers_of(alloc, rows)?);
        let mut others = Vec::with_capacity(alloc, 226)?;
        pad_places(&mut others, rows.len());
        Ok(Page::of(copy, number, summary, others, areas_of(alloc, rows)?))
    }
}

// The headers of rows.
fn headers_of(alloc: Global, rows: &[(Place, Row)]) -> Result<Vec<Header>, NoMemory>
    requires { length rows.now ≤ 225 }
    ensures items { IfOk result (λ headers. headers.items ≡ map bare (packed_slots rows.now)) }
    ensures room { IfOk result (λ headers. 226 ≤ vec_capacity headers) }
{
    let mut headers = Vec::with_capacity(alloc, 226)?;
    for homed in rows {
        let capacity = homed.1.size();
        push_within(&mut headers, Header::of(SlotOp::Row { capacity }, Tran(0)));
    }
    Ok(headers)
}

// The bytes of rows.
fn areas_of(alloc: Global, rows: &[(Place, Row)]) -> Result<Areas, NoMemory>
    requires { Fits (packed_slots rows.now) }
    ensures areas { IfOk result (λ areas. areas ≡ packed_bytes rows.now) }
    ensures shown { OnOk result (AreShown rows.now) }
{
    let mut areas = Areas::new(alloc)?;
    for homed in rows {
        areas.push_row(&homed.1);
    }
    Ok(areas)
}
