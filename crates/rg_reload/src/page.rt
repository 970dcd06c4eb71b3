// One page of a new copy.
//
// 1. A page takes its first row always, and each next one while PCTFREE of its room stays free
//    after the row's header and bytes.
// 2. Slots are numbered in order. Each area is as long as its row.
ghost use Rattle.std.specs.Prelude.{◌≡◌, ◌≤◌, ◌<◌, ◌++◌, IfOk, length, take, vec_len, vec_capacity};
ghost use Rattle.std.specs.Prelude.{◌+◌};
ghost use Rattle.rg_home.specs.Slots.{Fits};
ghost use Rattle.rg_model.specs.Packed.{area_of, free_part};
ghost use Rattle.rg_reload.specs.Moved.{moved_on, page_taken, pairs_of};
ghost use Rattle.rg_reload.specs.Pages.{page_of, row_slots};

use rg_base::copy::TableCopy;
use rg_base::no_memory::NoMemory;
use rg_base::options::Options;
use rg_base::place::Place;
use rg_base::row::Row;
use rg_page::areas::push_within;
use rg_page::page::Page;
use std::alloc::Global;

/// The bytes of a page.
const ROOM: u32 = 4064;

// The bytes that a row takes of its page.
fn area_of(row: &Row) -> u32
    ensures area { result ≡ area_of row.now }
    ensures high { result ≤ 844 }
{
    18 + row.size() as u32
}

// The bytes of a page that stay free.
fn free_part(options: &Options) -> u32
    ensures part { result ≡ free_part options.now }
    ensures high { result ≤ 10363 }
{
    ROOM * options.pctfree as u32 / 100
}

/// How many of these rows an empty page takes.
pub fn count_taken(options: &Options, rows: &[(Place, Row)]) -> usize
    requires { 0 < length rows.now }
    ensures count { result ≡ page_taken options.now rows.now }
    ensures high { result ≤ length rows.now }
    ensures fits { Fits (row_slots (take result rows.now)) }
{
    let kept = free_part(options);
    let mut free = ROOM - area_of(&rows[0].1);
    let mut count = 1;
    while count < rows.len() {
        let area = area_of(&rows[count].1);
        if kept + area > free {
            return count;
        }
        free -= area;
        count += 1;
    }
    count
}

/// The page with these rows, in slots from 0 on.
pub fn page_with(
    alloc: Global,
    copy: TableCopy,
    number: u32,
    rows: &[(Place, Row)],
) -> Result<Page, NoMemory>
    requires { Fits (row_slots rows.now) }
    ensures { IfOk result (λ page. page ≡ page_of copy number (row_slots rows.now)) }
{
    Page::of_rows(alloc, copy, number, rows)
}

/// Adds the old and new places of rows that are on this page, in slots from 0 on. It takes no
/// memory.
pub fn add_pairs(pairs: &mut Vec<(Place, Place)>, page: u32, rows: &[(Place, Row)])
    requires few { length rows.now ≤ 225 }
    requires room { vec_len pairs.old + length rows.now ≤ vec_capacity pairs.old }
    ensures pairs { pairs.new.items ≡ pairs.old.items ++ pairs_of (moved_on page 0 rows.now) }
    ensures capacity { vec_capacity pairs.old ≤ vec_capacity pairs.new }
{
    let mut slot = 0;
    for homed in rows {
        push_within(pairs, (homed.0, Place { page, slot }));
        slot += 1;
    }
}
