// How rows lie in a new copy to which nothing was changed.
// (1) Rows go in clustering order: by clus, then by key.
// (2) A page takes its first row, and each next row that leaves PCTFREE of the page's room free.
// (3) Where FREEPAGE is n above 0, an empty page follows each n filled ones.
ghost use Rattle.std.specs.Prelude.{◌≡◌, ◌==◌, ◌+◌, IfOk, filter, length, map, nat_le};
ghost use Rattle.std.specs.Ordering.{is_lt};
ghost use Rattle.rg_judge.specs.Layouts.Packing.{packing_after, spot_of, spots_by};
ghost use Rattle.rg_model.specs.Packed.{area_of, clustered_rows, free_part, home_spot};
ghost use Rattle.rg_model.specs.Packed.{is_row_before};
ghost use Rattle.rg_model.specs.Packed.{packed_pages, packed_spots};
ghost use Rattle.rg_model.specs.Right.{is_packed, same_home_spot};
ghost use Rattle.rg_model.specs.Same.{same_list};
ghost use Rattle.rg_model.specs.State.{entries_of};

use crate::layouts::layout::same_place;
use rg_base::no_memory::NoMemory;
use rg_base::options::Options;
use rg_base::place::Place;
use rg_base::row::Row;
use rg_base::table::Table;
use rg_model::plain::walks::entry_behind;
use rg_rules::tally::pages::{page_at, page_count};
use rg_rules::tally::sums::sum;
use rg_stmt::layout::{Side, Spot};
use std::alloc::Global;
use std::cmp::Ordering;

/// How far a new copy is packed: the pages filled so far, and the slots used and bytes free of the
/// last one.
#[derive(Clone, Copy, Debug, PartialEq, Eq)]
pub struct Packing {
    pub filled: u64,
    pub slots: u64,
    pub free: u64,
}

// A slot takes 18 bytes and its row's.
fn area_of(row: &Row) -> Result<u64, NoMemory>
    ensures { IfOk result (λ area. area ≡ area_of row.now) }
{
    sum(18, sum(26, row.text.as_slice().len() as u64)?)
}

// PCTFREE: what stays free of a page.
fn free_part(options: &Options) -> u64
    ensures { result ≡ free_part options.now }
{
    4064 * u64::from(options.pctfree) / 100
}

fn is_row_before(a: &Row, b: &Row) -> bool
    ensures { result ≡ is_row_before a.now b.now }
{
    a.clus < b.clus || (a.clus == b.clus && a.key < b.key)
}

// The rows by rising key.
fn all_rows(alloc: Global, table: &Table) -> Result<Vec<Row>, NoMemory>
    ensures { IfOk result (λ rows. rows.items ≡ map (λ entry. entry.1) (entries_of table.now)) }
{
    let mut rows = Vec::new(alloc);
    let mut last = None;
    while let Some((key, row)) = entry_behind(table, last) {
        rows.push(row.copy(alloc)?)?;
        last = Some(key);
    }
    Ok(rows)
}

// How a row stands to another.
fn compare_rows(a: &Row, b: &Row) -> Ordering
    ensures { is_lt result ≡ is_row_before a.now b.now }
{
    if is_row_before(a, b) {
        Ordering::Less
    } else if is_row_before(b, a) {
        Ordering::Greater
    } else {
        Ordering::Equal
    }
}

// The rows in clustering order. The definition puts a row behind its equals, from the last row on,
// so a stable sort begins with the last one.
fn clustered(mut rows: Vec<Row>) -> Result<Vec<Row>, NoMemory>
    ensures { IfOk result (λ clustered. clustered.items ≡ clustered_rows rows.items) }
{
    rows.reverse();
    rows.sort_by(|a, b| compare_rows(a, b))?;
    Ok(rows)
}

// A row at home. A page beyond 32 bits, or a slot beyond 16, needs more rows than memory holds.
fn home_spot(page: u64, slot: u64, row: &Row) -> Result<Spot, NoMemory>
    ensures { IfOk result (λ spot. spot ≡ home_spot page slot row.now) }
{
    if page > 4294967295 || slot > 65535 {
        return Err(NoMemory);
    }
    Ok(Spot {
        place: Place {
            page: page as u32,
            slot: slot as u16,
        },
        key: row.key,
        clus: row.clus,
        over: None,
    })
}

// The row leaves enough of the page free.
fn fits(options: &Options, packing: Packing, row: &Row) -> Result<bool, NoMemory>
    ensures { IfOk result (λ fits. fits
        ≡ nat_le (free_part options.now + area_of row.now) packing.free) }
{
    Ok(sum(free_part(options), area_of(row)?)? <= packing.free)
}

// Where the next row lies.
fn spot_of(options: &Options, packing: Packing, row: &Row) -> Result<Spot, NoMemory>
    ensures { IfOk result (λ spot. spot ≡ spot_of options.now packing row.now) }
{
    if fits(options, packing, row)? {
        return home_spot(
            page_at(options.freepage, packing.filled)?,
            packing.slots,
            row,
        );
    }
    home_spot(page_at(options.freepage, sum(packing.filled, 1)?)?, 0, row)
}

// One row more.
fn pack(options: &Options, packing: Packing, row: &Row) -> Result<Packing, NoMemory>
    ensures { IfOk result (λ after. after ≡ packing_after options.now packing row.now) }
{
    let area = area_of(row)?;
    if fits(options, packing, row)? {
        return Ok(Packing {
            filled: packing.filled,
            slots: sum(packing.slots, 1)?,
            free: packing.free.saturating_sub(area),
        });
    }
    Ok(Packing {
        filled: sum(packing.filled, 1)?,
        slots: 1,
        free: 4064u64.saturating_sub(area),
    })
}

// The spots of rows, from where the copy is packed.
fn pack_rows(
    alloc: Global,
    options: &Options,
    rows: &[Row],
    packed: Packing,
) -> Result<Vec<Spot>, NoMemory>
    ensures { IfOk result (λ spots. spots.items ≡ spots_by options.now packed rows.now) }
{
    let mut packing = packed;
    let mut spots = Vec::new(alloc);
    for row in rows {
        spots.push(spot_of(options, packing, row)?)?;
        packing = pack(options, packing, row)?;
    }
    Ok(spots)
}

// The spots of the table, packed.
fn packed_spots(alloc: Global, options: &Options, table: &Table) -> Result<Vec<Spot>, NoMemory>
    ensures { IfOk result (λ spots. spots.items ≡ packed_spots options.now table.now) }
{
    let rows = clustered(all_rows(alloc, table)?)?;
    let empty = Packing {
        filled: 0,
        slots: 0,
        free: 0,
    };
    let spots = pack_rows(alloc, options, rows.as_slice(), empty)?;
    Ok(spots)
}

// The spots have the same place, key and clus, and both rows lie at home.
fn same_home_spot(a: &Spot, b: &Spot) -> bool
    ensures { result ≡ same_home_spot a.now b.now }
{
    same_place(a.place, b.place)
        && (a.key == b.key && (a.clus == b.clus && (a.over.is_none() && b.over.is_none())))
}

// Spot for spot.
fn same_home_spots(a: &[Spot], b: &[Spot]) -> bool
    ensures { result ≡ same_list same_home_spot a.now b.now }
{
    let mut left = b;
    for x in a {
        match left {
            [y, rest @ ..] => {
                if !same_home_spot(x, y) {
                    return false;
                }
                left = rest;
            }
            [] => return false,
        }
    }
    left.is_empty()
}

fn first_slots(spots: &[Spot]) -> usize
    ensures { result ≡ length (filter (λ spot. spot.place.slot == 0) spots.now) }
{
    spots.iter().filter(|spot| spot.place.slot == 0).count()
}

/// The new copy is packed as the options say.
pub fn is_packed(
    alloc: Global,
    options: &Options,
    table: &Table,
    side: &Side,
) -> Result<bool, NoMemory>
    ensures { IfOk result (λ is. is ≡ is_packed options.now table.now side.now) }
{
    let spots = packed_spots(alloc, options, table)?;
    let pages = page_count(options.freepage, first_slots(spots.as_slice()) as u64)?;
    if u64::from(side.pages) != pages {
        return Ok(false);
    }
    Ok(same_home_spots(side.spots.as_slice(), spots.as_slice()))
}
