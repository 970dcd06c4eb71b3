// Each page that a record names, and each number of pages, is within the set of its copy. A set has
// 65,536 pages in use at most.
ghost use Rattle.std.specs.Prelude.{◌≡◌, ◌≤◌, ◌↔◌, IsTrue};
ghost use Rattle.std.specs.List.{AllByRecursion};
ghost use Rattle.rg_image.specs.Rules.{IsPageOf, PlaceIn, PartIn, copy_capacity, NamesPages};

use rg_base::copy::TableCopy;
use rg_base::part::{Part, SlotOp};
use rg_outside::volume::Volume;
use rg_record::record::Kind;

fn is_page_of(pages: u32, page: u32) -> bool
    ensures { IsTrue result ↔ IsPageOf pages page }
{
    1 <= page && page <= pages
}

fn place_in(pages: u32, op: SlotOp) -> bool
    ensures { IsTrue result ↔ PlaceIn pages op }
{
    match op {
        SlotOp::Free | SlotOp::Row { .. } | SlotOp::DeadRow { .. } => true,
        SlotOp::Pointer { other, .. }
        | SlotOp::Over { other, .. }
        | SlotOp::DeadPointer { other, .. }
        | SlotOp::DeadOver { other, .. } => is_page_of(pages, other.page),
    }
}

fn part_in(pages: u32, part: Part) -> bool
    ensures { IsTrue result ↔ PartIn pages part }
{
    is_page_of(pages, part.page) && place_in(pages, part.op)
}

fn parts_in(pages: u32, parts: &[Part]) -> bool
    ensures { IsTrue result ↔ AllByRecursion (PartIn pages) parts.now }
{
    match parts {
        [] => true,
        [part, rest @ ..] => part_in(pages, *part) && parts_in(pages, rest),
    }
}

/// How many pages the set of a copy has in use.
pub fn copy_pages<V: Volume>(volume: &V, copy: TableCopy) -> u32
    ensures { result ≡ copy_capacity (V.seen volume.now).capacities copy }
{
    volume.capacity(copy.set()).min(65536)
}

// The same of a copy by its number. A number that no copy has counts as that of the second one:
// a record with such a number has no spelling.
fn numbered_pages<V: Volume>(volume: &V, number: u8) -> u32
    ensures { result ≡ copy_capacity (V.seen volume.now).capacities number }
{
    match TableCopy::of(number) {
        Some(copy) => copy_pages(volume, copy),
        None => copy_pages(volume, TableCopy::second()),
    }
}

/// Whether each page that the record names is within the set of the current copy, and the number of
/// pages of a Switch within the set of its own copy.
pub fn names_pages<V: Volume>(volume: &V, copy: TableCopy, kind: &Kind) -> bool
    ensures { IsTrue result ↔ NamesPages (V.seen volume.now).capacities copy kind.now }
{
    let pages = copy_pages(volume, copy);
    match kind {
        Kind::Change { home, parts, .. } | Kind::Undo { home, parts, .. } => {
            is_page_of(pages, home.page) && parts_in(pages, parts.as_slice())
        }
        Kind::Commit | Kind::RolledBack => true,
        Kind::Purge { parts } => parts_in(pages, parts.as_slice()),
        Kind::Switch { copy, pages } => *pages <= numbered_pages(volume, *copy),
    }
}
