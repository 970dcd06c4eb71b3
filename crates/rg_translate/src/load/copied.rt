// The rows of all copies of pages.
//
// 1. They are copied, since the copies of pages are asked again later: a change is passed over
//    where its page was copied after it.
ghost use Rattle.std.specs.Prelude.{◌≡◌, [], ◌∷◌, ◌++◌, IfOk, OnOk};
ghost use Rattle.rg_feed.specs.Fold.Fold.{copied_rows};

use rg_base::homes::Homes;
use rg_base::no_memory::NoMemory;
use rg_base::place::Place;
use rg_base::row::Row;
use rg_feed::fold::item::Item;
use std::alloc::Global;

// Adds copies of these rows.
fn add_rows(
    alloc: Global,
    all: &mut Vec<(Place, Row)>,
    rows: &[(Place, Row)],
) -> Result<(), NoMemory>
    ensures { OnOk result (all.new.items ≡ all.old.items ++ rows.now) }
{
    for homed in rows {
        all.push((homed.0, homed.1.copy(alloc)?))?;
    }
    Ok(())
}

// Adds copies of the rows of an item.
fn add_copy(alloc: Global, all: &mut Vec<(Place, Row)>, item: &Item) -> Result<(), NoMemory>
    ensures { OnOk result (all.new.items ≡ all.old.items ++ copied_rows (item.now ∷ [])) }
{
    match item {
        Item::PageCopy { rows, .. } => add_rows(alloc, all, rows.as_slice()),
        _ => Ok(()),
    }
}

/// The rows of all copies, in the order in which they were copied.
pub fn rows_of(alloc: Global, copies: &[Item]) -> Result<Homes, NoMemory>
    ensures { IfOk result (λ rows. rows ≡ copied_rows copies.now) }
{
    let mut all = Vec::new(alloc);
    for item in copies {
        add_copy(alloc, &mut all, item)?;
    }
    Ok(Homes::new(all))
}
