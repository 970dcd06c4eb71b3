// The net of changes.
//
// 1. Of the changes of one home only the last is kept: it says what row the home has in the end. So
//    the net leaves at each place what the changes leave there, one after another.
// 2. The changes are kept by home, in the order of pages and slots. Their own order is gone.
ghost use Rattle.std.specs.Prelude.{◌≡◌, true, map, All, Contains, IfOk, Option};
ghost use Rattle.std.specs.BTreeMap.{values};
ghost use Rattle.rg_base.specs.declared.place.Place.{Place};
ghost use Rattle.rg_base.specs.declared.row.Row.{Row};
ghost use Rattle.rg_model.specs.Layout.{are_rising};
ghost use Rattle.rg_net.specs.ByHome.{HasLast};
ghost use Rattle.rg_feed.specs.Fold.Last.{applied_at, last_at};

use rg_base::change::Change;
use rg_base::no_memory::NoMemory;
use rg_base::row::copy_row;
use std::alloc::{AllocError, Global};
use std::collections::BTreeMap;

fn copy_change(alloc: Global, change: &Change) -> Result<Change, NoMemory>
    ensures { IfOk result (λ copy. copy ≡ change.now) }
{
    Ok(Change {
        position: change.position,
        home: change.home,
        after: copy_row(alloc, change.after.as_ref())?,
    })
}

// The last change of each home, by its page and slot. It walks from the last change to the first,
// so that only what is kept is copied.
fn last_changes(alloc: Global, changes: &[Change]) -> Result<BTreeMap<(u32, u16), Change>, NoMemory>
    ensures { IfOk result (HasLast changes.now) }
{
    let mut last = BTreeMap::new(alloc);
    for i in (0..changes.len()).rev() {
        let change = &changes[i];
        let home = (change.home.page, change.home.slot);
        if !last.contains_key(&home) {
            last.insert(home, copy_change(alloc, change)?)?;
        }
    }
    Ok(last)
}

// What is kept, in the order of homes.
fn into_list(alloc: Global, last: BTreeMap<(u32, u16), Change>) -> Result<Vec<Change>, AllocError>
    ensures { IfOk result (λ list. list.items ≡ values last) }
{
    last.into_values().collect(alloc)
}

/// The last change of each home, in the order of homes. Out of memory leaves nothing behind.
pub fn net(alloc: Global, changes: &[Change]) -> Result<Vec<Change>, NoMemory>
    ensures last { IfOk result (λ net. (place : Place) →
        last_at place net.items ≡ last_at place changes.now) }
    ensures fold { IfOk result (λ net. (place : Place) (row : Option Row) →
        applied_at place net.items row ≡ applied_at place changes.now row) }
    ensures homes { IfOk result (λ net. are_rising (map (λ c. c.home) net.items) ≡ true) }
    ensures members { IfOk result (λ net. All (Contains changes.now) net.items) }
{
    let last = last_changes(alloc, changes)?;
    Ok(into_list(alloc, last)?)
}
