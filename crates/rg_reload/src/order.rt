// The order of rows in a new copy.
//
// 1. Rows go by clus, then by key, then by old place. No two have the same place, so there is one
//    such order, and the sort need not be stable.
// 2. Rows are dropped in order of old place, that in which they came. Their texts lie in memory one
//    after another then; freed from all over the memory they take several times as long.
ghost use Rattle.std.specs.Prelude.{vec_len, vec_capacity};
ghost use Rattle.std.specs.List.Sorted.{IsPermutation};
ghost use Rattle.rg_reload.specs.Order.{IsInOrder};

use rg_base::place::Place;
use rg_base::row::Row;

/// Puts rows in order. It takes no memory.
pub fn sort_rows(rows: &mut Vec<(Place, Row)>)
    ensures permutation { IsPermutation rows.old.items rows.new.items }
    ensures order { IsInOrder rows.new.items }
{
    rows.sort_unstable_by_key(|homed| { (homed.1.clus, homed.1.key, homed.0.page, homed.0.slot) });
}

/// Drops rows.
pub fn drop_rows(rows: Vec<(Place, Row)>) {
    let mut rows = rows;
    rows.sort_unstable_by_key(|homed| { (homed.0.page, homed.0.slot) });
}
