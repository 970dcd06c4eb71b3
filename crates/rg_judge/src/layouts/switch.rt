// What the new copy must be at the moment of the switch.
// (1) Both layouts are right for the table, and no session holds a claim.
// (2) The quiet rows lie at home, in clustering order along the new copy's places.
// (3) Where nothing changed since the utility started, the new copy is packed as its options say.
ghost use Rattle.std.specs.Prelude.{◌≡◌, ◌==◌, ◌&&◌, IfOk, List, None, true, if◌then◌else◌};
ghost use Rattle.rg_judge.specs.Layouts.Clustered.{is_pair_behind, quiet_rises};
ghost use Rattle.rg_rules.specs.Tally.Tallied.{IsTallied};
ghost use Rattle.rg_model.specs.Layout.{is_right_side};
ghost use Rattle.rg_model.specs.Right.{are_clustered, are_quiet_right, is_at_home};
ghost use Rattle.rg_model.specs.Right.{is_clustered_pair, is_packed};
ghost use Rattle.rg_stmt.specs.declared.event.Entry.{Entry};

use crate::layouts::layout::is_right_side;
use crate::layouts::packing::is_packed;
use rg_base::no_memory::NoMemory;
use rg_base::options::Options;
use rg_base::table::Table;
use rg_rules::tally::tally::Tally;
use rg_stmt::layout::{Side, Sides, Spot};
use std::alloc::Global;

fn is_clustered_pair(a: Spot, b: Spot) -> bool
    ensures { result ≡ is_clustered_pair a b }
{
    a.clus <= b.clus && (a.clus != b.clus || a.key <= b.key)
}

fn is_pair_behind(last: Option<Spot>, spot: Spot) -> bool
    ensures { result ≡ is_pair_behind last spot }
{
    match last {
        None => true,
        Some(before) => is_clustered_pair(before, spot),
    }
}

// The quiet rows lie at home, each not before the last one.
fn quiet_rise(tally: &Tally, spots: &[Spot]) -> bool
    ensures { result ≡ quiet_rises tally.now None spots.now }
{
    let mut last = None;
    for spot in spots {
        if !tally.is_quiet(spot.key) {
            continue;
        }
        if spot.over.is_some() || !is_pair_behind(last, *spot) {
            return false;
        }
        last = Some(*spot);
    }
    true
}

// The quiet rows lie at home, in clustering order.
fn are_quiet_right(tally: &Tally, spots: &[Spot]) -> bool
    ensures { (past : List Entry) → IsTallied past tally.now
        → result ≡ are_quiet_right past spots.now }
{
    quiet_rise(tally, spots)
}

// Where nothing changed, the new copy is packed.
fn is_packed_unchanged(
    alloc: Global,
    table: &Table,
    changes: u64,
    options: &Options,
    side: &Side,
) -> Result<bool, NoMemory>
    ensures { IfOk result (λ is. is
        ≡ (if changes == 0 then is_packed options.now table.now side.now else true)) }
{
    if changes == 0 {
        return is_packed(alloc, options, table, side);
    }
    Ok(true)
}

// The quiet rows are right, and the packing is.
fn are_rows_right(
    alloc: Global,
    table: &Table,
    tally: &Tally,
    options: &Options,
    side: &Side,
) -> Result<bool, NoMemory>
    ensures { (past : List Entry) → IsTallied past tally.now → IfOk result (λ are. are
        ≡ (are_quiet_right past side.now.spots
        && (if tally.now.changes == 0 then is_packed options.now table.now side.now else true))) }
{
    if are_quiet_right(tally, side.spots.as_slice()) {
        return is_packed_unchanged(alloc, table, tally.changes, options, side);
    }
    Ok(false)
}

// Both layouts are right for the table.
fn are_right_sides(alloc: Global, table: &Table, sides: &Sides) -> Result<bool, NoMemory>
    ensures { IfOk result (λ are. are
        ≡ (is_right_side table.now sides.now.old && is_right_side table.now sides.now.new)) }
{
    if is_right_side(alloc, table, &sides.old)? {
        return is_right_side(alloc, table, &sides.new);
    }
    Ok(false)
}

// Nobody holds a claim, and the rows are right.
fn is_clear(
    alloc: Global,
    table: &Table,
    unclaimed: bool,
    tally: &Tally,
    options: &Options,
    side: &Side,
) -> Result<bool, NoMemory>
    ensures { (past : List Entry) → IsTallied past tally.now → IfOk result (λ is. is
        ≡ (unclaimed && (are_quiet_right past side.now.spots
        && (if tally.now.changes == 0 then is_packed options.now table.now side.now else true)))) }
{
    if unclaimed {
        return are_rows_right(alloc, table, tally, options, side);
    }
    Ok(false)
}

/// The switch is right, where `unclaimed` says that no session holds a claim.
pub fn is_right_switch(
    alloc: Global,
    table: &Table,
    unclaimed: bool,
    tally: &Tally,
    options: &Options,
    sides: &Sides,
) -> Result<bool, NoMemory>
    ensures { (past : List Entry) → IsTallied past tally.now → IfOk result (λ is. is
        ≡ ((is_right_side table.now sides.now.old && is_right_side table.now sides.now.new)
        && (unclaimed && (are_quiet_right past sides.now.new.spots
        && (if tally.now.changes == 0
        then is_packed options.now table.now sides.now.new
        else true))))) }
{
    if are_right_sides(alloc, table, sides)? {
        return is_clear(alloc, table, unclaimed, tally, options, &sides.new);
    }
    Ok(false)
}
