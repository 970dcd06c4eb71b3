// The loops of the plain program, each from key to key of a map.
ghost use Rattle.std.specs.Prelude.{◌≡◌, ◌+◌, ◌&&◌, nat_le, OnOk, OnErr, IfOk, Option, Some, None};
ghost use Rattle.std.specs.FinMap as map;
ghost use Rattle.std.specs.Option.{option_copied, option_map};
ghost use Rattle.rg_base.specs.First.{IsFirstFrom};
ghost use Rattle.rg_model.specs.Committed.{set_to, put_back, own_locks};
ghost use Rattle.rg_model.specs.Held.{is_others, has_cat, is_held_between, is_held_with_cat};
ghost use Rattle.rg_model.specs.Held.{scan_holder, find_holder};
ghost use Rattle.rg_model.specs.Plain.{rows_between, keys_with_cat};
ghost use Rattle.rg_base.specs.Start.{start_of};

use crate::plain::parts::{is_others, set_row};
use rg_base::lock::Lock;
use rg_base::map::NumberMap;
use rg_base::no_memory::NoMemory;
use rg_base::row::{Row, copy_row};
use rg_base::session::Session;
use rg_stmt::rows::{Keys, Rows};
use std::alloc::Global;

/// The entry with the least key, or with the least one above the last key.
pub fn entry_behind<V: Drop>(entries: &NumberMap<V>, last: Option<u64>) -> Option<(u64, &V)>
    ensures { IsFirstFrom entries.now (start_of last)
        (option_map (λ entry. (entry.0, entry.1.now)) result) }
{
    match last {
        Some(key) => entries.first_after(key),
        None => entries.first_from(0),
    }
}

fn is_between(lo: u64, hi: u64, key: u64) -> bool
    ensures { result ≡ nat_le lo key && nat_le key hi }
{
    lo <= key && key <= hi
}

fn is_held_between(session: Session, lo: u64, hi: u64, key: u64, kept: &Lock) -> bool
    ensures { result ≡ is_held_between session lo hi (key, kept.now) }
{
    is_between(lo, hi, key) && is_others(session, kept)
}

/// The owner of the least key in the range that another session has locked.
pub fn scan_holder(locks: &NumberMap<Lock>, session: Session, lo: u64, hi: u64) -> Option<Session>
    ensures { result ≡ scan_holder locks.now session lo hi }
{
    let mut last = None;
    while let Some((key, kept)) = entry_behind(locks, last) {
        if is_held_between(session, lo, hi, key, kept) {
            return Some(kept.owner);
        }
        last = Some(key);
    }
    None
}

fn has_cat(row: Option<&Row>, cat: u64) -> bool
    ensures { result ≡ has_cat cat (option_copied row.entry) }
{
    match row {
        Some(row) => row.cat == cat,
        None => false,
    }
}

fn is_held_with_cat(
    table: &NumberMap<Row>,
    session: Session,
    cat: u64,
    key: u64,
    kept: &Lock,
) -> bool
    ensures { result ≡ is_held_with_cat table.now session cat (key, kept.now) }
{
    is_others(session, kept) && (has_cat(table.get(key), cat) || has_cat(kept.row.as_ref(), cat))
}

/// The owner of the least key, locked by another session, whose present or kept row has the `cat`.
pub fn find_holder(
    table: &NumberMap<Row>,
    locks: &NumberMap<Lock>,
    session: Session,
    cat: u64,
) -> Option<Session>
    ensures { result ≡ find_holder table.now locks.now session cat }
{
    let mut last = None;
    while let Some((key, kept)) = entry_behind(locks, last) {
        if is_held_with_cat(table, session, cat, key, kept) {
            return Some(kept.owner);
        }
        last = Some(key);
    }
    None
}

/// The rows of the keys from `lo` to `hi`, by rising key.
pub fn rows_between(
    alloc: Global,
    table: &NumberMap<Row>,
    lo: u64,
    hi: u64,
) -> Result<Rows, NoMemory>
    ensures { IfOk result (λ rows. rows ≡ rows_between lo hi table.now) }
{
    let mut rows = Vec::new(alloc);
    let mut last = None;
    while let Some((key, row)) = entry_behind(table, last) {
        if is_between(lo, hi, key) {
            rows.push(row.copy(alloc)?)?;
        }
        last = Some(key);
    }
    Ok(Rows::new(rows))
}

/// The rising keys of the rows with this `cat`.
pub fn keys_with_cat(alloc: Global, table: &NumberMap<Row>, cat: u64) -> Result<Keys, NoMemory>
    ensures { IfOk result (λ keys. keys ≡ keys_with_cat cat table.now) }
{
    let mut keys = Vec::new(alloc);
    let mut last = None;
    while let Some((key, row)) = entry_behind(table, last) {
        if row.cat == cat {
            keys.push(key)?;
        }
        last = Some(key);
    }
    Ok(Keys::new(keys))
}

/// An equal table.
pub fn copy_table(alloc: Global, table: &NumberMap<Row>) -> Result<NumberMap<Row>, NoMemory>
    ensures { IfOk result (λ copy. copy ≡ table.now) }
{
    let mut copy = NumberMap::new(alloc);
    let mut last = None;
    while let Some((key, row)) = entry_behind(table, last) {
        copy.insert(key, row.copy(alloc)?)?;
        last = Some(key);
    }
    Ok(copy)
}

/// The table with the kept rows of a session's locks put back.
pub fn rolled_back(
    alloc: Global,
    table: &NumberMap<Row>,
    locks: &NumberMap<Lock>,
    session: Session,
) -> Result<NumberMap<Row>, NoMemory>
    ensures { IfOk result
        (λ rolled. rolled ≡ put_back (map.entries (own_locks session locks.now)) table.now) }
{
    let mut rolled = copy_table(alloc, table)?;
    let mut last = None;
    while let Some((key, kept)) = entry_behind(locks, last) {
        if !is_others(session, kept) {
            set_row(&mut rolled, key, copy_row(alloc, kept.row.as_ref())?)?;
        }
        last = Some(key);
    }
    Ok(rolled)
}
