// Walks over the locks, from key to key.
ghost use Rattle.std.specs.Prelude.{◌≡◌, IfOk};
ghost use Rattle.std.specs.FinMap as map;
ghost use Rattle.rg_model.specs.Committed.{locks_without, put_back};
ghost use Rattle.rg_model.specs.Said.{has_locks};

use crate::table::cat_table::CatTable;
use rg_base::lock::Lock;
use rg_base::map::NumberMap;
use rg_base::no_memory::NoMemory;
use rg_base::row::copy_row;
use rg_base::session::Session;
use rg_model::plain::parts::is_others;
use rg_model::plain::walks::entry_behind;
use std::alloc::Global;

/// The session has a lock.
pub fn has_locks(locks: &NumberMap<Lock>, session: Session) -> bool
    ensures { result ≡ has_locks locks.now session }
{
    let mut last = None;
    while let Some((key, kept)) = entry_behind(locks, last) {
        if kept.owner.0 == session.0 {
            return true;
        }
        last = Some(key);
    }
    false
}

/// The table with the rows put back that the locks keep.
pub fn put_back(
    alloc: Global,
    table: CatTable,
    locks: &NumberMap<Lock>,
) -> Result<CatTable, NoMemory>
    ensures { IfOk result (λ after. after ≡ put_back (map.entries locks.now) table) }
{
    let mut after = table;
    let mut last = None;
    while let Some((key, kept)) = entry_behind(locks, last) {
        let row = copy_row(alloc, kept.row.as_ref())?;
        let (next, _) = after.set(alloc, key, row)?;
        after = next;
        last = Some(key);
    }
    Ok(after)
}

/// The table with the rows put back that the locks of the other sessions keep.
pub fn put_back_others(
    alloc: Global,
    table: CatTable,
    locks: &NumberMap<Lock>,
    session: Session,
) -> Result<CatTable, NoMemory>
    ensures { IfOk result (λ after.
        after ≡ put_back (map.entries (locks_without session locks.now)) table) }
{
    let mut after = table;
    let mut last = None;
    while let Some((key, kept)) = entry_behind(locks, last) {
        if is_others(session, kept) {
            let row = copy_row(alloc, kept.row.as_ref())?;
            let (next, _) = after.set(alloc, key, row)?;
            after = next;
        }
        last = Some(key);
    }
    Ok(after)
}
