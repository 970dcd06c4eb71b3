// The table that a log stores.
//
// 1. A key has the row after the last Change that names it, in its row before or after, of a
//    transaction that was committed; it has none where there is no such Change.
// 2. The log is walked twice: first for the transactions that were committed, and then for their
//    Changes, the first one first.
ghost use Rattle.std.specs.Prelude.{◌≡◌, ◌≤◌, ◌==◌, ◌+◌, ◌*◌, ◌&&◌, ◌||◌, ℕ, if◌then◌else◌, length};
ghost use Rattle.std.specs.Prelude.{OnOk, IfOk};
ghost use Rattle.std.specs.FinMap as map;
ghost use Rattle.std.specs.Option.{option_copied};
ghost use Rattle.rg_image.specs.Meaning.{has_key, is_commit, is_committed, stored};
ghost use Rattle.rg_restart.specs.Stored.{made_by, made_over};

use rg_base::map::NumberMap;
use rg_base::no_memory::NoMemory;
use rg_base::row::{Row, copy_row};
use rg_model::plain::parts::set_row;
use rg_record::record::{Kind, Record};
use std::alloc::Global;

fn is_commit(kind: &Kind) -> bool
    ensures { result ≡ is_commit kind.now }
{
    match kind {
        Kind::Commit => true,
        Kind::Change { .. }
        | Kind::Undo { .. }
        | Kind::RolledBack
        | Kind::Purge { .. }
        | Kind::Switch { .. } => false,
    }
}

// Notes the end of a transaction that was committed.
fn note_end(ended: &mut NumberMap<bool>, entry: &Record) -> Result<(), NoMemory>
    ensures { OnOk result ((tran : ℕ) → map.contains_key ended.new tran
        ≡ (map.contains_key ended.old tran
        || (is_commit entry.now.kind && (entry.now.tran.0 == tran)))) }
{
    if !is_commit(&entry.kind) {
        return Ok(());
    }
    match ended.insert(u64::from(entry.tran.0), true) {
        Ok(_) => Ok(()),
        Err(error) => Err(error),
    }
}

// The transactions that were committed.
fn committed_in(alloc: Global, records: &[Record]) -> Result<NumberMap<bool>, NoMemory>
    ensures { IfOk result (λ ended. (tran : ℕ) → map.contains_key ended tran
        ≡ is_committed records.now tran) }
{
    let mut ended = NumberMap::new(alloc);
    let mut at = 0;
    while at < records.len() {
        note_end(&mut ended, &records[at])?;
        at += 1;
    }
    Ok(ended)
}

// Sets the key of the row that is named, if one is, to the row after.
fn set_key(
    alloc: Global,
    table: &mut NumberMap<Row>,
    named: Option<&Row>,
    after: Option<&Row>,
) -> Result<(), NoMemory>
    ensures row { OnOk result ((key : ℕ) → map.get table.new key
        ≡ (if has_key key (option_copied named.entry) then option_copied after.entry
        else map.get table.old key)) }
    ensures few { OnOk result (map.len table.new ≤ map.len table.old + 1) }
{
    let Some(row) = named else {
        return Ok(());
    };
    let copy = copy_row(alloc, after)?;
    match set_row(table, row.key, copy) {
        Ok(()) => Ok(()),
        Err(error) => Err(error),
    }
}

// Sets the keys of a Change to its row after.
fn set_keys(
    alloc: Global,
    table: &mut NumberMap<Row>,
    before: Option<&Row>,
    after: Option<&Row>,
) -> Result<(), NoMemory>
    ensures row { OnOk result ((key : ℕ) → map.get table.new key
        ≡ (if has_key key (option_copied before.entry) || has_key key (option_copied after.entry)
        then option_copied after.entry
        else map.get table.old key)) }
    ensures few { OnOk result (map.len table.new ≤ map.len table.old + 2) }
{
    set_key(alloc, table, before, after)?;
    set_key(alloc, table, after, after)
}

// Does what a record makes of the rows, where its transaction was committed.
fn make(alloc: Global, table: &mut NumberMap<Row>, kind: &Kind) -> Result<(), NoMemory>
    ensures row { OnOk result ((key : ℕ) → map.get table.new key
        ≡ made_over (made_by kind.now key) (map.get table.old key)) }
    ensures few { OnOk result (map.len table.new ≤ map.len table.old + 2) }
{
    match kind {
        Kind::Change { before, after, .. } => {
            set_keys(alloc, table, before.as_ref(), after.as_ref())
        }
        Kind::Undo { .. }
        | Kind::Commit
        | Kind::RolledBack
        | Kind::Purge { .. }
        | Kind::Switch { .. } => Ok(()),
    }
}

/// The rows of the committed transactions of these records, by key: at most two for each record.
pub fn stored_rows(alloc: Global, records: &[Record]) -> Result<NumberMap<Row>, NoMemory>
    ensures rows { IfOk result (λ table. (key : ℕ)
        → map.get table key ≡ stored records.now key) }
    ensures few { IfOk result (λ table. map.len table ≤ 2 * length records.now) }
{
    let ended = committed_in(alloc, records)?;
    let mut table = NumberMap::new(alloc);
    let mut at = 0;
    while at < records.len() {
        let entry = &records[at];
        if ended.contains_key(u64::from(entry.tran.0)) {
            make(alloc, &mut table, &entry.kind)?;
        }
        at += 1;
    }
    Ok(table)
}
