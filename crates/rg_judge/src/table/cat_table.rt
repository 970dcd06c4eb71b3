// A table, with the keys of each `cat`.
// (1) The set of each `cat` has exactly the keys of the rows with that `cat`.
// (2) A row is set, and the keys of a `cat` and the rows of a range are listed, without a look at
//     any other row.
ghost use Rattle.std.specs.Prelude.{◌≡◌, IfOk, OnOk, Option};
ghost use Rattle.std.specs.FinMap as map;
ghost use Rattle.std.specs.Option.{option_map};
ghost use Rattle.rg_base.specs.First.{IsFirstFrom};
ghost use Rattle.rg_judge.specs.Table.Cats.{AreCats, start_from};
ghost use Rattle.rg_model.specs.Committed.{set_to};
ghost use Rattle.rg_model.specs.Plain.{keys_with_cat, rows_between};

use crate::table::key_sets::KeySets;
use rg_base::no_memory::NoMemory;
use rg_base::row::Row;
use rg_base::table::Table;
use rg_model::plain::walks::entry_behind;
use rg_stmt::rows::{Keys, Rows};
use std::alloc::Global;
use std::marker::Model;

/// A table that also finds the keys of a `cat`. It is seen as the table.
#[derive(Drop)]
pub struct CatTable {
    rows: Table,
    cats: KeySets,
}

impl Model for CatTable {
    ghost use Rattle.std.specs.Coded.{coded_ℕ};
    ghost use Rattle.std.specs.FinMap as map;
    ghost use Rattle.rg_base.specs.contracts.row.Row as kept;
    ghost use Rattle.rg_judge.specs.Table.Cats.{AreCats};
    ghost use Rattle.rg_model.specs.State as model;

    ghost Value = { model.Table };

    ghost coded = { map.code coded_ℕ kept.the_row.coded };

    ghost view = { λ t. t.rows };

    ghost invariant = { λ t. AreCats t.rows t.cats.sets };
}

// Sets the row of a key, or removes it, and returns the row from before.
fn replace_row(rows: &mut Table, key: u64, row: Option<Row>) -> Result<Option<Row>, NoMemory>
    ensures before { IfOk result (λ before. before ≡ map.get rows.old key) }
    ensures set { OnOk result (rows.new ≡ set_to rows.old key row) }
{
    match row {
        Some(row) => rows.insert(key, row),
        None => Ok(rows.remove(key)),
    }
}

// The keys of a table, in the sets of their rows' `cat`s.
fn cats_of(alloc: Global, rows: &Table) -> Result<KeySets, NoMemory>
    ensures { IfOk result (λ cats. AreCats rows.now cats.sets) }
{
    let mut cats = KeySets::new(alloc);
    let mut last = None;
    while let Some((key, row)) = entry_behind(rows, last) {
        cats.put(alloc, row.cat, key)?;
        last = Some(key);
    }
    Ok(cats)
}

impl CatTable {
    /// A table of these rows. It takes memory for their keys.
    pub fn new(alloc: Global, rows: Table) -> Result<CatTable, NoMemory>
        ensures { IfOk result (λ table. table ≡ rows) }
    {
        let cats = cats_of(alloc, &rows)?;
        Ok(CatTable { rows, cats })
    }

    /// The rows, by their keys.
    pub fn rows(&self) -> &Table
        ensures { result.now ≡ self.now }
    {
        &self.rows
    }

    /// The rows alone.
    pub fn into_rows(self) -> Table
        ensures { result ≡ self }
    {
        self.rows
    }

    /// Sets the row of a key, or removes it. The row from before is returned beside the table.
    pub fn set(
        self,
        alloc: Global,
        key: u64,
        row: Option<Row>,
    ) -> Result<(CatTable, Option<Row>), NoMemory>
        ensures table { IfOk result (λ set. set.0 ≡ set_to self key row) }
        ensures before { IfOk result (λ set. set.1 ≡ map.get self key) }
    {
        let CatTable { mut rows, mut cats } = self;
        cats.strike(key, rows.get(key))?;
        cats.list(alloc, key, row.as_ref())?;
        let before = replace_row(&mut rows, key, row)?;
        Ok((CatTable { rows, cats }, before))
    }

    /// The rising keys of the rows with this `cat`. No other row is looked at.
    pub fn keys_with_cat(&self, alloc: Global, cat: u64) -> Result<Keys, NoMemory>
        ensures { IfOk result (λ keys. keys ≡ keys_with_cat cat self.now) }
    {
        let mut keys = Vec::new(alloc);
        let mut last = None;
        while let Some(key) = self.cats.behind(cat, last) {
            keys.push(key)?;
            last = Some(key);
        }
        Ok(Keys::new(keys))
    }

    // The entry with the least key from `lo` on, or with the least one above the last key.
    fn behind(&self, lo: u64, last: Option<u64>) -> Option<(u64, &Row)>
        ensures { IsFirstFrom self.now (start_from lo last)
            (option_map (λ entry. (entry.0, entry.1.now)) result) }
    {
        match last {
            Some(key) => self.rows.first_after(key),
            None => self.rows.first_from(lo),
        }
    }

    /// The rows of the keys from `lo` to `hi`, by rising key. No other row is looked at, but for
    /// the first one above `hi`.
    pub fn rows_between(&self, alloc: Global, lo: u64, hi: u64) -> Result<Rows, NoMemory>
        ensures { IfOk result (λ rows. rows ≡ rows_between lo hi self.now) }
    {
        let mut rows = Vec::new(alloc);
        let mut last = None;
        while let Some((key, row)) = self.behind(lo, last) {
            if key > hi {
                return Ok(Rows::new(rows));
            }
            rows.push(row.copy(alloc)?)?;
            last = Some(key);
        }
        Ok(Rows::new(rows))
    }
}
