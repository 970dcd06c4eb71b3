// Laws of what indexes list. None of these functions does anything.
ghost use Rattle.std.specs.Prelude.{◌≡◌, ℕ, List, Option, None, true, false, IsPermutation};
ghost use Rattle.std.specs.Prelude.{IsSorted, length};
ghost use Rattle.std.specs.Ordering.{nat_cmp};
ghost use Rattle.rg_base.specs.declared.place.Place.{Place};
ghost use Rattle.rg_base.specs.declared.row.Row.{Row};
ghost use Rattle.rg_index.specs.Entries.{entries_within, has_entry};
ghost use Rattle.rg_home.specs.Table.{IsTable};
ghost use Rattle.rg_model.specs.Plain.{keys_with_cat, rows_between};
ghost use Rattle.rg_model.specs.State.{Table, row_of, row_count, entries_of as table_entries};
ghost use Rattle.rg_btree.specs.Indexes.Listed.{keyed_rows, listed_keys, listed_rows};
ghost use Rattle.rg_btree.specs.Indexes.Listings.{AreListings, AreListedAt, entries_of};
ghost use Rattle.rg_btree.specs.declared.indexes.indexes.Indexes.{Indexes};

/// Indexes that list rows list at each place the row that is there.
pub fn listings_list_each_place()
    ensures { (rows : Place → Option Row) (x : Indexes) (place : Place) → AreListings rows x
        → AreListedAt x place (rows place) }
{}

/// The index by key lists a table: its entries in order, their number, and the rows of a range of
/// keys.
pub fn keys_list_the_table()
    ensures entries { (rows : Place → Option Row) (table : Table) (x : Indexes)
        → IsTable rows (λ key. row_of table key) → AreListings rows x
        → table_entries table ≡ keyed_rows rows (entries_of x.keys) }
    ensures count { (rows : Place → Option Row) (table : Table) (x : Indexes)
        → IsTable rows (λ key. row_of table key) → AreListings rows x
        → row_count table ≡ length (entries_of x.keys) }
    ensures between { (rows : Place → Option Row) (table : Table) (x : Indexes) (lo hi : ℕ)
        → IsTable rows (λ key. row_of table key) → AreListings rows x
        → rows_between lo hi table ≡ listed_rows rows (entries_within lo hi (entries_of x.keys)) }
{}

/// The row of a key is the one at the home that the index by key has for it. There is none where it
/// has no home.
pub fn keys_find_the_row()
    ensures there { (rows : Place → Option Row) (table : Table) (x : Indexes) (key : ℕ)
        (home : Place) → IsTable rows (λ key. row_of table key) → AreListings rows x
        → has_entry (entries_of x.keys) (key, home) ≡ true → rows home ≡ row_of table key }
    ensures none { (rows : Place → Option Row) (table : Table) (x : Indexes) (key : ℕ)
        → IsTable rows (λ key. row_of table key) → AreListings rows x
        → ((home : Place) → has_entry (entries_of x.keys) (key, home) ≡ false)
        → row_of table key ≡ None }
{}

/// The index by `cat` lists the keys of each `cat`. Whoever sorts the keys of the rows at the
/// places of its entries has the rising list of these keys.
pub fn cats_list_the_keys()
    ensures { (rows : Place → Option Row) (table : Table) (x : Indexes) (cat : ℕ)
        → IsTable rows (λ key. row_of table key) → AreListings rows x → (keys : List ℕ)
        → IsPermutation (listed_keys rows (entries_within cat cat (entries_of x.cats))) keys
        → IsSorted nat_cmp keys → keys ≡ keys_with_cat cat table }
{}
