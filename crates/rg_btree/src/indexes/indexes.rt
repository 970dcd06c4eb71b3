// The three indexes of a table.
//
// 1. Each lists the values of the rows with the places of their homes. A row that has moved is
//    listed at its home.
// 2. Room for additions is reserved first. `replace` takes none, and cannot fail half-way.
// 3. Looking up a key, or an entry of a `cat`, takes no memory and logarithmic time.
ghost use Rattle.std.specs.Prelude.{◌≡◌, ◌≤◌, ◌+◌, ℕ, [], true, false, Option, IfOk, IfSome};
ghost use Rattle.std.specs.Prelude.{IfNone, OnOk, OnErr, nat_le, find, length};
ghost use Rattle.std.specs.Option.{option_copied};
ghost use Rattle.rg_base.specs.declared.place.Place.{Place};
ghost use Rattle.rg_base.specs.declared.row.Row.{Row};
ghost use Rattle.rg_base.specs.declared.which.Which.{Which};
ghost use Rattle.rg_model.specs.Layout.{value_of};
ghost use Rattle.rg_index.specs.Entries.{has_entry};
ghost use Rattle.rg_index.specs.Listed.{IsListingOf, SetsRow};
ghost use Rattle.rg_btree.specs.Indexes.Listings.{AreListings, AreListedAt, IsListedAt, HasSpare};
ghost use Rattle.rg_btree.specs.Indexes.Listings.{SameEntries, entries_of};

use crate::tree::Tree;
use rg_base::no_memory::NoMemory;
use rg_base::place::Place;
use rg_base::row::Row;
use rg_base::which::Which;
use rg_index::index::Index;
use rg_index::search::is_same;
use std::alloc::Global;

/// The indexes by key, by `clus` and by `cat`.
#[derive(Drop)]
pub struct Indexes {
    pub keys: Tree,
    pub cluses: Tree,
    pub cats: Tree,
}

/// The value that an index lists of a row.
pub fn value_of(which: Which, row: &Row) -> u64
    ensures { result ≡ value_of which row.now }
{
    match which {
        Which::Key => row.key,
        Which::Clus => row.clus,
        Which::Cat => row.cat,
    }
}

/// One index follows the row of a home: it was the one before, or none, and is the one after. It
/// takes no memory.
pub fn follow(
    which: Which,
    index: &mut Tree,
    home: Place,
    before: Option<&Row>,
    after: Option<&Row>,
)
    requires listed { IsListedAt which (entries_of index.old) home (option_copied before) }
    requires spare { 1 ≤ index.old.spare }
    ensures listing { (old new : Place → Option Row) → IsListingOf which old (entries_of index.old)
        → old home ≡ option_copied before.entry
        → SetsRow old new home (option_copied after.entry)
        → IsListingOf which new (entries_of index.new) }
    ensures spare { index.old.spare ≤ index.new.spare + 1 }
{
    let Some(row) = before else {
        let Some(next) = after else {
            return;
        };
        index.add(value_of(which, next), home);
        return;
    };
    let value = value_of(which, row);
    let Some(next) = after else {
        index.remove(value, home);
        return;
    };
    let more = value_of(which, next);
    if more == value {
        return;
    }
    index.remove(value, home);
    index.add(more, home);
}

impl Indexes {
    /// Indexes without entries.
    pub fn new(alloc: Global) -> Result<Indexes, NoMemory>
        ensures keys { IfOk result (λ x. entries_of x.keys ≡ []) }
        ensures cluses { IfOk result (λ x. entries_of x.cluses ≡ []) }
        ensures cats { IfOk result (λ x. entries_of x.cats ≡ []) }
    {
        let keys = Tree::new(alloc)?;
        let cluses = Tree::new(alloc)?;
        let cats = Tree::new(alloc)?;
        Ok(Indexes { keys, cluses, cats })
    }

    /// Takes the memory for so many additions to each index.
    pub fn reserve(&mut self, more: u32) -> Result<(), NoMemory>
        ensures ok { OnOk result (HasSpare more self.new) }
        ensures same { SameEntries self.old self.new }
    {
        self.keys.reserve(more)?;
        self.cluses.reserve(more)?;
        self.cats.reserve(more)?;
        Ok(())
    }

    /// The row whose home this is was the one before, or none, and is the one after. It takes no
    /// memory.
    pub fn replace(&mut self, home: Place, before: Option<&Row>, after: Option<&Row>)
        requires listed { AreListedAt self.old home (option_copied before) }
        requires spare { HasSpare 1 self.old }
        ensures listings { (old new : Place → Option Row) → AreListings old self.old
            → old home ≡ option_copied before.entry
            → SetsRow old new home (option_copied after.entry)
            → AreListings new self.new }
        ensures spare { (n : ℕ) → HasSpare (n + 1) self.old → HasSpare n self.new }
    {
        follow(Which::Key, &mut self.keys, home, before, after);
        follow(Which::Clus, &mut self.cluses, home, before, after);
        follow(Which::Cat, &mut self.cats, home, before, after);
    }

    /// How many rows are listed.
    pub fn len(&self) -> usize
        ensures { result ≡ length (entries_of self.now.keys) }
    {
        self.keys.len()
    }

    /// The first entry of the index by key whose key is not below this one. It takes no memory.
    pub fn keys_from(&self, key: u64) -> Option<(u64, Place)>
        ensures { result ≡ find (λ e. nat_le key e.0) (entries_of self.now.keys) }
    {
        self.keys.first_from(key, Place { page: 0, slot: 0 })
    }

    /// The home of the row with this key. It takes no memory.
    pub fn home_of(&self, key: u64) -> Option<Place>
        ensures there { IfSome result (λ p.
            has_entry (entries_of self.now.keys) (key, p) ≡ true) }
        ensures none { IfNone result ((p : Place) →
            has_entry (entries_of self.now.keys) (key, p) ≡ false) }
    {
        match self.keys_from(key) {
            Some((found, home)) => { if found == key { Some(home) } else { None } }
            None => None,
        }
    }

    /// Whether the index by `cat` has this entry. It takes no memory.
    pub fn has_cat(&self, cat: u64, home: Place) -> bool
        ensures { result ≡ has_entry (entries_of self.now.cats) (cat, home) }
    {
        match self.cats.first_from(cat, home) {
            Some(found) => is_same(&(cat, home), &found),
            None => false,
        }
    }
}
