// What every index keeps to:
//
// 1. Its entries rise by value, page and slot, so none stands twice.
// 2. What takes memory is `reserve` and `range`. After `reserve(more)` that many entries can be
//    added, and adding and removing take none. So a caller reserves first, and nothing that it then
//    does can fail half-way.
// 3. Out of memory changes nothing.
ghost use Rattle.std.specs.Prelude.{◌≡◌, ◌+◌, ◌<◌, ◌≤◌, ℕ, List, false, OnOk, OnErr, IfOk};
ghost use Rattle.rg_base.specs.declared.place.Place.{Place};
ghost use Rattle.rg_model.specs.Layout.{put_entry};
ghost use Rattle.rg_index.specs.Entries.{IsRising, has_entry, without_entry, entries_within};

use rg_base::no_memory::NoMemory;
use rg_base::place::Place;
use rg_stmt::layout::Listing;

/// A list of values and places of rows, in the order of value, page and slot. It is seen as that
/// list and as the number of entries that can be added before it has to reserve again.
pub trait Index {
    ghost entries: { Self → List (ℕ × Place) };

    ghost spare: { Self → ℕ };

    /// Takes the memory for so many additions.
    fn reserve(&mut self, more: u32) -> Result<(), NoMemory>
        ensures entries { entries self.new ≡ entries self.old }
        ensures ok { OnOk result (more ≤ spare self.new) }
        ensures not_fewer { spare self.old ≤ spare self.new }
        ensures err { OnErr result (self.new ≡ self.old) };

    /// Adds an entry that isn't there. It takes no memory.
    fn add(&mut self, value: u64, place: Place)
        requires absent { has_entry (entries self.old) (value, place) ≡ false }
        requires room { 0 < spare self.old }
        ensures entries { entries self.new ≡ put_entry (value, place) (entries self.old) }
        ensures spare { spare self.new + 1 ≡ spare self.old };

    /// Removes an entry, where it is there. It takes no memory.
    fn remove(&mut self, value: u64, place: Place) -> bool
        ensures there { result ≡ has_entry (entries self.old) (value, place) }
        ensures entries { entries self.new ≡ without_entry (value, place) (entries self.old) }
        ensures not_fewer { spare self.old ≤ spare self.new };

    /// The entries with values from `lo` to `hi`, both included. It takes the memory of its answer.
    fn range(&self, lo: u64, hi: u64) -> Result<Listing, NoMemory>
        ensures { IfOk result (λ listing. listing ≡ entries_within lo hi (entries self.now)) };

    ghost rising: { (index : Self) → IsRising (entries index) };
}
