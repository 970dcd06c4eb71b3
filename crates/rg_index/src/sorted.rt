// 1. The entries rise, and none is there twice.
// 2. `reserve` takes the room, so adding takes no memory.
ghost use Rattle.std.specs.Prelude.{◌≡◌, [], IfOk};

use crate::index::Index;
use crate::search::{count_through, find, find_within};
use rg_base::no_memory::NoMemory;
use rg_base::place::Place;
use rg_stmt::layout::Listing;
use std::alloc::Global;
use std::marker::Model;

/// An index in a sorted vector. Adding and removing move the entries behind, so it is for few
/// entries.
#[derive(Drop)]
pub struct SortedIndex {
    entries: Vec<(u64, Place)>,
}

impl Model for SortedIndex {
    ghost use Rattle.std.specs.Prelude.{◌-◌, vec_capacity, vec_len};
    ghost use Rattle.rg_index.specs.Entries.{IsRising};
    ghost use Rattle.rg_index.specs.Indexed.{Indexed};

    ghost Value = { Indexed };

    ghost view = { λ s. record {
      entries = s.entries.items;
      spare = vec_capacity s.entries - vec_len s.entries;
    } };

    ghost invariant = { λ s. IsRising s.entries.items };
}

impl SortedIndex {
    /// An index without entries.
    pub fn new(alloc: Global) -> Result<Self, NoMemory>
        ensures { IfOk result (λ index. index.entries ≡ []) }
    {
        Ok(SortedIndex {
            entries: Vec::new(alloc),
        })
    }
}

impl Index for SortedIndex {
    ghost use Rattle.rg_index.specs.RisingPart.{rising_part, IsRising-rising_part};

    ghost entries = { λ index. rising_part index.entries };

    ghost spare = { λ index. index.spare };

    ghost rising = { λ index. IsRising-rising_part index.entries };

    fn reserve(&mut self, more: u32) -> Result<(), NoMemory> {
        match self.entries.reserve(more as usize) {
            Ok(()) => Ok(()),
            Err(_) => Err(NoMemory),
        }
    }

    fn add(&mut self, value: u64, place: Place) {
        let at = count_through(self.entries.as_slice(), (value, place));
        let added = self.entries.insert(at, (value, place));
        prove!(added.is_ok());
    }

    fn remove(&mut self, value: u64, place: Place) -> bool {
        match find(self.entries.as_slice(), (value, place)) {
            Some(at) => {
                self.entries.remove(at);
                true
            }
            None => false,
        }
    }

    fn range(&self, lo: u64, hi: u64) -> Result<Listing, NoMemory> {
        let found = find_within(self.entries.as_slice(), lo, hi);
        let mut entries = Vec::new(*self.entries.allocator());
        entries.extend_from_slice(found)?;
        Ok(Listing::new(entries))
    }
}
