// Sets of keys, by numbers.
// A key is put into the set of a number, taken out of it, and found in it, in logarithmic time.
ghost use Rattle.std.specs.Prelude.{◌≡◌, ℕ, false, OnOk};
ghost use Rattle.rg_base.specs.Start.{start_of};
ghost use Rattle.std.specs.FinMap as map;
ghost use Rattle.std.specs.Option.{option_copied};
ghost use Rattle.rg_judge.specs.Table.Cats.{IsListed, IsStruck};
ghost use Rattle.rg_judge.specs.Table.Sets.{has_key, is_key_in, IsFirstIn, IsPutIn, IsTakenOut};

use rg_base::map::NumberMap;
use rg_base::no_memory::NoMemory;
use rg_base::row::Row;
use rg_model::plain::walks::entry_behind;
use std::alloc::Global;

/// A set of keys for each number.
#[derive(Drop)]
pub struct KeySets {
    pub sets: NumberMap<NumberMap<()>>,
}

// Takes out the set of a number; an empty one where there is none.
fn take_set(alloc: Global, sets: &mut NumberMap<NumberMap<()>>, number: u64) -> NumberMap<()>
    ensures keys { (key : ℕ) → map.contains_key result key
        ≡ has_key (map.get sets.old number) key }
    ensures taken { sets.new ≡ map.remove sets.old number }
{
    match sets.remove(number) {
        Some(set) => set,
        None => NumberMap::new(alloc),
    }
}

impl KeySets {
    /// Sets without keys.
    pub fn new(alloc: Global) -> KeySets
        ensures { (number key : ℕ) → is_key_in result.sets number key ≡ false }
    {
        KeySets {
            sets: NumberMap::new(alloc),
        }
    }

    /// Puts a key into the set of a number.
    pub fn put(&mut self, alloc: Global, number: u64, key: u64) -> Result<(), NoMemory>
        ensures { OnOk result (IsPutIn self.old.sets self.new.sets number key) }
    {
        let mut set = take_set(alloc, &mut self.sets, number);
        set.insert(key, ())?;
        self.sets.insert(number, set)?;
        Ok(())
    }

    /// Takes a key out of the set of a number.
    pub fn take_out(&mut self, number: u64, key: u64) -> Result<(), NoMemory>
        ensures { OnOk result (IsTakenOut self.old.sets self.new.sets number key) }
    {
        let Some(mut set) = self.sets.remove(number) else {
            return Ok(());
        };
        set.remove(key);
        self.sets.insert(number, set)?;
        Ok(())
    }

    /// Takes a key out of the set of its row's `cat`.
    pub fn strike(&mut self, key: u64, row: Option<&Row>) -> Result<(), NoMemory>
        ensures { OnOk result (IsStruck self.old.sets self.new.sets key
            (option_copied row.entry)) }
    {
        match row {
            Some(row) => self.take_out(row.cat, key),
            None => Ok(()),
        }
    }

    /// Puts a key into the set of its row's `cat`.
    pub fn list(&mut self, alloc: Global, key: u64, row: Option<&Row>) -> Result<(), NoMemory>
        ensures { OnOk result (IsListed self.old.sets self.new.sets key
            (option_copied row.entry)) }
    {
        match row {
            Some(row) => self.put(alloc, row.cat, key),
            None => Ok(()),
        }
    }

    /// The least key of the set of a number, or the least one above the last key.
    pub fn behind(&self, number: u64, last: Option<u64>) -> Option<u64>
        ensures { IsFirstIn self.now.sets number (start_of last) result }
    {
        match self.sets.get(number) {
            Some(set) => match entry_behind(set, last) {
                Some((key, _)) => Some(key),
                None => None,
            },
            None => None,
        }
    }
}
