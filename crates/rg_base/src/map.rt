// A map from numbers, seen as a finite map.
ghost use Rattle.std.specs.Prelude.{◌≡◌, ℕ, ◌+◌, Bool, OnOk, OnErr, IfOk, None};
ghost use Rattle.std.specs.Ordering.{nat_cmp};
ghost use Rattle.std.specs.FinMap as map;
ghost use Rattle.std.specs.Coded.{coded_ℕ};
ghost use Rattle.std.specs.Option.{option_copied, option_map};
ghost use Rattle.rg_base.specs.First.{IsFirstFrom};
ghost use Rattle.rg_base.specs.Retained.{Tests, retain_entries};

use crate::no_memory::NoMemory;
use std::alloc::Global;
use std::collections::BTreeMap;
use std::marker::Model;
use std::ops::Bound;

/// A map from numbers to values, in the order of the numbers. It is seen as a finite map.
#[derive(Drop)]
pub struct NumberMap<V> {
    entries: BTreeMap<u64, V>,
}

impl<V> Model for NumberMap<V> {
    ghost Value = { map.FinMap nat_cmp V };

    ghost coded = { map.code coded_ℕ V.code };

    ghost view = { λ m. map.from_entries m.entries.entries };
}

impl<V: Drop> NumberMap<V> {
    /// An empty map. It takes no memory.
    pub fn new(alloc: Global) -> Self
        ensures { result ≡ map.empty }
    {
        NumberMap {
            entries: BTreeMap::new(alloc),
        }
    }

    pub fn len(&self) -> usize
        ensures { result ≡ map.len self.now }
    {
        self.entries.len()
    }

    pub fn get(&self, key: u64) -> Option<&V>
        ensures { option_copied result ≡ map.get self.now key }
    {
        self.entries.get(&key)
    }

    /// The entry with the least key at or above `from`. It searches for it, and doesn't walk the
    /// keys below.
    pub fn first_from(&self, from: u64) -> Option<(u64, &V)>
        ensures { IsFirstFrom self.now from (option_map (λ entry. (entry.0, entry.1.now)) result) }
    {
        match self.entries.range(from..).next() {
            Some((key, value)) => Some((*key, value)),
            None => None,
        }
    }

    /// The entry with the least key above `key`. It searches for it, and doesn't walk the keys
    /// below.
    pub fn first_after(&self, key: u64) -> Option<(u64, &V)>
        ensures { IsFirstFrom self.now (key + 1)
            (option_map (λ entry. (entry.0, entry.1.now)) result) }
    {
        match self
            .entries
            .range((Bound::Excluded(key), Bound::Unbounded))
            .next()
        {
            Some((key, value)) => Some((*key, value)),
            None => None,
        }
    }

    pub fn contains_key(&self, key: u64) -> bool
        ensures { result ≡ map.contains_key self.now key }
    {
        self.entries.contains_key(&key)
    }

    /// Sets the value of a key, and returns the one before. It can be out of memory only for a key
    /// that is not there, and then nothing changes.
    pub fn insert(&mut self, key: u64, value: V) -> Result<Option<V>, NoMemory>
        ensures before { IfOk result (λ before. before ≡ map.get self.old key) }
        ensures ok { OnOk result (self.new ≡ map.insert self.old key value) }
        ensures absent { OnErr result (map.get self.old key ≡ None) }
        ensures err { OnErr result (self.new ≡ self.old) }
    {
        match self.entries.insert(key, value) {
            Ok(before) => Ok(before),
            Err(_) => Err(NoMemory),
        }
    }

    /// Removes a key, and returns its value.
    pub fn remove(&mut self, key: u64) -> Option<V>
        ensures before { result ≡ map.get self.old key }
        ensures removed { self.new ≡ map.remove self.old key }
    {
        self.entries.remove(&key)
    }

    /// Keeps the entries for which `keep` returns `true`. It takes no memory.
    pub fn retain<F: Fn(u64, &V) -> bool + Drop>(&mut self, keep: F)
        requires { F.IsAlwaysCallable keep }
        ensures { (test : ℕ → V → Bool) → Tests F.Fn keep test
            → self.new ≡ retain_entries test self.old }
    {
        self.entries.retain(|key, value| keep(*key, value));
    }
}
