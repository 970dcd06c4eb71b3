// The locked keys of each session, by the `cat`s of their rows.
// (1) A key that a session has locked is in its set of the `cat` of the present row, and in that of
//     the row that the lock keeps.
// (2) The end of a unit drops the sets of its session, and looks at no key.
// (3) The least key that another session holds is found by one search for each session.
ghost use Rattle.std.specs.Prelude.{◌≡◌, ℕ, false, IfOk, OnOk};
ghost use Rattle.std.specs.FinMap as map;
ghost use Rattle.std.specs.Option.{option_copied};
ghost use Rattle.rg_judge.specs.Table.Owners.{is_held_in, lesser, AreKnown, IsLeastHeld, IsNoted};
ghost use Rattle.rg_judge.specs.Table.Sets.{is_key_in};

use crate::table::key_sets::KeySets;
use rg_base::map::NumberMap;
use rg_base::no_memory::NoMemory;
use rg_base::row::Row;
use rg_base::session::Session;
use rg_model::plain::walks::entry_behind;
use std::alloc::Global;

/// The locked keys of each session, by the `cat`s of their rows.
#[derive(Drop)]
pub struct HeldCats {
    pub owners: NumberMap<KeySets>,
}

// Takes out the sets of a session; empty ones where there are none.
fn take_sets(alloc: Global, owners: &mut NumberMap<KeySets>, number: u64) -> KeySets
    ensures sets { (cat key : ℕ) → is_key_in result.sets cat key
        ≡ is_held_in owners.old number cat key }
    ensures taken { owners.new ≡ map.remove owners.old number }
{
    match owners.remove(number) {
        Some(sets) => sets,
        None => KeySets::new(alloc),
    }
}

// The lesser key of the two that there are.
fn lesser(a: Option<u64>, b: Option<u64>) -> Option<u64>
    ensures { result ≡ lesser a b }
{
    match (a, b) {
        (Some(x), Some(y)) => { if y < x { Some(y) } else { Some(x) } }
        (Some(x), None) => Some(x),
        (None, other) => other,
    }
}

impl HeldCats {
    /// No session has locked a key.
    pub fn new(alloc: Global) -> HeldCats
        ensures { result.owners ≡ map.empty }
    {
        HeldCats {
            owners: NumberMap::new(alloc),
        }
    }

    /// A session has locked a key, whose row becomes this one. `present` is the row from before,
    /// and `committed` the one that the lock keeps.
    pub fn note(
        &mut self,
        alloc: Global,
        owner: Session,
        key: u64,
        present: Option<&Row>,
        committed: Option<&Row>,
        row: Option<&Row>,
    ) -> Result<(), NoMemory>
        requires { AreKnown self.old.owners owner.0 key (option_copied present)
            (option_copied committed) }
        ensures { OnOk result (IsNoted self.old.owners self.new.owners owner.0 key
            (option_copied row.entry) (option_copied committed.entry)) }
    {
        let number = u64::from(owner.0);
        let mut sets = take_sets(alloc, &mut self.owners, number);
        sets.strike(key, present)?;
        sets.strike(key, committed)?;
        sets.list(alloc, key, row)?;
        sets.list(alloc, key, committed)?;
        self.owners.insert(number, sets)?;
        Ok(())
    }

    /// The session's unit is over.
    pub fn end(&mut self, session: Session)
        ensures { self.new.owners ≡ map.remove self.old.owners session.0 }
    {
        self.owners.remove(u64::from(session.0));
    }

    /// The least key that another session has in its set of the `cat`.
    pub fn least(&self, own: Session, cat: u64) -> Option<u64>
        ensures { IsLeastHeld self.now.owners own.0 cat result }
    {
        let mut least = None;
        let mut last = None;
        while let Some((number, sets)) = entry_behind(&self.owners, last) {
            if number != u64::from(own.0) {
                least = lesser(least, sets.behind(cat, None));
            }
            last = Some(number);
        }
        least
    }
}
