ghost use Rattle.std.specs.Prelude.{◌≡◌, ◌↔◌, Some, Err, OnOk, OnErr, IfOk};
ghost use Rattle.std.specs.FinMap as map;
ghost use Rattle.std.specs.Option.{option_copied};
ghost use Rattle.rg_model.specs.Committed.{locks_without};
ghost use Rattle.rg_lock.specs.First.{IsFirstHeld};
ghost use Rattle.rg_lock.specs.Held.{kept_row};
ghost use Rattle.rg_model.specs.Held.{owner_of, other_owner};
ghost use Rattle.rg_lock.specs.Released.{Releases};
ghost use Rattle.rg_lock.specs.Taken.{take_key, TakeResult};

use crate::owned::{empty_lists, pop_key, push_key};
use rg_base::lock::Lock;
use rg_base::map::NumberMap;
use rg_base::no_memory::NoMemory;
use rg_base::row::Row;
use rg_base::session::Session;
use std::alloc::Global;
use std::marker::Model;
use thiserror::Error;

/// Why a key was not locked.
#[derive(Clone, Copy, Debug, PartialEq, Eq, Error)]
pub enum LockFault {
    #[error("session {} has the lock", owner.0)]
    Held { owner: Session },
    #[error("out of memory")]
    NoMemory,
}

/// The locks of keys. A lock is held from the first write of its key to the end of its session's
/// unit, and keeps the committed row of the key until then.
#[derive(Drop)]
pub struct Locks {
    locks: NumberMap<Lock>,
    // The keys of each session's locks, so that its end need not look at those of others.
    owned: Vec<Vec<u64>>,
}

impl Model for Locks {
    ghost use Rattle.std.specs.Coded.{coded_ℕ};
    ghost use Rattle.std.specs.FinMap as map;
    ghost use Rattle.rg_base.specs.contracts.lock.Lock as kept;
    ghost use Rattle.rg_model.specs.State as model;

    ghost Value = { model.Locks };

    ghost coded = { map.code coded_ℕ kept.the_row.coded };

    ghost use Rattle.rg_lock.specs.Owned as lists;

    ghost view = { λ s. s.locks };

    ghost invariant = { λ s. lists.HasLists s.locks s.owned };
}

impl Locks {
    /// No locks. It takes memory for one empty list of keys for each session number.
    pub fn new(alloc: Global) -> Result<Self, NoMemory>
        ensures { IfOk result (λ locks. locks ≡ map.empty) }
    {
        Ok(Locks {
            locks: NumberMap::new(alloc),
            owned: empty_lists(alloc)?,
        })
    }

    /// Locks a key for a session, and keeps the committed row of the key. A key that the session
    /// has locked already keeps the row of the first time: what is in the table since then is the
    /// session's own.
    pub fn take(
        &mut self,
        session: Session,
        key: u64,
        committed: Option<Row>,
    ) -> Result<(), LockFault>
        ensures ok { OnOk result (self.new ≡ take_key self.old session key committed) }
        ensures answer { TakeResult session (map.get self.old key) result }
        ensures held { (owner : Session)
            → (result ≡ Err (LockFault.Held owner))
            ↔ (other_owner session (map.get self.old key) ≡ Some owner) }
        ensures err { OnErr result (self.new ≡ self.old) }
    {
        if let Some(kept) = self.locks.get(key) {
            if kept.owner.0 == session.0 {
                return Ok(());
            }
            return Err(LockFault::Held { owner: kept.owner });
        }
        let kept = Lock {
            owner: session,
            row: committed,
        };
        if let Err(NoMemory) = self.locks.insert(key, kept) {
            return Err(LockFault::NoMemory);
        }
        if let Err(NoMemory) = push_key(&mut self.owned, session, key) {
            self.locks.remove(key);
            return Err(LockFault::NoMemory);
        }
        Ok(())
    }

    /// The locks of all keys, in the order of the keys.
    pub fn as_map(&self) -> &NumberMap<Lock>
        ensures { result.now ≡ self.now }
    {
        &self.locks
    }

    /// The session that holds a key.
    pub fn owner(&self, key: u64) -> Option<Session>
        ensures { result ≡ owner_of (map.get self.now key) }
    {
        match self.locks.get(key) {
            Some(kept) => Some(kept.owner),
            None => None,
        }
    }

    /// The row that the lock of a key keeps. None if the key is not locked, or had no row.
    pub fn kept(&self, key: u64) -> Option<&Row>
        ensures { option_copied result ≡ kept_row (map.get self.now key) }
    {
        match self.locks.get(key) {
            Some(kept) => kept.row.as_ref(),
            None => None,
        }
    }

    /// The least key from `lo` to `hi`, both included, that another session has locked, with that
    /// session. On the way it looks at the session's own locks only.
    pub fn first_held(&self, session: Session, lo: u64, hi: u64) -> Option<(u64, Session)>
        ensures { IsFirstHeld self.now session lo hi result }
    {
        let mut from = lo;
        while from <= hi {
            let Some((key, kept)) = self.locks.first_from(from) else {
                return None;
            };
            if key > hi {
                return None;
            }
            if kept.owner.0 != session.0 {
                return Some((key, kept.owner));
            }
            if key == hi {
                return None;
            }
            from = key + 1;
        }
        None
    }

    /// Releases one of a session's locks, and returns its key and the row that it kept; the order
    /// is not specified. None if the session has no lock. It takes no memory.
    pub fn release(&mut self, session: Session) -> Option<(u64, Option<Row>)>
        ensures { Releases session self.old self.new result }
    {
        let key = pop_key(&mut self.owned, session)?;
        let kept = self.locks.remove(key)?;
        Some((key, kept.row))
    }

    /// Releases all locks of a session. It takes no memory, and looks at this session's locks only.
    pub fn end(&mut self, session: Session)
        ensures { self.new ≡ locks_without session self.old }
    {
        while let Some(_released) = self.release(session) {}
    }
}
