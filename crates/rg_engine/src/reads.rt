// SELECT, SCAN and FIND.
//
// 1. Keys are looked up in the indexes, and rows are read from where they lie.
// 2. The reply is a copy. Where there is no memory for it, the statement is out of memory.
// 3. A FIND is held up by a lock of another session that keeps a row with the `cat`, or whose
//    present row has it. The index by `cat` knows the second, so no page is read for it.
ghost use Rattle.std.specs.Prelude.{◌≡◌, ◌<◌, ◌^◌, ℕ, Option, Some, None, IfOk, if◌then◌else◌};
ghost use Rattle.std.specs.Option.{option_copied};
ghost use Rattle.rg_home.specs.Pages.{slot_of};
ghost use Rattle.rg_home.specs.Rows.{row_at};
ghost use Rattle.rg_index.specs.Entries.{entries_within};
ghost use Rattle.rg_btree.specs.Indexes.Listed.{listed_keys, listed_rows};
ghost use Rattle.rg_btree.specs.Indexes.Listings.{entries_of};
ghost use Rattle.rg_model.specs.Held.{find_holder, has_cat, is_held_with_cat, is_others};
ghost use Rattle.rg_model.specs.Plain.{row_reply};
ghost use Rattle.rg_model.specs.State.{State, row_of};
ghost use Rattle.rg_engine.specs.Engine.{HasPages, slots_in};
ghost use Rattle.rg_engine.specs.Shows.{IsShown, Shows};
ghost use Rattle.rg_engine.specs.Steps.{Steps};
ghost use Rattle.rg_engine.specs.Wrote.{SameEngine};

use crate::engine::Engine;
use rg_base::lock::Lock;
use rg_base::no_memory::NoMemory;
use rg_base::place::Place;
use rg_base::row::Row;
use rg_base::session::Session;
use rg_index::index::Index;
use rg_stmt::rows::{Keys, Rows};
use rg_stmt::stmt::{Reply, Stmt};

// The reply to a SELECT that found this, or nothing.
fn reply_of(found: Option<Row>) -> Reply
    ensures { result ≡ row_reply found }
{
    match found {
        Some(row) => Reply::Found(row),
        None => Reply::Absent,
    }
}

// There is a row, and it has this `cat`.
fn has_cat(row: Option<&Row>, cat: u64) -> bool
    ensures { result ≡ has_cat cat (option_copied row.entry) }
{
    match row {
        Some(row) => row.cat == cat,
        None => false,
    }
}

// Another session has the lock.
fn is_others(session: Session, lock: &Lock) -> bool
    ensures { result ≡ is_others session (Some lock.now) }
{
    lock.owner.0 != session.0
}

impl Engine {
    /// The row at a home, if there is one.
    pub fn row_at(&mut self, home: Place) -> Result<Option<Row>, NoMemory>
        requires pages { HasPages self.old }
        ensures same { SameEngine self.old self.new }
        ensures row { IfOk result (λ row. row ≡ row_at (slot_of (slots_in self.old)) home) }
    {
        match self.space.row_at(home) {
            Ok(row) => Ok(row),
            Err(_) => Err(NoMemory),
        }
    }

    // The row of a key, if there is one.
    fn row_of(&mut self, key: u64) -> Result<Option<Row>, NoMemory>
        requires shown { IsShown self.old }
        ensures same { SameEngine self.old self.new }
        ensures row { IfOk result (λ row. (st : State) (allowed : ℕ) → Shows st allowed self.old
            → row_of st.table key ≡ row) }
    {
        let Some(home) = self.indexes.home_of(key) else {
            return Ok(None);
        };
        self.row_at(home)
    }

    /// Looks for the row of a key.
    pub fn select(&mut self, session: Session, key: u64) -> Reply
        requires shown { IsShown self.old }
        ensures { Steps self.old session (Stmt.Select key) result self.new }
    {
        if let Some(owner) = self.holder(session, key) {
            return Reply::Held(owner);
        }
        match self.row_of(key) {
            Ok(found) => reply_of(found),
            Err(_) => Reply::NoMemory,
        }
    }

    // The rows of the keys from `lo` to `hi`, as the index by key lists them.
    fn rows_between(&mut self, lo: u64, hi: u64) -> Result<Vec<Row>, NoMemory>
        requires pages { HasPages self.old }
        ensures same { SameEngine self.old self.new }
        ensures rows { IfOk result (λ rows. rows.items
            ≡ listed_rows (row_at (slot_of (slots_in self.old)))
            (entries_within lo hi (entries_of self.old.indexes.keys))) }
    {
        let listing = self.indexes.keys.range(lo, hi)?;
        let mut rows = Vec::new(self.alloc);
        for entry in listing.as_slice() {
            if let Some(row) = self.row_at(entry.1)? {
                rows.push(row)?;
            }
        }
        Ok(rows)
    }

    /// Looks for the rows of the keys from `lo` to `hi`.
    pub fn scan(&mut self, session: Session, lo: u64, hi: u64) -> Reply
        requires shown { IsShown self.old }
        ensures { Steps self.old session (Stmt.Scan lo hi) result self.new }
    {
        if let Some((_, owner)) = self.locks.first_held(session, lo, hi) {
            return Reply::Held(owner);
        }
        match self.rows_between(lo, hi) {
            Ok(rows) => Reply::Listed(Rows::new(rows)),
            Err(_) => Reply::NoMemory,
        }
    }

    // The row of a key has this `cat`. It reads no page.
    fn is_of_cat(&self, key: u64, cat: u64) -> bool
        ensures { (st : State) (allowed : ℕ) → Shows st allowed self.now
            → result ≡ has_cat cat (row_of st.table key) }
    {
        match self.indexes.home_of(key) {
            Some(home) => self.indexes.has_cat(cat, home),
            None => false,
        }
    }

    // The session that holds a FIND of this `cat` up by the lock of this key.
    fn holding_up(&self, session: Session, cat: u64, key: u64, lock: &Lock) -> Option<Session>
        ensures holding { (st : State) (allowed : ℕ) → Shows st allowed self.now
            → result ≡ (if is_held_with_cat st.table session cat (key, lock.now)
            then Some lock.now.owner
            else None) }
        ensures fits { key < 2 ^ 64 }
    {
        if !is_others(session, lock) {
            return None;
        }
        if self.is_of_cat(key, cat) || has_cat(lock.row.as_ref(), cat) {
            return Some(lock.owner);
        }
        None
    }

    // The other session that has the least key whose present or kept row has the `cat`.
    fn find_holder(&self, session: Session, cat: u64) -> Option<Session>
        ensures { (st : State) (allowed : ℕ) → Shows st allowed self.now
            → result ≡ find_holder st.table st.locks session cat }
    {
        let locks = self.locks.as_map();
        let mut next = locks.first_from(0);
        while let Some((key, lock)) = next {
            if let Some(owner) = self.holding_up(session, cat, key, lock) {
                return Some(owner);
            }
            next = locks.first_after(key);
        }
        None
    }

    // The keys of the rows with this `cat`, in the order of their entries.
    fn listed_keys(&mut self, cat: u64) -> Result<Vec<u64>, NoMemory>
        requires pages { HasPages self.old }
        ensures same { SameEngine self.old self.new }
        ensures keys { IfOk result (λ keys. keys.items
            ≡ listed_keys (row_at (slot_of (slots_in self.old)))
            (entries_within cat cat (entries_of self.old.indexes.cats))) }
    {
        let listing = self.indexes.cats.range(cat, cat)?;
        let mut keys = Vec::new(self.alloc);
        for entry in listing.as_slice() {
            if let Some(row) = self.row_at(entry.1)? {
                keys.push(row.key)?;
            }
        }
        Ok(keys)
    }

    /// Looks for the keys of the rows with this `cat`.
    pub fn find(&mut self, session: Session, cat: u64) -> Reply
        requires shown { IsShown self.old }
        ensures { Steps self.old session (Stmt.Find cat) result self.new }
    {
        if let Some(owner) = self.find_holder(session, cat) {
            return Reply::Held(owner);
        }
        match self.listed_keys(cat) {
            Ok(mut keys) => {
                keys.sort_unstable();
                Reply::Keyed(Keys::new(keys))
            }
            Err(_) => Reply::NoMemory,
        }
    }
}
