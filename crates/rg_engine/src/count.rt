// How many rows are committed.
//
// 1. They are the present rows of the keys that are not locked, and the rows that locks keep.
// 2. The locks are walked twice: what is taken off comes first, so that no number is above the
//    last one.
ghost use Rattle.std.specs.Prelude.{◌≡◌, ◌≤◌, ◌<◌, ◌+◌, ◌^◌, ℕ, true, is_some};
ghost use Rattle.rg_model.specs.Committed.{committed_table};
ghost use Rattle.rg_model.specs.State.{State, is_present, row_count};
ghost use Rattle.rg_engine.specs.Count.{IsShownFew, locked_present, one_of};
ghost use Rattle.rg_engine.specs.Shows.{IsShown, Shows};

use crate::engine::Engine;
use rg_base::lock::Lock;

// One less, where there is one.
fn less(count: u64, one: bool) -> u64
    requires { one_of one ≤ count }
    ensures { result + one_of one ≡ count }
{
    if one { count - 1 } else { count }
}

// One more, where there is one.
fn more(count: u64, one: bool) -> u64
    requires { count + one_of one < 2 ^ 64 }
    ensures { result ≡ count + one_of one }
{
    if one { count + 1 } else { count }
}

// The lock of a key keeps a row.
fn has_kept(key: u64, lock: &Lock) -> bool
    ensures kept { result ≡ is_some lock.now.row }
    ensures fits { key < 2 ^ 64 }
{
    lock.row.is_some()
}

impl Engine {
    // The key has a row.
    fn has_row(&self, key: u64) -> bool
        ensures there { (st : State) (allowed : ℕ) → Shows st allowed self.now
            → result ≡ is_present st.table key }
        ensures fits { key < 2 ^ 64 }
    {
        match self.indexes.home_of(key) {
            Some(_) => true,
            None => false,
        }
    }

    /// The number of rows whose keys are not locked. It looks at each lock.
    pub fn unlocked_rows(&self) -> u64
        requires { IsShown self.now }
        ensures { (st : State) (allowed : ℕ) → Shows st allowed self.now
            → result + locked_present st ≡ row_count st.table }
    {
        let locks = self.locks.as_map();
        let mut count = self.indexes.len() as u64;
        let mut next = locks.first_from(0);
        while let Some((key, _)) = next {
            count = less(count, self.has_row(key));
            next = locks.first_after(key);
        }
        count
    }

    /// The number of committed rows. It looks at each lock.
    pub fn committed_rows(&self) -> u64
        requires { IsShownFew self.now }
        ensures { (st : State) (allowed : ℕ) → Shows st allowed self.now
            → result ≡ row_count (committed_table st) }
    {
        let locks = self.locks.as_map();
        let mut count = self.unlocked_rows();
        let mut next = locks.first_from(0);
        while let Some((key, lock)) = next {
            count = more(count, has_kept(key, lock));
            next = locks.first_after(key);
        }
        count
    }
}
