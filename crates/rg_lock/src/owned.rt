// The keys of each session's locks, in one list for each session number.
// (1) A session's list has exactly the keys that it has locked, each once; so the end of a unit
//     looks at its own locks only.
// (2) A list keeps its room when a key is taken off.
ghost use Rattle.std.specs.Prelude.{◌≡◌, ℕ, vec_len, [], OnOk, OnErr, IfOk, MatchOption};
ghost use Rattle.rg_lock.specs.Owned.{keys_in, IsAppended, SameKeys};

use rg_base::no_memory::NoMemory;
use rg_base::session::Session;
use std::alloc::Global;

/// An empty list for each number that a session can have.
pub fn empty_lists(alloc: Global) -> Result<Vec<Vec<u64>>, NoMemory>
    ensures len { IfOk result (λ lists. vec_len lists ≡ 256) }
    ensures none { IfOk result (λ lists. (n : ℕ) → keys_in lists.items n ≡ []) }
{
    let mut lists = Vec::with_capacity(alloc, 256)?;
    for _number in 0..256usize {
        lists.push(Vec::new(alloc))?;
    }
    Ok(lists)
}

/// Puts a key at the end of a session's list.
pub fn push_key(lists: &mut Vec<Vec<u64>>, session: Session, key: u64) -> Result<(), NoMemory>
    requires { vec_len lists.old ≡ 256 }
    ensures len { vec_len lists.new ≡ 256 }
    ensures ok { OnOk result (IsAppended lists.old.items lists.new.items session.0 key) }
    ensures err { OnErr result (SameKeys lists.old.items lists.new.items) }
{
    match lists[usize::from(session.0)].push(key) {
        Ok(()) => Ok(()),
        Err(_) => Err(NoMemory),
    }
}

/// Takes the last key off a session's list. The list keeps its room.
pub fn pop_key(lists: &mut Vec<Vec<u64>>, session: Session) -> Option<u64>
    requires { vec_len lists.old ≡ 256 }
    ensures len { vec_len lists.new ≡ 256 }
    ensures keys { MatchOption result
        ((keys_in lists.old.items session.0 ≡ []) × SameKeys lists.old.items lists.new.items)
        (λ key. IsAppended lists.new.items lists.old.items session.0 key) }
{
    lists[usize::from(session.0)].pop()
}
