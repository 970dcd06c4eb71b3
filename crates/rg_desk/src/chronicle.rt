// The entries of a desk, in order.
//
// 1. The room of an entry is taken before anything is done for it. So what was done always has its
//    entry.
// 2. The entries of earlier openings come before those from the opening on, in the one vector.
//    Joining them later would take memory.
ghost use Rattle.std.specs.Prelude.{◌≡◌, ◌≤◌, ◌+◌, ◌++◌, ◌∷◌, [], OnOk, OnErr};
ghost use Rattle.rg_desk.specs.Chronicle.{IsEntry, IsRecorded};

use rg_base::no_memory::NoMemory;
use rg_stmt::event::Entry;
use std::marker::Model;

/// The entries so far, of which some are older than the opening, and room for more.
#[derive(Drop)]
pub struct Chronicle {
    trace: Vec<Entry>,
    older: usize,
    spare: usize,
    calls: u64,
}

impl Model for Chronicle {
    ghost use Rattle.std.specs.Prelude.{◌≤◌, ◌+◌, drop, length, take, vec_len, vec_capacity};
    ghost use Rattle.rg_desk.specs.Chronicle.{ChronicleState, IsRecorded};

    ghost Value = { ChronicleState };

    ghost view = { λ c. record {
      older = take c.older c.trace.items;
      trace = drop c.older c.trace.items;
      spare = c.spare;
      calls = c.calls;
    } };

    ghost invariant = { λ c. (vec_len c.trace + c.spare ≤ vec_capacity c.trace)
        × (c.older ≤ length c.trace.items) × IsRecorded c.trace.items c.calls };
}

impl Chronicle {
    /// No entries but these older ones, up to which there were so many calls.
    pub fn over(trace: Vec<Entry>, calls: u64) -> Chronicle
        requires { IsRecorded trace.items calls }
        ensures { result ≡ record { older = trace.items; trace = []; spare = 0; calls = calls } }
    {
        let older = trace.len();
        Chronicle {
            trace,
            older,
            spare: 0,
            calls,
        }
    }

    /// Afterwards there is room for an entry.
    pub fn make_room(&mut self) -> Result<(), NoMemory>
        ensures ok { OnOk result (1 ≤ self.new.spare) }
        ensures older { self.new.older ≡ self.old.older }
        ensures trace { self.new.trace ≡ self.old.trace }
        ensures calls { self.new.calls ≡ self.old.calls }
        ensures err { OnErr result (self.new ≡ self.old) }
    {
        if self.spare > 0 {
            return Ok(());
        }
        self.trace.reserve(1)?;
        self.spare = 1;
        Ok(())
    }

    /// Appends an entry. It takes no memory.
    pub fn push(&mut self, entry: Entry)
        requires spare { 1 ≤ self.old.spare }
        requires calls { self.old.calls ≤ entry.calls }
        requires entry { IsEntry entry }
        ensures older { self.new.older ≡ self.old.older }
        ensures trace { self.new.trace ≡ self.old.trace ++ entry ∷ [] }
        ensures spare { self.new.spare + 1 ≡ self.old.spare }
        ensures calls { self.new.calls ≡ entry.calls }
        ensures recorded { IsRecorded self.new.trace self.new.calls }
    {
        self.calls = entry.calls;
        self.trace.push_reserved(entry);
        self.spare -= 1;
    }

    /// How many volume calls there were up to the last entry.
    pub fn calls(&self) -> u64
        ensures { result ≡ self.now.calls }
    {
        self.calls
    }

    /// The entries from the opening on.
    pub fn trace(&self) -> &[Entry]
        ensures { result.now ≡ self.now.trace }
    {
        &self.trace[self.older..]
    }

    /// All entries themselves.
    pub fn into_trace(self) -> Vec<Entry>
        ensures trace { result.items ≡ self.older ++ self.trace }
        ensures recorded { IsRecorded result.items self.calls }
    {
        let Chronicle { trace, .. } = self;
        trace
    }
}
