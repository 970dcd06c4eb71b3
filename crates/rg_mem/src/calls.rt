// The calls that a thing in memory was asked for.
//
// 1. A call fails exactly where its number, from 1, is among those that it was made with.
// 2. Each failed call is one more fault, and so is each fault of another cause.
// 3. Both counts stand still at the end of their type.
ghost use Rattle.std.specs.Prelude.{◌≡◌, ◌≤◌, IfOk};
ghost use Rattle.rg_outside.specs.Counts.{count_after};
ghost use Rattle.rg_mem.specs.Tally.{tally_before, next_fails, after_call};

use std::alloc::{AllocError, Global};
use std::marker::Model;

// Which calls fail, by their numbers from 1, how many were made, and how many faults there were.
// Both counts stand still at the end of their type.
#[derive(Drop)]
pub struct Calls {
    failing: Vec<u64>,
    made: u64,
    faults: u64,
}

impl Model for Calls {
    ghost use Rattle.rg_mem.specs.Tally.{Tally};

    ghost Value = { Tally };

    ghost view = { λ c. record { failing = c.failing.items; made = c.made; faults = c.faults } };
}

impl Calls {
    pub fn new(alloc: Global, failing: &[u64]) -> Result<Calls, AllocError>
        ensures { IfOk result (λ calls. calls ≡ tally_before failing.now) }
    {
        Ok(Calls {
            failing: Vec::from_slice(alloc, failing)?,
            made: 0,
            faults: 0,
        })
    }

    // Counts one more call, and answers whether it is to fail. Such a call is a fault.
    pub fn next_fails(&mut self) -> bool
        ensures answer { result ≡ next_fails self.old }
        ensures after { self.new ≡ after_call result self.old }
        ensures later { self.old.faults ≤ self.new.faults }
    {
        self.made = self.made.saturating_add(1);
        let fails = self.failing.contains(&self.made);
        if fails {
            self.faults = self.faults.saturating_add(1);
        }
        fails
    }

    // Counts one more fault.
    pub fn raise(&mut self)
        ensures after { self.new ≡ record self.old { faults = count_after self.old.faults } }
        ensures later { self.old.faults ≤ self.new.faults }
    {
        self.faults = self.faults.saturating_add(1);
    }
}
