// The failed calls of one thing outside.
// (1) Each is counted once. The count stands still at 2 ^ 64 - 1.
// (2) The error of the last one is kept: it says why a call of the program failed. No clause speaks
//     of it, since what a system says of an error is its own.
ghost use Rattle.std.specs.Prelude.{◌≡◌, ◌≤◌, Ok, IsErr, MatchResult};
ghost use Rattle.rg_outside.specs.Faults.{HasCause, Rose};
ghost use Rattle.rg_outside.specs.Counts.{count_after};

use rg_outside::source::Failed;
use std::io::{self, Error};
use std::marker::Model;

#[cfg(test)]
mod tests;

/// A count of failed calls, and the error of the last of them.
#[derive(Drop)]
pub struct Faults {
    count: u64,
    last: Option<Error>,
}

impl Model for Faults {
    ghost use Rattle.std.specs.Prelude.{ℕ, ◌<◌, ◌^◌};

    ghost Value = { ℕ };

    ghost view = { λ f. f.count };

    ghost invariant = { λ f. f.count < 2 ^ 64 };
}

impl Faults {
    /// No call has failed yet.
    pub fn none() -> Faults
        ensures { result ≡ 0 }
    {
        Faults {
            count: 0,
            last: None,
        }
    }

    /// Counts one fault more.
    pub fn raise(&mut self, error: Error)
        ensures raised { self.new ≡ count_after self.old }
        ensures later { self.old ≤ self.new }
        ensures rose { Rose self.old self.new }
    {
        self.count = self.count.saturating_add(1);
        self.last = Some(error);
    }

    /// Passes on what a call came to, and counts its error.
    pub fn pass<T>(&mut self, came: io::Result<T>) -> Result<T, Failed>
        ensures came { MatchResult came (λ value. result ≡ Ok value) (λ _. IsErr result) }
        ensures cause { HasCause self.old self.new result }
    {
        match came {
            Ok(value) => Ok(value),
            Err(error) => {
                self.raise(error);
                Err(Failed)
            }
        }
    }

    /// How many calls have failed.
    pub fn count(&self) -> u64
        ensures { result ≡ self.now }
    {
        self.count
    }

    /// The error of the last call that failed.
    pub fn last(&self) -> Option<Error> {
        self.last
    }
}
