// The rules for calls that fail or are interrupted are those of `calls.rt`.
ghost use Rattle.std.specs.Prelude.{◌≡◌};

use crate::calls::read_through;
use crate::faults::Faults;
use rg_outside::source::{Failed, Source};
use std::io::{Error, Read};

#[cfg(test)]
mod tests;

/// A source over a reader, as standard input. It reports the bytes that the reader reports. An
/// interrupted read is tried again, at most [`TRIES`](crate::TRIES) times in all; each read that
/// ended with an error is counted as a fault.
#[derive(Drop)]
pub struct InputSource<R> {
    reader: R,
    faults: Faults,
}

impl<R: Read> InputSource<R> {
    /// A source without a fault so far. It takes no memory.
    pub fn new(reader: R) -> Self
        ensures { result ≡ record { reader = reader; faults = 0 } }
    {
        InputSource {
            reader,
            faults: Faults::none(),
        }
    }

    /// The error of the last read that failed.
    pub fn last_error(&self) -> Option<Error> {
        self.faults.last()
    }
}

impl<R: Read> Source for InputSource<R> {
    ghost left = { λ s. R.remaining s.reader };

    ghost faults = { λ s. s.faults };

    fn take(&mut self, into: &mut [u8]) -> Result<usize, Failed> {
        read_through(&mut self.reader, into, &mut self.faults)
    }
}
