// The rules for calls that fail or are interrupted are those of `calls.rt`.
ghost use Rattle.std.specs.Prelude.{◌≡◌, ◌≤◌, length, take, IfOk, IfErr, OnErr};
ghost use Rattle.std.specs.Io.KnownBytes.{Appends, Keeps};
ghost use Rattle.rg_outside.specs.Faults.{HasGiveCause};

use crate::calls::write_through;
use crate::faults::Faults;
use rg_outside::sink::{GiveFault, Sink};
use std::io::{Error, Write};

#[cfg(test)]
mod tests;

/// A sink over a writer, as standard output. It reports the bytes that the writer reports, and
/// takes no memory. An interrupted write is tried again, at most [`TRIES`](crate::TRIES) times in
/// all; each write that ended with an error or took none of some bytes is counted as a fault.
#[derive(Drop)]
pub struct OutputSink<W> {
    writer: W,
    faults: Faults,
}

impl<W: Write> OutputSink<W> {
    /// A sink without a fault so far.
    pub fn new(writer: W) -> Self
        ensures { result ≡ record { writer = writer; faults = 0 } }
    {
        OutputSink {
            writer,
            faults: Faults::none(),
        }
    }

    /// The error of the last write that failed.
    pub fn last_error(&self) -> Option<Error> {
        self.faults.last()
    }
}

impl<W: Write> Sink for OutputSink<W> {
    ghost contents = { λ s. W.contents s.writer };

    ghost faults = { λ s. s.faults };

    fn give(&mut self, from: &[u8]) -> Result<usize, GiveFault>
        ensures count { IfOk result (λ n. n ≤ length from.now) }
        ensures kept { IfOk result (λ n. Appends
            (W.contents self.old.writer) (W.contents self.new.writer) (take n from.now)) }
        ensures refused { OnErr result
            (Keeps (W.contents self.old.writer) (W.contents self.new.writer)) }
        ensures cause { HasGiveCause
            self.old.faults self.new.faults (length from.now) result }
        // It is never out of memory.
        ensures failed { IfErr result (λ fault. fault ≡ GiveFault.Failed) }
    {
        match write_through(&mut self.writer, from, &mut self.faults) {
            Ok(n) => Ok(n),
            Err(_) => Err(GiveFault::Failed),
        }
    }
}
