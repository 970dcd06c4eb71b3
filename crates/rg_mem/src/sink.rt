ghost use Rattle.std.specs.Prelude.{◌≡◌, ◌<◌, ◌≤◌, ◌↔◌, [], ◌++◌, length, take, min, IsTrue, IfOk};
ghost use Rattle.std.specs.Prelude.{OnOk, IfErr, OnErr};
ghost use Rattle.rg_mem.specs.Tally.{tally_before, next_fails, after_call};
ghost use Rattle.rg_mem.specs.Sink.{is_give_fault};

use crate::calls::Calls;
use rg_base::no_memory::NoMemory;
use rg_outside::sink::{GiveFault, Sink};
use std::alloc::Global;
use std::marker::Model;

/// A sink that holds each piece whole.
#[derive(Drop)]
pub struct SureSink {
    bytes: Vec<u8>,
}

impl Model for SureSink {
    ghost use Rattle.std.specs.Prelude.{ℕ, List};

    ghost Value = { List ℕ };

    ghost view = { λ s. s.bytes.items };
}

impl SureSink {
    pub fn new(alloc: Global) -> Result<SureSink, NoMemory>
        ensures { result ≡ Ok [] }
    {
        Ok(SureSink {
            bytes: Vec::new(alloc),
        })
    }

    /// What it holds.
    pub fn bytes(&self) -> &[u8]
        ensures { result.now ≡ self.now }
    {
        &self.bytes
    }
}

impl Sink for SureSink {
    ghost use Rattle.std.specs.Prelude.{Some};

    ghost contents = { λ s. Some s };

    ghost faults = { λ _. 0 };

    fn give(&mut self, from: &[u8]) -> Result<usize, GiveFault>
        ensures count { IfOk result (λ n. n ≡ length from.now) }
        ensures kept { OnOk result (self.new ≡ self.old ++ from.now) }
        ensures memory { IfErr result (λ fault. fault ≡ GiveFault.NoMemory) }
        ensures wanting { OnErr result (0 < length from.now) }
        ensures refused { OnErr result (self.new ≡ self.old) }
    {
        match self.bytes.extend_from_slice(from) {
            Ok(()) => Ok(from.len()),
            Err(_) => Err(GiveFault::NoMemory),
        }
    }
}

/// A sink that holds what it keeps of each piece, and some of whose calls fail.
#[derive(Drop)]
pub struct MemSink {
    kept: SureSink,
    most: u32,
    calls: Calls,
}

impl Model for MemSink {
    ghost use Rattle.rg_mem.specs.Sink.{SinkState};

    ghost Value = { SinkState };

    ghost view = { λ s. record { held = s.kept; most = s.most; calls = s.calls } };
}

impl MemSink {
    /// The calls of `give` whose numbers, counted from 1, stand in `failing` fail. The others keep
    /// at most `most` bytes of the piece.
    pub fn new(alloc: Global, failing: &[u64], most: u32) -> Result<MemSink, NoMemory>
        ensures held { IfOk result (λ sink. sink.held ≡ []) }
        ensures most { IfOk result (λ sink. sink.most ≡ most) }
        ensures calls { IfOk result (λ sink. sink.calls ≡ tally_before failing.now) }
    {
        Ok(MemSink {
            kept: SureSink::new(alloc)?,
            most,
            calls: Calls::new(alloc, failing)?,
        })
    }

    /// What it holds.
    pub fn bytes(&self) -> &[u8]
        ensures { result.now ≡ self.now.held }
    {
        self.kept.bytes()
    }
}

impl Sink for MemSink {
    ghost use Rattle.std.specs.Prelude.{Some};

    ghost contents = { λ s. Some s.held };

    ghost faults = { λ s. s.calls.faults };

    fn give(&mut self, from: &[u8]) -> Result<usize, GiveFault>
        ensures failed { (result ≡ Err GiveFault.Failed) ↔ IsTrue (next_fails self.old.calls) }
        ensures wanting { result ≡ Err GiveFault.NoMemory
            → 0 < min (length from.now) self.old.most }
        ensures calls { self.new.calls
            ≡ after_call (is_give_fault (length from.now) result) self.old.calls }
        ensures later { self.old.calls.faults ≤ self.new.calls.faults }

        ensures count { IfOk result (λ n. n ≡ min (length from.now) self.old.most) }
        ensures kept { IfOk result (λ n. self.new.held ≡ self.old.held ++ take n from.now) }
        ensures refused { OnErr result (self.new.held ≡ self.old.held) }
        ensures most { self.new.most ≡ self.old.most }
    {
        if self.calls.next_fails() {
            return Err(GiveFault::Failed);
        }
        let n = from.len().min(self.most as usize);
        self.kept.give(&from[..n])?;
        if n == 0 && !from.is_empty() {
            self.calls.raise();
        }
        Ok(n)
    }
}
