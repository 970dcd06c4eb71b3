ghost use Rattle.std.specs.Prelude.{◌≡◌, ◌≤◌, ◌++◌, length, take, drop, min, is_err, IsOk, IfOk};
ghost use Rattle.std.specs.Prelude.{OnErr};
ghost use Rattle.rg_mem.specs.Tally.{tally_before, next_fails, after_call};

use crate::calls::Calls;
use rg_base::no_memory::NoMemory;
use rg_outside::source::{Failed, Source};
use std::alloc::Global;
use std::marker::Model;

/// A source over bytes. No call of it fails.
#[derive(Drop)]
pub struct SureSource {
    bytes: Vec<u8>,
    next: usize,
}

impl Model for SureSource {
    ghost use Rattle.std.specs.Prelude.{◌≤◌, ℕ, List, drop, vec_len};

    ghost Value = { List ℕ };

    ghost view = { λ s. drop s.next s.bytes.items };

    ghost invariant = { λ s. s.next ≤ vec_len s.bytes };
}

impl SureSource {
    pub fn new(alloc: Global, bytes: &[u8]) -> Result<SureSource, NoMemory>
        ensures { IfOk result (λ source. source ≡ bytes.now) }
    {
        Ok(SureSource {
            bytes: Vec::from_slice(alloc, bytes)?,
            next: 0,
        })
    }

    // Puts the next bytes at the front of `into`, as many as fit, and answers how many.
    fn fill(&mut self, into: &mut [u8]) -> usize
        ensures count { result ≡ min (length into.old) (length self.old) }
        ensures filled { into.new ≡ take result self.old ++ drop result into.old }
        ensures left { self.new ≡ drop result self.old }
    {
        let left = &self.bytes[self.next..];
        let n = into.len().min(left.len());
        into[..n].copy_from_slice(&left[..n]);
        self.next += n;
        n
    }
}

impl Source for SureSource {
    ghost use Rattle.std.specs.Prelude.{Some};

    ghost left = { λ s. Some s };

    ghost faults = { λ _. 0 };

    fn take(&mut self, into: &mut [u8]) -> Result<usize, Failed>
        ensures ok { IsOk result }
        ensures count { IfOk result (λ n. n ≡ min (length into.old) (length self.old)) }
        ensures filled { IfOk result (λ n. into.new ≡ take n self.old ++ drop n into.old) }
        ensures left { IfOk result (λ n. self.new ≡ drop n self.old) }
    {
        Ok(self.fill(into))
    }
}

/// A source over bytes, some of whose calls fail.
#[derive(Drop)]
pub struct MemSource {
    bytes: SureSource,
    calls: Calls,
}

impl Model for MemSource {
    ghost use Rattle.rg_mem.specs.Source.{SourceState};

    ghost Value = { SourceState };

    ghost view = { λ s. record { left = s.bytes; calls = s.calls } };
}

impl MemSource {
    /// The calls of `take` whose numbers, counted from 1, stand in `failing` fail.
    pub fn new(alloc: Global, bytes: &[u8], failing: &[u64]) -> Result<MemSource, NoMemory>
        ensures left { IfOk result (λ source. source.left ≡ bytes.now) }
        ensures calls { IfOk result (λ source. source.calls ≡ tally_before failing.now) }
    {
        Ok(MemSource {
            bytes: SureSource::new(alloc, bytes)?,
            calls: Calls::new(alloc, failing)?,
        })
    }
}

impl Source for MemSource {
    ghost use Rattle.std.specs.Prelude.{Some};

    ghost left = { λ s. Some s.left };

    ghost faults = { λ s. s.calls.faults };

    fn take(&mut self, into: &mut [u8]) -> Result<usize, Failed>
        ensures fails { is_err result ≡ next_fails self.old.calls }
        ensures calls { self.new.calls ≡ after_call (is_err result) self.old.calls }
        ensures later { self.old.calls.faults ≤ self.new.calls.faults }

        ensures count { IfOk result (λ n. n ≡ min (length into.old) (length self.old.left)) }
        ensures filled { IfOk result (λ n. into.new ≡ take n self.old.left ++ drop n into.old) }
        ensures left { IfOk result (λ n. self.new.left ≡ drop n self.old.left) }

        ensures kept { OnErr result (self.new.left ≡ self.old.left) }
        ensures untouched { OnErr result (into.new ≡ into.old) }
    {
        if self.calls.next_fails() {
            return Err(Failed);
        }
        Ok(self.bytes.fill(into))
    }
}
