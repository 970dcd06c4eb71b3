ghost use Rattle.std.specs.Prelude.{◌≡◌, ◌≤◌, Some, None};

use rg_outside::sink::{GiveFault, Sink};
use rg_outside::source::{Failed, Source};
use std::alloc::Global;

/// A source over bytes. A call gives at most `most` of them, and 1 at least. Call `fails_at`,
/// counted from 1, fails.
#[derive(Drop)]
pub struct BytesSource<'a> {
    rest: &'a [u8],
    most: usize,
    fails_at: u64,
    calls: u64,
    faults: u64,
}

impl<'a> BytesSource<'a> {
    pub fn new(rest: &'a [u8], most: usize, fails_at: u64) -> Self {
        BytesSource {
            rest,
            most,
            fails_at,
            calls: 0,
            faults: 0,
        }
    }

    pub fn calls(&self) -> u64 {
        self.calls
    }
}

impl Source for BytesSource<'_> {
    ghost left = { λ s. Some s.rest.now };

    ghost faults = { λ s. s.faults };

    fn take(&mut self, into: &mut [u8]) -> Result<usize, Failed> {
        self.calls = self.calls.saturating_add(1);
        if self.calls == self.fails_at {
            self.faults = self.faults.saturating_add(1);
            return Err(Failed);
        }
        let n = self.most.max(1).min(into.len()).min(self.rest.len());
        let (front, rest) = self.rest.split_at(n);
        into[..n].copy_from_slice(front);
        self.rest = rest;
        Ok(n)
    }
}

/// A source of so many equal bytes, which it doesn't hold. It tells nothing of them.
#[derive(Drop)]
pub struct RubbishSource {
    count: usize,
}

impl RubbishSource {
    pub fn new(count: usize) -> Self {
        RubbishSource { count }
    }

    pub fn left(&self) -> usize {
        self.count
    }
}

impl Source for RubbishSource {
    ghost left = { λ _. None };

    ghost faults = { λ _. 0 };

    fn take(&mut self, into: &mut [u8]) -> Result<usize, Failed> {
        let n = into.len().min(self.count);
        for byte in into[..n].iter_mut() {
            *byte = b'x';
        }
        self.count -= n;
        Ok(n)
    }
}

/// A sink over bytes. A call keeps at most `most` of them, which may be none. Call `fails_at`,
/// counted from 1, is answered `fault`.
#[derive(Drop)]
pub struct BytesSink {
    held: Vec<u8>,
    most: usize,
    fails_at: u64,
    fault: GiveFault,
    calls: u64,
    faults: u64,
}

impl BytesSink {
    pub fn new(alloc: Global, most: usize, fails_at: u64, fault: GiveFault) -> Self {
        BytesSink {
            held: Vec::new(alloc),
            most,
            fails_at,
            fault,
            calls: 0,
            faults: 0,
        }
    }

    pub fn held(&self) -> &[u8] {
        self.held.as_slice()
    }
}

impl Sink for BytesSink {
    ghost contents = { λ s. Some s.held.items };

    ghost faults = { λ s. s.faults };

    fn give(&mut self, from: &[u8]) -> Result<usize, GiveFault> {
        self.calls = self.calls.saturating_add(1);
        if self.calls == self.fails_at {
            match self.fault {
                GiveFault::Failed => {
                    self.faults = self.faults.saturating_add(1);
                    return Err(GiveFault::Failed);
                }
                GiveFault::NoMemory => return Err(GiveFault::NoMemory),
            }
        }
        if self.most == 0 {
            self.faults = self.faults.saturating_add(1);
            return Ok(0);
        }
        let n = self.most.min(from.len());
        match self.held.extend_from_slice(&from[..n]) {
            Ok(()) => Ok(n),
            Err(_) => Err(GiveFault::NoMemory),
        }
    }
}
