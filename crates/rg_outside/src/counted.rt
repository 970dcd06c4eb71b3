// The rules kept here:
//
// 1. Each call that is passed to the volume below is counted once, a failed one too.
// 2. The count stays at 2 ^ 64 - 1 once it stands there, so it never wraps round.
// 3. So the count is at most the number of calls that a known volume has seen.

ghost use Rattle.std.specs.Prelude.{◌≡◌, ◌≤◌, ◌+◌, length};
ghost use Rattle.rg_outside.specs.Moments.{IfTold};

use crate::source::Failed;
use crate::volume::Volume;
use rg_base::set::Set;
use std::marker::Model;

/// A volume whose calls are counted from some moment on.
pub trait Counts: Volume {
    /// The number of calls since then. It stays at 2 ^ 64 - 1 once it stands there.
    fn calls(&self) -> u64
        ensures { IfTold (Self.seen self.now).told (λ t. length t.calls ≡ t.start + result) };
}

/// A volume with a counter. It is known as long as the volume below is and the counter is not at
/// its end.
#[derive(Drop)]
pub struct Counted<V: Volume> {
    volume: V,
    calls: u64,
}

impl<V: Volume> Model for Counted<V> {
    ghost use Rattle.std.specs.Prelude.{◌≤◌, length};
    ghost use Rattle.rg_outside.specs.Moments.{IfTold};
    ghost use Rattle.rg_outside.specs.Counts.{CountedCalls};

    ghost Value = { CountedCalls V };

    ghost view = { λ c. record { volume = c.volume; calls = c.calls } };

    ghost invariant = { λ c. IfTold (V.seen c.volume).told (λ t. c.calls ≤ length t.calls) };
}

impl<V: Volume> Counted<V> {
    /// Begins to count.
    pub fn new(volume: V) -> Counted<V>
        ensures { result ≡ record { volume = volume; calls = 0 } }
    {
        Counted { volume, calls: 0 }
    }

    /// The volume below. Of a known one no more calls were counted than it has had.
    pub fn into_volume(self) -> V
        ensures volume { result ≡ self.volume }
        ensures counted { IfTold (V.seen result).told (λ t. self.calls ≤ length t.calls) }
    {
        let Counted { volume, calls: _ } = self;
        volume
    }
}

impl<V: Volume> Volume for Counted<V> {
    ghost use Rattle.rg_outside.specs.Counts.{counted_seen, counted_capacities, counted_faults};
    ghost use Rattle.rg_outside.specs.Counts.{counted_pages};

    ghost seen = { λ c. counted_seen (V.seen c.volume) c.calls };

    fn capacity(&self, set: Set) -> u32 {
        self.volume.capacity(set)
    }

    fn read(&mut self, set: Set, page: u32, into: &mut [u8; 4096]) -> Result<(), Failed> {
        self.calls = self.calls.saturating_add(1);
        self.volume.read(set, page, into)
    }

    fn write(&mut self, set: Set, page: u32, from: &[u8; 4096]) -> Result<(), Failed> {
        self.calls = self.calls.saturating_add(1);
        self.volume.write(set, page, from)
    }

    fn sync(&mut self) -> Result<(), Failed> {
        self.calls = self.calls.saturating_add(1);
        self.volume.sync()
    }

    ghost told_capacities = { λ c. counted_capacities
        (V.seen c.volume).told (V.seen c.volume).capacities c.calls (V.told_capacities c.volume) };

    ghost told_faults = { λ c. counted_faults
        (V.seen c.volume).told (V.seen c.volume).faults c.calls (V.told_faults c.volume) };

    ghost whole_pages = { λ c. counted_pages
        (V.seen c.volume).told c.calls (V.whole_pages c.volume) };
}

impl<V: Volume> Counts for Counted<V> {
    fn calls(&self) -> u64 {
        self.calls
    }
}
