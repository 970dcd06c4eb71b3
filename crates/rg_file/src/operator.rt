// An operator over the clock.
// (1) A moment is the number of whole seconds since the operator was made, at most 4294967295.
// (2) Moments never fall. A clock that fails or goes back leaves the last one.
// (3) 1,000 changes are estimated at a second, and a part of a second as a whole one.
// (4) It never commands anything.
ghost use Rattle.std.specs.Prelude.{◌≡◌, ◌≤◌, None};
ghost use Rattle.rg_base.specs.declared.control.Command.TheVariants.{Nothing};
ghost use Rattle.rg_file.specs.Clock.{capped, estimate_of};

use rg_base::control::{Answer, Command};
use rg_outside::operator::Operator;
use std::time::{Clock, Instant};

#[cfg(test)]
mod tests;

/// An operator over the clock, whose moments are the seconds since it was made. It reports nothing
/// of its answers.
#[derive(Drop)]
pub struct ClockOperator<C> {
    clock: C,
    start: Option<Instant>,
    moment: u32,
}

impl<C: Clock> ClockOperator<C> {
    /// An operator that counts from now on. Where the clock fails, it answers moment 0 forever. It
    /// takes no memory.
    pub fn new(clock: C) -> Self
        ensures { result.moment ≡ 0 }
    {
        let start = Instant::now(&clock).ok();
        ClockOperator {
            clock,
            start,
            moment: 0,
        }
    }

    // Whole seconds since the start, where the clock tells.
    fn seconds(&self) -> Option<u64> {
        Some(self.start?.elapsed(&self.clock).ok()?.as_secs())
    }
}

impl<C: Clock + Drop> Operator for ClockOperator<C> {
    ghost answers = { λ _. None };

    ghost last = { λ _. None };

    fn ask(&mut self, left: u64) -> Answer
        ensures estimate { result.estimate ≡ estimate_of left }
        ensures command { result.command ≡ Nothing }
        ensures later { self.old.moment ≤ result.now }
        ensures kept { self.new.moment ≡ result.now }
    {
        if let Some(seconds) = self.seconds() {
            self.moment = self.moment.max(cap(seconds));
        }
        Answer {
            now: self.moment,
            estimate: estimate(left),
            command: Command::Nothing,
        }
    }
}

fn cap(n: u64) -> u32
    ensures { result ≡ capped n }
{
    n.min(u32::MAX as u64) as u32
}

fn estimate(left: u64) -> u32
    ensures { result ≡ estimate_of left }
{
    cap(left.div_ceil(1_000))
}
