// The end of an iteration over the log. The first case that applies decides.
//
// 1. The last iteration would end after the deadline: the utility stops.
// 2. The last iteration would be short enough by MAXRO, and a drain may be asked: it is asked.
// 3. As many changes are left as the iteration had, and there are some: the log doesn't grow
//    shorter. Where no message stands, one is given. While it stands for less than DELAY, the next
//    iteration begins. After that LONGLOG decides: the utility stops, asks the drain if it may, or
//    goes on.
// 4. The next iteration begins, and a message no longer stands.
ghost use Rattle.std.specs.Prelude.{◌≡◌, ◌≢◌};
ghost use Rattle.rg_model.specs.Verdict.{is_short, is_slow, iteration_verdict, longlog_verdict};
ghost use Rattle.rg_model.specs.Verdict.{slow_verdict};

use crate::numbers::{Numbers, is_late, may_drain};
use rg_base::control::{Answer, Longlog, Maxro};
use rg_base::options::Options;
use rg_base::verdict::{StopReason, Verdict};

fn is_short(maxro: Maxro, estimate: u32) -> bool
    ensures { result ≡ is_short maxro estimate }
{
    match maxro {
        Maxro::Defer => false,
        Maxro::Within(limit) => estimate <= limit,
    }
}

fn is_slow(numbers: &Numbers) -> bool
    ensures { result ≡ is_slow numbers.now.left numbers.now.size }
{
    numbers.left >= numbers.size && numbers.left > 0
}

// The message has stood for DELAY.
fn decide_longlog(options: &Options, numbers: &Numbers, now: u32) -> Verdict
    ensures { result ≡ longlog_verdict options.now numbers.now.gave_up now options.now.longlog }
{
    match options.longlog {
        Longlog::Term => Verdict::Stop(StopReason::Longlog),
        Longlog::Drain if may_drain(options, numbers, now) => Verdict::Drain(options.drain),
        Longlog::Drain | Longlog::Continue => Verdict::Next,
    }
}

// The log doesn't grow shorter.
fn decide_slow(options: &Options, numbers: &Numbers, now: u32) -> Verdict
    ensures { result ≡ slow_verdict options.now numbers.now.gave_up numbers.now.message now }
{
    match numbers.message {
        None => Verdict::Message,
        Some(moment) if u64::from(now) < u64::from(moment) + u64::from(options.delay) => {
            Verdict::Next
        }
        Some(_) => decide_longlog(options, numbers, now),
    }
}

/// What follows an iteration that is at its end.
pub fn decide_iteration(options: &Options, numbers: &Numbers, answer: &Answer) -> Verdict
    ensures ended { result ≢ Verdict.More }
    ensures verdict { let said = answer.entry.now in result
        ≡ iteration_verdict options.now numbers.now.left numbers.now.size
        numbers.now.gave_up numbers.now.message said.now said.estimate }
{
    if is_late(options, answer.now, answer.estimate) {
        return Verdict::Stop(StopReason::Deadline);
    }
    if is_short(options.maxro, answer.estimate) && may_drain(options, numbers, answer.now) {
        return Verdict::Drain(options.drain);
    }
    if is_slow(numbers) {
        return decide_slow(options, numbers, answer.now);
    }
    Verdict::Next
}
