// A drain that was asked. The first case that applies decides.
//
// 1. The last iteration would end after the deadline: the utility stops.
// 2. No session holds a class that the drain covers: the drain is granted.
// 3. The drain has waited for DRAIN_WAIT: it is given up, or the utility stops where more drains
//    have failed than RETRY allows.
// 4. The drain waits for the least session that holds such a class.
ghost use Rattle.std.specs.Prelude.{◌≡◌};
ghost use Rattle.rg_model.specs.Verdict.{drain_verdict, retry_verdict};

use crate::numbers::{Numbers, is_late};
use rg_base::control::Answer;
use rg_base::options::Options;
use rg_base::verdict::{DrainVerdict, StopReason};

// The drain has failed once more.
fn decide_retry(options: &Options, numbers: &Numbers) -> DrainVerdict
    ensures { result ≡ retry_verdict options.now numbers.now.failed }
{
    if u32::from(options.retry) <= numbers.failed {
        return DrainVerdict::Stop(StopReason::Drain);
    }
    DrainVerdict::GiveUp
}

/// What becomes of a drain that was asked and is not granted.
pub fn decide_drain(options: &Options, numbers: &Numbers, answer: &Answer) -> DrainVerdict
    ensures { let said = answer.entry.now in result
        ≡ drain_verdict options.now numbers.now.asked numbers.now.failed numbers.now.covered
        said.now said.estimate }
{
    if is_late(options, answer.now, answer.estimate) {
        return DrainVerdict::Stop(StopReason::Deadline);
    }
    let Some(session) = numbers.covered else {
        return DrainVerdict::Granted;
    };
    if u64::from(numbers.asked) + u64::from(options.wait) <= u64::from(answer.now) {
        return decide_retry(options, numbers);
    }
    DrainVerdict::Wait(session)
}
