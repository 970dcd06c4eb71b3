// Tests of sameness: of what a utility's events name.
ghost use Rattle.std.specs.Prelude.{◌≡◌};
ghost use Rattle.rg_model.specs.Same.{same_drain, same_reason, same_verdict, same_which};

use rg_base::options::DrainFor;
use rg_base::verdict::{StopReason, Verdict};
use rg_base::which::Which;

/// The indexes are the same.
pub fn same_which(a: Which, b: Which) -> bool
    ensures { result ≡ same_which a b }
{
    matches!(
        (a, b),
        (Which::Key, Which::Key) | (Which::Clus, Which::Clus) | (Which::Cat, Which::Cat)
    )
}

/// The drains are for the same.
pub fn same_drain(a: DrainFor, b: DrainFor) -> bool
    ensures { result ≡ same_drain a b }
{
    matches!(
        (a, b),
        (DrainFor::Writers, DrainFor::Writers) | (DrainFor::All, DrainFor::All)
    )
}

/// The reasons are the same.
pub fn same_reason(a: StopReason, b: StopReason) -> bool
    ensures { result ≡ same_reason a b }
{
    matches!(
        (a, b),
        (StopReason::Term, StopReason::Term)
            | (StopReason::Deadline, StopReason::Deadline)
            | (StopReason::Longlog, StopReason::Longlog)
            | (StopReason::Drain, StopReason::Drain)
            | (StopReason::NoSpace, StopReason::NoSpace)
            | (StopReason::Device, StopReason::Device)
            | (StopReason::NoMemory, StopReason::NoMemory)
    )
}

/// The verdicts are the same.
pub fn same_verdict(a: Verdict, b: Verdict) -> bool
    ensures { result ≡ same_verdict a b }
{
    match (a, b) {
        (Verdict::More, Verdict::More)
        | (Verdict::Next, Verdict::Next)
        | (Verdict::Message, Verdict::Message) => true,
        (Verdict::Drain(x), Verdict::Drain(y)) => same_drain(x, y),
        (Verdict::Stop(x), Verdict::Stop(y)) => same_reason(x, y),
        _ => false,
    }
}
