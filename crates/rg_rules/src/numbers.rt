ghost use Rattle.std.specs.Prelude.{◌≡◌};
ghost use Rattle.rg_model.specs.Verdict.{is_late, may_drain};

use rg_base::control::Deadline;
use rg_base::options::Options;
use rg_base::session::Session;

/// The numbers of a running utility that its decisions look at. Moments are in seconds, on the
/// operator's scale.
#[derive(Clone, Copy, Debug, PartialEq, Eq)]
pub struct Numbers {
    /// The changes of the log that are not taken.
    pub left: u64,
    /// The changes that the iteration had when it began.
    pub size: u64,
    /// When the drain was asked.
    pub asked: u32,
    /// When a drain was last given up.
    pub gave_up: Option<u32>,
    /// Since when the message stands that the log doesn't grow shorter.
    pub message: Option<u32>,
    /// How many drains were given up.
    pub failed: u32,
    /// The least session that holds a class that the drain covers.
    pub covered: Option<Session>,
}

/// Whether the last iteration would end after the deadline.
pub fn is_late(options: &Options, now: u32, estimate: u32) -> bool
    ensures { result ≡ is_late options.now.deadline now estimate }
{
    match options.deadline {
        Deadline::Never => false,
        Deadline::At(limit) => u64::from(limit) < u64::from(now) + u64::from(estimate),
    }
}

/// Whether a drain may be asked again: none was given up, or the last one long enough ago.
pub fn may_drain(options: &Options, numbers: &Numbers, now: u32) -> bool
    ensures { result ≡ may_drain options.now.pause numbers.now.gave_up now }
{
    match numbers.gave_up {
        None => true,
        Some(moment) => u64::from(moment) + u64::from(options.pause) <= u64::from(now),
    }
}
