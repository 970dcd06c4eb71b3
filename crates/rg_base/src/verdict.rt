use crate::options::DrainFor;
use crate::session::Session;

/// Why a utility stopped.
#[derive(Clone, Copy, Debug, PartialEq, Eq)]
pub enum StopReason {
    /// The operator ended it.
    Term,
    /// The work could not be done by the deadline.
    Deadline,
    /// The log did not grow shorter.
    Longlog,
    /// The drain was tried as often as it may be.
    Drain,
    /// The new copy had no room.
    NoSpace,
    /// A call of the volume failed.
    Device,
    /// Out of memory.
    NoMemory,
}

/// What comes after a step of an iteration over the log.
#[derive(Clone, Copy, Debug, PartialEq, Eq)]
pub enum Verdict {
    /// The iteration isn't over.
    More,
    /// The next iteration.
    Next,
    /// The next iteration, and the message that the log doesn't grow shorter.
    Message,
    /// The drain is asked.
    Drain(DrainFor),
    /// The end.
    Stop(StopReason),
}

/// What comes of a drain that was asked.
#[derive(Clone, Copy, Debug, PartialEq, Eq)]
pub enum DrainVerdict {
    /// It waits for this session.
    Wait(Session),
    /// It is granted.
    Granted,
    /// It is abandoned for now.
    GiveUp,
    /// The end.
    Stop(StopReason),
}
