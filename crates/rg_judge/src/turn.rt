//! Says of each event whether it is a running utility's next, and what it leaves.

/// The steps that copy and index the rows.
pub mod copying;
/// The steps over the log and under the drain.
pub mod log;
/// Tests of sameness.
pub mod named;
/// The event that a step makes.
pub mod next_event;
/// The numbers of a running utility.
pub mod progress;
/// What a step leaves.
pub mod turn;
