//! What the utility decides at the end of an iteration over the log and of a drain, what it counts
//! for that, and its numbers while it runs.
#![tactic(auto)]

/// A drain that was asked.
pub mod drain;
/// The end of an iteration.
pub mod iteration;
/// What both decisions look at.
pub mod numbers;
/// Counts what the entries of a trace say of changes, quiet keys and pages.
pub mod tally;
/// The numbers of a running utility, and how each entry of the trace changes them. Nothing here
/// takes memory or calls a volume.
pub mod stage;
