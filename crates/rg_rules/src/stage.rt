//! The numbers of a running utility, and how each entry of the trace changes them. Nothing here
//! takes memory or calls a volume.

/// The steps that copy and index the rows.
mod copying;
/// The events of the steps.
pub mod events;
/// The stage after an entry.
pub mod follow;
/// The laws, each the contract of a function without a body.
pub mod laws;
/// The steps over the log and under the drain.
mod log;
/// The stage of a utility that starts.
pub mod start;
/// What the next step makes, and what the operator wants.
pub mod step;
