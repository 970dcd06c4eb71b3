//! The table as a deck sees it: an engine, and the trace of what it does.
#![tactic(auto)]

/// The entries of a desk.
pub mod chronicle;
/// The table as a deck sees it.
pub mod desk;
/// A run at its end.
pub mod run;
/// What a step of the utility goes by.
pub mod task;
