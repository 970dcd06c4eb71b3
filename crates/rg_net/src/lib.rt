//! The net of a batch of changes: the last change of each home.
#![tactic(auto)]

/// The net of changes.
pub mod net;
