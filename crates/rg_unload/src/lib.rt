//! The copying of one page of the table, for a reorganisation.
#![tactic(auto)]

/// One page copied.
pub mod unload;
