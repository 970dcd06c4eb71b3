//! Plays the lines of a deck, in order, over a table of pages.
#![tactic(auto)]

/// What the clauses of a run come to.
pub mod laws;
/// What a run leaves, and how it ends.
pub mod played;
/// The run of a deck.
pub mod run;
