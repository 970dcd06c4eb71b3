//! Makes a deck from a seed: rows, a reorganisation, and writers beside it.
#![tactic(auto)]

// Drawn numbers.
mod draws;
/// What holds of a deck.
pub mod laws;
/// The deck.
pub mod make;
/// The line that sums up a run.
pub mod summary;
