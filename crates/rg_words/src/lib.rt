//! The words of the command line.
#![tactic(auto)]

/// What holds of the words.
pub mod laws;
// Options and their values.
mod option;
/// The commands, from their words.
pub mod words;
