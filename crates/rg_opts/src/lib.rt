//! The options of the utility: its control statement, and the operator's file.
#![tactic(auto)]

// The names of options.
mod keyword;
/// What holds of statements and answers.
pub mod laws;
/// The operator's file.
pub mod operator;
// The options of a statement, from their words.
mod reading;
// One option and its value.
mod setting;
// The options that words set.
mod settings;
/// The control statement, and the options of an ALTER.
pub mod statement;
/// The words of a line.
pub mod words;
