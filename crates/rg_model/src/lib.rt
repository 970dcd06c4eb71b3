//! What the words mean: tables, states, statements, and which traces are legal.
#![tactic(auto)]

/// Laws of the definitions.
pub mod laws;
/// The definitions as a plain, slow program.
pub mod plain;
