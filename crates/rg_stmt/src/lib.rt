//! Statements and their replies, the events of a run and its trace, and the lines of a deck.
#![tactic(auto)]

/// Events, who makes them, and the entries of a trace.
pub mod event;
/// Where the rows of a copy lie.
pub mod layout;
/// The lines of a deck.
pub mod line;
/// Rows and keys in a reply.
pub mod rows;
/// Statements and replies.
pub mod stmt;
