//! Reads a trace and names its first entry that is not legal.
#![tactic(auto)]

/// Statements that were answered.
pub mod answered;
/// What a step does to the claims.
pub mod drain;
/// The judge.
pub mod judge;
/// What each event makes of a state.
pub mod next;
/// Openings.
pub mod opened;
/// The states that a trace allows.
pub mod possibility;
/// The plain table's reply to a statement.
pub mod replied;
/// Statements, with what a drain keeps out and with an engine that is down.
pub mod said;
/// Tests of sameness.
pub mod same;
/// Steps of a utility.
pub mod step;
/// What a unit's statements and its end leave.
pub mod unit;
/// Walks over locks.
pub mod walk;
/// A table whose rows are also found by their `cat`.
pub mod table;
/// Says of each event whether it is a running utility's next, and what it leaves.
pub mod turn;
/// Says whether the layout of a copy is right for a table, and whether a switch may be made.
pub mod layouts;
