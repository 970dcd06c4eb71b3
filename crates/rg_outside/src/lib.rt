//! What stands outside the engine: where a deck comes from, where a print goes, the volume of pages
//! and the operator. Each is a trait, whose clauses say what a call may do.
#![tactic(auto)]

/// An operator behind a pointer.
pub mod boxed;
/// A volume whose calls are counted.
pub mod counted;
/// What holds of every known volume.
pub mod laws;
/// Who answers the utility before each step.
pub mod operator;
/// Two pages, written and made durable: a worked example.
pub mod pair;
/// Where bytes go.
pub mod sink;
/// Where bytes come from.
pub mod source;
/// The pages of the log and of both copies of the table.
pub mod volume;
