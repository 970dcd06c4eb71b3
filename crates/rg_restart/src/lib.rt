//! The opening of a volume: its log tested, its pages made of the log, its open units undone, and
//! the table that it stores.
#![tactic(auto)]

/// The open units of a log, undone.
pub mod close;
/// The pages of a copy, read.
pub mod data;
/// What the records of a sound log leave of the table.
pub mod find;
/// Laws of the rules.
pub mod laws;
/// The opening of a volume.
pub mod open;
/// The stored table.
pub mod stored;
