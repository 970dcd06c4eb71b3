//! The write-ahead log: its records, forcing them to the volume, and reading them again.
#![tactic(auto)]

/// Why a call was refused.
pub mod fault;
/// Forcing a page of the log.
pub mod force;
/// What calls leave of the log.
pub mod laws;
/// The log.
pub mod log;
/// Reading the records of a page.
pub mod entries;
/// Opening a log.
pub mod open;
/// Pages of the log.
pub mod page;
