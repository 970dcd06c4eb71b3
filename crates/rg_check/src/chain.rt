//! Tests the records of a log: that each follows from those before it, and that the log has space.

/// The records so far.
pub mod chain;
/// Pages that records name.
pub mod names;
/// Equal rows.
pub mod same;
/// Testing a whole log.
pub mod test;
/// The transactions of the records so far.
pub mod unit;
