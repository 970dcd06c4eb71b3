//! The undo of a unit: its Changes are taken back, the latest first, each by a record of its own.
#![tactic(auto)]

/// Laws of the undo of a unit.
pub mod laws;
/// The undo of one Change.
pub mod one;
/// The undo of a unit, all at once.
pub mod unit;
/// The undo of a unit, one record at a time.
pub mod work;
