//! The tests that an opening makes: of the records of a log, of its open units, and of the pages
//! that redo leaves.
#![tactic(auto)]

/// Tests the records of a log: that each follows from those before it, and that the log has space.
pub mod chain;
/// The transactions of a log without an end, and their Changes that are left to undo.
pub mod open_units;
/// The tests that an opening makes on redone pages.
pub mod page_tests;
