//! The table over pages: statements, flushes, a new copy written, and the turn to it.
#![tactic(auto)]

/// What a write takes of the log.
pub mod bytes;
/// The copy of a page, for the utility.
pub mod copying;
/// How many rows are committed.
pub mod count;
/// COMMIT and ROLLBACK.
pub mod ends;
/// The table, and what its sessions hold of it.
pub mod engine;
/// The write of a page.
pub mod flush;
/// What an opening found.
pub mod found;
/// The bytes of the log that are set aside for the utility.
pub mod aside;
/// The layout of the copy.
pub mod layout;
/// How a table was opened.
pub mod origin;
/// A new copy that was written to the other set.
pub mod prepared;
/// SELECT, SCAN and FIND.
pub mod reads;
/// The records of a log, by their positions.
pub mod records;
/// The answer to any statement.
pub mod say;
/// What is sent of a statement.
pub mod send;
/// The switch of an engine to a new copy.
pub mod switch;
/// The table, row by row.
pub mod table;
/// The undo of a unit's writes.
pub mod undo;
/// The open units of sessions.
pub mod units;
/// The utility, as its entries are booked.
pub mod utility;
/// INSERT, UPDATE and DELETE.
pub mod writes;
/// How the pages of a new copy of the table are written to its set.
pub mod copy_pages;
/// What a desk sends to a utility of the records that it appends.
pub mod change_feed;
