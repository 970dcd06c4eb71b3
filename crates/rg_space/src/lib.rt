//! The table space: plans of writes, found over summaries of pages, and how they are applied.
#![tactic(auto)]

/// The summaries of all pages.
pub mod summaries;
/// Plans, as the summaries tell them.
pub mod moves;

/// What slots say of rows.
pub mod look;

/// Why a space refuses.
pub mod fault;
/// The rows whose homes are on a page.
pub mod homes;
/// Slots and rows, read through frames.
pub mod read;

/// The summaries of pages that are there.
pub mod survey;

/// Records, redone on the pages that do not have them yet.
pub mod redo;
/// The table space.
pub mod space;

/// Laws of plans, and of the records that carry them out.
pub mod laws;
