//! The new copy of a reorganisation: rows, packed page by page in clustering order.
#![tactic(auto)]

/// Why a page is not filled.
pub mod fault;
/// Laws of the order of rows.
pub mod laws;
// The order of rows.
mod order;
/// The packer of a new copy.
pub mod packer;
// One page of a new copy.
mod page;
/// Old and new places of rows.
pub mod pairs;
// What empty pages there are, and how many pages.
mod pad;
