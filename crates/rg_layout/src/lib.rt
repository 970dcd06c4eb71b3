//! The layout of a copy of the table: where its rows lie, and what its three indexes list.
#![tactic(auto)]

/// The layout of a space and its indexes.
pub mod side;
// The spots of rows on pages.
mod spots;
