//! Indexes over rows with places: the contract of an index, and one in a sorted vector.
#![tactic(auto)]

/// What an index is to its callers.
pub mod index;
/// Laws of the definitions: which entries an index has of rows with places.
pub mod laws;
/// Searches in entries that rise.
pub mod search;
/// An index in a sorted vector.
pub mod sorted;
