//! The new copy of a reorganisation, once its rows are loaded: it follows the changes of the old
//! one.
#![tactic(auto)]

/// Why a change is not made.
pub mod fault;
/// The indexes of a new copy, as far as they are made.
pub mod drafts;
// Plans of a space in memory, and how they are carried out.
mod plans;
// The pages of a space in memory, as they go to a volume.
mod spell;
// Space, mapping table and indexes, and how they change together.
mod pieces;
// The mapping table of pairs.
mod mapping;
/// The list of an index.
pub mod sort;
/// The new copy.
pub mod shadow;
