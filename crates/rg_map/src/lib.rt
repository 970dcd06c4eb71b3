//! The mapping table of a reorganisation: where the row of each place in the old copy stands in the
//! new one.
#![tactic(auto)]

/// Laws of the definitions.
pub mod laws;
/// The mapping table.
pub mod table;
