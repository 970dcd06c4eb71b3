//! What a new copy has that was packed from the rows of a table.

/// The laws, each the contract of a function without a body.
pub mod laws;
