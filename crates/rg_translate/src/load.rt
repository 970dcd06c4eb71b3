//! The rows of a table, from the copies of its pages to a new copy that is loaded.

/// The rows of all copies.
pub mod copied;
/// The laws, each the contract of a function without a body.
pub mod laws;
/// The load of a new copy.
pub mod load;
