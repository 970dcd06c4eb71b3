//! The changes of rows that the records of a log make.

/// The laws, each the contract of a function without a body.
pub mod laws;
