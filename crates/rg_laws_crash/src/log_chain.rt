//! The records that an engine appends: they follow one another, and tell the state that they leave.

/// The laws, each the contract of a function without a body.
pub mod laws;
