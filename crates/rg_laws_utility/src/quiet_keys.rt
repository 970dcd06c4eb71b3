//! Which keys are not quiet after a statement.

/// The laws, each the contract of a function without a body.
pub mod laws;
