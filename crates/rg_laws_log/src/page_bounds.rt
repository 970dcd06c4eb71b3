//! The pages that a write names are within those of its copy.

/// The laws, each the contract of a function without a body.
pub mod laws;
