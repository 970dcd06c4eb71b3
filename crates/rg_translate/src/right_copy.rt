//! What a new copy is that was loaded and then brought up to date.

/// The laws, each the contract of a function without a body.
pub mod laws;
