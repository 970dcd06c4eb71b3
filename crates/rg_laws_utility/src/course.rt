//! When a utility that nothing hinders has ended.

/// The laws, each the contract of a function without a body.
pub mod laws;
