//! That whoever has locked a key holds a claim.

/// The laws, each the contract of a function without a body.
pub mod laws;
