//! What a desk keeps of the items that it has sent to a utility.

/// The laws, each the contract of a function without a body.
pub mod laws;
