//! How much a new copy may have to take: what was sent to a utility, and what will still be sent.

/// The laws, each the contract of a function without a body.
pub mod laws;
