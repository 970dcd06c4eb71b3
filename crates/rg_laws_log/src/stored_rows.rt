//! What a log stores, by the keys of its writes and its Commits.

/// The laws, each the contract of a function without a body.
pub mod laws;
