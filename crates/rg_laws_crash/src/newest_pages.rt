//! The pages of a copy in memory: each is the newest version of its page.

/// The laws, each the contract of a function without a body.
pub mod laws;
