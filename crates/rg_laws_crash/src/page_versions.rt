//! Versions of a page: what it is after so many records of a log.

/// The laws, each the contract of a function without a body.
pub mod laws;
