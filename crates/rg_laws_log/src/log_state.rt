//! What lists of records leave, without running anything: the invariant of every prefix of a log,
//! what a desk may append, and what the tests of an opening show.

/// The laws, each the contract of a function without a body.
pub mod laws;
