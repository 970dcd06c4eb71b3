//! What a trace tells of locks and of quiet keys, and what a right switch asks of them.

/// The laws, each the contract of a function without a body.
pub mod laws;
