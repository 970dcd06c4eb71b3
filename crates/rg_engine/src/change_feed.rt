//! What a desk sends to a utility of the records that it appends.

/// The laws, each the contract of a function without a body.
pub mod laws;
/// The changes of records, sent.
pub mod send;
