//! The bytes of a data page.

/// A slot that was read.
pub mod entry;
/// Why bytes are no page.
pub mod fault;
/// The laws, each the contract of a function without a body.
pub mod laws;
/// Reading heads and slots.
pub mod read;
/// Writing heads and slots.
pub mod write;
