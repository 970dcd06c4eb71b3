//! The bytes that pages claim, and the weight of their home rows: what each plan and each undo does
//! to them, and that a write is full only where 3,221 bytes a page are claimed.

/// The laws, each the contract of a function without a body.
pub mod laws;
