//! The transactions of a log without an end, and their Changes that are left to undo.

/// Laws of what is left to undo.
pub mod laws;
/// What is left to undo.
pub mod unended;
