//! The pages of the current copy, rebuilt from the log.

/// Laws of redo.
pub mod laws;
/// Empty pages, and the log redone on them.
pub mod rebuilt;
