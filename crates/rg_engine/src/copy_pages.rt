//! How the pages of a new copy of the table are written to its set.

/// What pages are once they are given a position.
pub mod laws;
/// The writes and the sync.
pub mod write;
