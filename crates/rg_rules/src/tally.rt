//! Counts what the entries of a trace say of changes, quiet keys and pages.

/// The changes since a utility started.
pub mod changes;
/// The pages of a new copy.
pub mod pages;
/// Sums of counts.
pub mod sums;
/// Changes and quiet keys.
pub mod tally;
