//! The tests that an opening makes on redone pages.

/// Laws of the tests.
pub mod laws;
/// Whether the undo of a Change has what it needs.
pub mod needed;
/// Slots without the bytes of their rows, read through frames.
pub mod outline;
/// Rows, read and compared.
pub mod rows;
/// Whether the home rows are the stored rows.
pub mod stored;
/// Changes undone, each tested at its turn.
pub mod turns;
/// Whether a key stands twice.
pub mod twice;
/// Whether slots name each other.
pub mod untied;
