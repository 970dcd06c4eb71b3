//! The records of the log and their bytes.
#![tactic(auto)]

/// What a record does to pages.
pub mod applied;
/// Pages that are being filled.
pub mod buffer;
/// Copies of records.
pub mod copy;
/// Why no record is read.
pub mod fault;
/// What the values of the types have.
pub mod fits;
/// Laws of the bytes of records.
pub mod laws;
/// Reading a record.
pub mod read;
/// Records.
pub mod record;
/// How many bytes a record has.
pub mod size;
/// Which records have a spelling.
pub mod spelled;
/// Writing a record.
pub mod write;
