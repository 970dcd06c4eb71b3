//! The edge of the program: the standard descriptors, a source over a reader, a sink over a writer,
//! a volume over one file and the folder that it is in, an operator over the clock, and a small
//! file that is read whole.
#![tactic(auto)]

// Single calls of the system, and calls that are tried again.
mod calls;
/// The standard descriptors.
pub mod descriptors;
/// The failed calls of one thing.
pub mod faults;
// A reader, a writer and a file that fail where a test wants it.
#[cfg(test)]
mod faulty;
/// The folder of a volume.
pub mod folder;
/// Laws of the names of volumes.
pub mod laws;
/// An operator over the clock.
pub mod operator;
/// Reading a small file whole.
pub mod reading;
/// A sink over a writer.
pub mod sink;
/// The sizes of a volume.
pub mod sizes;
/// A source over a reader.
pub mod source;
/// A volume over one file.
pub mod volume;

pub use calls::TRIES;
