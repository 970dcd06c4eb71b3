//! What stands outside the engine, in memory and with known states: a source and a sink that fail
//! exactly at the call numbers they were configured with, an operator with a script, and a volume
//! of pages with its crashes.
#![tactic(auto)]

// Which calls fail, and how many did.
mod calls;
// Calls as a volume keeps them.
mod noted;
/// An operator that answers by a script.
pub mod script;
/// Sinks that hold the bytes that they are given.
pub mod sink;
/// Sources over bytes.
pub mod source;
/// A volume of pages.
pub mod volume;
