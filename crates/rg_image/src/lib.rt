//! What the bytes of a volume mean: its log.
#![tactic(auto)]

/// Laws of the definitions.
pub mod laws;
/// How many bytes and pages records take.
pub mod sizes;
