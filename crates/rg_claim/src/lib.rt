//! Claims and drains: which classes each session holds, and which a drain keeps for the utility.
#![tactic(auto)]

/// The claims of sessions and the drain.
pub mod claims;
// Classes of claims, and what a drain covers.
mod class;
/// Laws of the definitions.
pub mod laws;
