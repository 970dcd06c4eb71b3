//! What slots, pages and home rows are, and what the plans of writes do to them: definitions, with
//! their theorems, on which everything above pages stands.
#![tactic(auto)]

/// The laws, each the contract of a function without a body.
pub mod laws;
/// Plans of writes, as values.
pub mod plan;
