//! The feed's items, and what they leave of each row, without running anything.

/// What the table sends to the utility.
pub mod item;
/// The laws, each the contract of a function without a body.
pub mod laws;
