//! What a desk keeps of the utility that runs, by its entries alone.

/// The laws, each the contract of a function without a body.
pub mod laws;
