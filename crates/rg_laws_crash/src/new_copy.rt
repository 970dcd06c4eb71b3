//! How a table begins anew on the copy to which its log turns.

/// The laws, each the contract of a function without a body.
pub mod laws;
