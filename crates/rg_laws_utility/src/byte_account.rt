//! What the entries since an opening have allowed the pages of a copy to claim.

/// The laws, each the contract of a function without a body.
pub mod laws;
