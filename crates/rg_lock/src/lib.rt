//! Row locks: which session holds each key, and the committed row of the key.
#![tactic(auto)]

/// Laws of the definitions.
pub mod laws;
/// The locks of keys.
pub mod locks;
// The lists of the keys that sessions took.
mod owned;
