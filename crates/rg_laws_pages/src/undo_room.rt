//! Undo over slotted pages is always possible, and gives the committed rows back: laws of the
//! definitions of `rg_home`.

/// The laws, each the contract of a function without a body.
pub mod laws;
