//! Laws of rows in slots: that open units can be undone, and how many bytes pages claim.
#![tactic(auto)]

/// Undo over slotted pages is always possible, and gives the committed rows back: laws of the
/// definitions of `rg_home`.
pub mod undo_room;
/// The bytes that pages claim, and the weight of their home rows: what each plan and each undo does
/// to them, and that a write is full only where 3,221 bytes a page are claimed.
pub mod byte_claims;
