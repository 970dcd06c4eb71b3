//! Pages of slots: their bytes, and the frames through which they are read and changed.
#![tactic(auto)]

/// The bytes of a page's rows, and pushing within room.
pub mod areas;
/// The pages of a copy, as they are read and changed.
pub mod frames;
/// What plans read of a slot.
pub mod header;
/// All pages in memory.
pub mod list;
/// What a page offers a write.
pub mod offers;
/// A page.
pub mod page;
/// A page of given rows.
pub mod packed;
/// Reading a page.
pub mod read;
/// What lies in a slot.
pub mod slot;
/// What plans read of a page.
pub mod summary;
/// Writing a page.
pub mod write;
/// The bytes of a data page.
pub mod bytes;
