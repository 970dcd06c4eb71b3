//! The feed: copies of pages and changes of rows, on their way from the table to the utility.
#![tactic(auto)]

/// Both ends of one feed.
pub mod ends;
/// All items at once.
pub mod hand_over;
/// The receiving end.
pub mod inlet;
/// The sending end.
pub mod outlet;
/// The feed's items, and what they leave of each row, without running anything.
pub mod fold;
/// What a desk keeps of the items that it has sent to a utility.
pub mod sent_items;
