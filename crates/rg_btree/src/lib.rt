//! An index in a B-tree, and the three indexes of a table.
#![tactic(auto)]

// Adding an entry below a node.
mod add;
// The buffers of nodes to come.
mod pool;
// Removing an entry below a node.
mod remove;
// Moves between vectors with room.
mod room;
/// The three indexes of a table: by key, by `clus` and by `cat`, kept in step with its rows.
pub mod indexes;
// The root of a tree.
mod root;
// The entries of a range.
mod walk;
/// An index in a B-tree.
pub mod tree;
