//! The nodes of a B-tree, and a tree built bottom-up of a list.
#![tactic(auto)]

/// A tree of a list.
pub mod build;
/// The nodes.
pub mod node;
