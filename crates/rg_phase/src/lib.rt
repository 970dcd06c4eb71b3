//! The utility, step by step.
#![tactic(auto)]

/// The new copy in the making.
pub mod draft;
/// What a utility has made of the new copy.
pub mod made;
/// The event of the next step.
pub mod next;
/// A step.
pub mod step;
