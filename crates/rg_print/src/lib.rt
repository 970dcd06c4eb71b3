//! The print: the text of a trace.
#![tactic(auto)]

/// The texts of layouts.
mod layout;
/// The text of a trace, and that of a layout alone.
pub mod print;
/// Bytes and numbers at the end of a text.
mod push;
/// The texts of replies.
mod reply;
/// The texts of the utility's steps.
mod utility;
