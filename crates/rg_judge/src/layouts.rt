//! Says whether the layout of a copy is right for a table, and whether a switch may be made.

/// Layouts of a copy.
pub mod layout;
/// How rows lie in an unchanged new copy.
pub mod packing;
/// What a switch must find.
pub mod switch;
