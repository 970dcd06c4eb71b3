//! The three indexes of a table: by key, by `clus` and by `cat`, kept in step with its rows.

/// The three indexes, and how they follow the rows.
pub mod indexes;
/// Laws of the definitions.
pub mod laws;
