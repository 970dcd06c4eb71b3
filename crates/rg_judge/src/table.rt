//! A table whose rows are also found by their `cat`.

/// The table, with the keys of each `cat`.
pub mod cat_table;
/// The locked keys of each session, by the `cat`s of their rows.
pub mod held_cats;
/// Sets of keys, by numbers.
pub mod key_sets;
/// The table with its locks.
pub mod locked_rows;
