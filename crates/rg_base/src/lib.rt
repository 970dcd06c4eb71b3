//! The values that every layer speaks of: rows and texts, sessions, the operator's answers and the
//! utility's options, and finite maps over them.
#![tactic(auto)]

/// Bytes, seen as a list.
pub mod bytes;
/// What a write made of a row.
pub mod change;
/// What the operator answers.
pub mod control;
/// The two copies of a table.
pub mod copy;
/// The fields of a format.
pub mod field;
/// Rows with the places of their homes.
pub mod homes;
/// Locks of keys.
pub mod lock;
/// Maps from numbers, seen as finite maps.
pub mod map;
/// Out of memory.
pub mod no_memory;
/// Calls whose answers a proof alone needs.
pub mod note;
/// Numbers, as words.
pub mod number;
/// The options of the utility, and what it drains.
pub mod options;
/// The parts of a record: what it makes of slots.
pub mod part;
/// Places in a copy of the table.
pub mod place;
/// Positions in the log.
pub mod position;
/// Rows.
pub mod row;
/// The bytes of rows.
pub mod row_bytes;
/// Sessions and the classes of their claims.
pub mod session;
/// The sets of a volume.
pub mod set;
/// The stages of the utility.
pub mod step;
/// Tables of rows.
pub mod table;
/// The text of a row.
pub mod text;
/// The numbers of transactions.
pub mod tran;
/// The values of a row.
pub mod values;
/// What the utility decides.
pub mod verdict;
/// The indexes of the table.
pub mod which;
