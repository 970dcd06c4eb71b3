//! The rows of a table packed and loaded into a new copy, which is then brought up to date by the
//! feed.
#![tactic(auto)]

// The next changes of the backlog, without those that are passed over.
mod batch;
/// Changes of the backlog, made in the new copy.
pub mod catch_up;
/// How a new copy comes to be caught up, and stays so.
pub mod laws;
// Changes made in the new copy, one after another.
mod make;
/// What a new copy has that was packed from the rows of a table.
pub mod packed_copy;
/// The rows of a table, from the copies of its pages to a new copy that is loaded.
pub mod load;
/// What a new copy is that was loaded and then brought up to date.
pub mod right_copy;
