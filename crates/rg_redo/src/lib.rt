//! The redo of a log on pages that do not have its records yet, and the pages of the current copy
//! that it makes.
#![tactic(auto)]

/// Why a log is not redone.
pub mod fault;
/// Redoing the records of a log.
pub mod redo;
/// The pages of the current copy, rebuilt from the log.
pub mod current_copy;
