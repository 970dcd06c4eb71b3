//! Laws of the log: what its records leave and store, and which pages they name.
#![tactic(auto)]

/// What lists of records leave, without running anything: the invariant of every prefix of a log,
/// what a desk may append, and what the tests of an opening show.
pub mod log_state;
/// What a log stores, by the keys of its writes and its Commits.
pub mod stored_rows;
/// The pages that a write names are within those of its copy.
pub mod page_bounds;
