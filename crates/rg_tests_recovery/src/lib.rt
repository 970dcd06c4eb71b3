//! Tests of redo and of what an opening finds in a log, through the public calls of their
//! crates.
#![tactic(auto)]

#[cfg(test)]
mod current_copy;
#[cfg(test)]
mod open_units;
#[cfg(test)]
mod redo;
