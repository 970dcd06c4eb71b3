//! Tests of rows and their bytes, and of the volume in memory with what a crash leaves of it,
//! through the public calls of their crates.
#![tactic(auto)]

#[cfg(test)]
mod base;
#[cfg(test)]
mod volume;
