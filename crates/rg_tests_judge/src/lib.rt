//! Tests of the judge and of what the utility decides, through the public calls of their crates.
#![tactic(auto)]

#[cfg(test)]
mod decisions;
#[cfg(test)]
mod judge;
