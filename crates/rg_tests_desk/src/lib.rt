//! Tests of the desk and of openings, through their public calls.
#![tactic(auto)]

#[cfg(test)]
mod desk;
#[cfg(test)]
mod restart;
