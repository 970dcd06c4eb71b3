//! Tests of the pages of a copy, of its indexes and of its layout, through the public calls of
//! their crates.
#![tactic(auto)]

#[cfg(test)]
mod bulk;
#[cfg(test)]
mod layout;
#[cfg(test)]
mod space;
#[cfg(test)]
mod trees;
