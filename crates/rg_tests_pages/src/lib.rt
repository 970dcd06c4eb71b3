//! Tests of pages, through the public calls of their crate. They stand in a crate of their own,
//! since a check of a crate's tests proves the whole crate once more.
#![tactic(auto)]

#[cfg(test)]
mod page;
#[cfg(test)]
mod page_tests;
