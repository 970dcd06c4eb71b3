//! Tests of the new copy that a reorganisation makes and of the ends of its feed, through the public
//! calls of its crates.
#![tactic(auto)]

#[cfg(test)]
mod feed;
#[cfg(test)]
mod reload;
#[cfg(test)]
mod shadow;
