//! Tests of records, of the chain of a log and of the log over a volume, through the public calls
//! of their crates.
#![tactic(auto)]

#[cfg(test)]
mod chain;
#[cfg(test)]
mod log;
#[cfg(test)]
mod record;
