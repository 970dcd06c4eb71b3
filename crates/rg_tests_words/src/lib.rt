//! Tests of decks, options, the program's words, the generator and the print, through the public
//! calls of their crates.
#![tactic(auto)]

#[cfg(test)]
mod deck;
#[cfg(test)]
mod generator;
#[cfg(test)]
mod options;
#[cfg(test)]
mod print;
#[cfg(test)]
mod words;
