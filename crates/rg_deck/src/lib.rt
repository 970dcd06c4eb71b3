//! Decks: the bytes of a deck as its lines.
#![tactic(auto)]

/// Laws of the grammar.
pub mod laws;
mod line;
/// The lines of a deck.
pub mod read;
/// Words of a line.
pub mod word;
