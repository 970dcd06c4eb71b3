//! Tests of runs of decks, through their public calls. The decks whose print says all that is
//! asked of them are those of `rg_tests_decks`.
#![tactic(auto)]

#[cfg(test)]
mod data;
#[cfg(test)]
mod deck;
#[cfg(test)]
mod flush;
#[cfg(test)]
mod hostile;
#[cfg(test)]
mod plain;
#[cfg(test)]
mod seeded;
