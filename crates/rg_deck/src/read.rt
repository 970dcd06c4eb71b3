// How a deck is cut into lines.
//
// 1. A line ends at a line feed; the last one may lack it. An empty line is outside the grammar.
// 2. Lines are read in order, and the first that is not taken is named by its number, from 1.
ghost use Rattle.std.specs.Prelude.{◌≤◌, length, IfOk, IfErr};
ghost use Rattle.rg_deck.specs.Grammar.{Lines, LinesOf};
ghost use Rattle.rg_deck.specs.Reading.{CutsLine};
ghost use Rattle.rg_deck.specs.Refuses.{Refuses};
ghost use Rattle.rg_deck.specs.declared.read.Admits.TheVariants.{Every};

use crate::line::read_line;
use crate::word::split_at_byte;
use rg_stmt::line::Line;
use std::alloc::Global;
use thiserror::Error;

/// The greatest length of a deck, in bytes: 16 MiB (this profile's choice).
pub const DECK_LIMIT: usize = 16_777_216;

/// Which lines of the grammar a deck may have.
#[derive(Clone, Copy, Debug, PartialEq, Eq)]
pub enum Admits {
    /// All lines.
    Every,
    /// Only statements.
    Statements,
}

/// Why a deck was not read.
#[derive(Clone, Copy, Debug, PartialEq, Eq, Error)]
pub enum DeckFault {
    /// Line `number`, counted from 1, is the first that is outside the grammar or that the deck may
    /// not have.
    #[error("line {number} of the deck is outside the grammar")]
    Line { number: u32 },
    #[error("out of memory")]
    NoMemory,
}

// The first line without its line feed, and what follows.
fn split_line(bytes: &[u8]) -> (&[u8], &[u8])
    ensures { CutsLine bytes.now result.0.now result.1.now }
{
    match split_at_byte(bytes, b'\n') {
        Some(parts) => parts,
        None => (bytes, &[]),
    }
}

/// The lines of a deck, in order, each of the grammar.
pub fn read_deck(alloc: Global, bytes: &[u8]) -> Result<Vec<Line>, DeckFault>
    requires { length bytes.now ≤ DECK_LIMIT }
    ensures lines { IfOk result (λ lines. Lines bytes.now lines.items) }
    ensures fault { IfErr result (Refuses Every bytes.now) }
{
    read_admitted(alloc, bytes, Admits::Every)
}

/// The lines of a deck, in order, each of the grammar and admitted.
pub fn read_admitted(alloc: Global, bytes: &[u8], admits: Admits) -> Result<Vec<Line>, DeckFault>
    requires { length bytes.now ≤ DECK_LIMIT }
    ensures lines { IfOk result (λ lines. LinesOf admits bytes.now lines.items) }
    ensures fault { IfErr result (Refuses admits bytes.now) }
{
    let mut lines = Vec::new(alloc);
    let mut rest = bytes;
    let mut number: u32 = 0;
    while !rest.is_empty() {
        number += 1;
        let (line, after) = split_line(rest);
        match read_line(alloc, line, admits) {
            Err(_) => return Err(DeckFault::NoMemory),
            Ok(None) => return Err(DeckFault::Line { number }),
            Ok(Some(line)) => {
                if lines.push(line).is_err() {
                    return Err(DeckFault::NoMemory);
                }
            }
        }
        rest = after;
    }
    Ok(lines)
}
