// How the deck is read from the source. The rules are in specs/Reading.antt.
ghost use Rattle.std.specs.Prelude.{◌≡◌, ℕ, ◌<◌, ◌≤◌, ◌+◌, length, vec_len, IfOk, IfErr};
ghost use Rattle.std.specs.Io.KnownBytes.{Consumes, IsAtEnd};
ghost use Rattle.reorgdb.specs.Reading.{TakesAtMost, TakesBehind, ReadsUpTo, StopsAtPiece};

use rg_deck::read::DECK_LIMIT;
use rg_outside::source::Source;
use std::alloc::{AllocError, Global};

// How many bytes are asked for at once.
const PIECE: usize = 65_536;

/// Why a deck was not read to its end.
#[derive(Clone, Copy, Debug, PartialEq, Eq)]
pub enum ReadFault {
    /// The source failed.
    Failed,
    /// One byte more than the limit was read.
    Long,
    /// Out of memory.
    NoMemory,
}

/// Reads a source to its end, piece by piece. Each turn takes at least one byte or is the last, and
/// no more than one byte past the limit is taken.
pub fn read_source<S: Source>(alloc: Global, source: &mut S) -> Result<Vec<u8>, ReadFault>
    ensures short { IfOk result (λ bytes. length bytes.items ≤ DECK_LIMIT) }
    ensures read { IfOk result
        (λ bytes. Consumes (S.left source.old) (S.left source.new) bytes.items) }
    ensures end { IfOk result (λ bytes. IsAtEnd (S.left source.new)) }
    ensures fault { IfErr result
        (ReadsUpTo (S.left source.old) (S.left source.new) (S.faults source.old)
        (S.faults source.new)) }
    ensures bounded { TakesAtMost (DECK_LIMIT + 1) (S.left source.old) (S.left source.new) }
    ensures later { S.faults source.old ≤ S.faults source.new }
{
    let mut bytes = Vec::new(alloc);
    let Ok(mut piece) = empty_piece(alloc) else {
        return Err(ReadFault::NoMemory);
    };
    while bytes.len() <= DECK_LIMIT {
        let room = PIECE.min(DECK_LIMIT + 1 - bytes.len());
        match take_piece(source, &mut piece[..room], &mut bytes) {
            Ok(0) => return Ok(bytes),
            Ok(_) => {}
            Err(fault) => return Err(fault),
        }
    }
    Err(ReadFault::Long)
}

// Appends the next bytes to those that were read, and returns their number. `piece` is the buffer.
fn take_piece<S: Source>(
    source: &mut S,
    piece: &mut [u8],
    bytes: &mut Vec<u8>,
) -> Result<usize, ReadFault>
    requires { 0 < length piece.old }
    ensures count { IfOk result (λ n. n ≤ length piece.old) }
    ensures taken { IfOk result
        (TakesBehind (S.left source.old) (S.left source.new) bytes.old.items bytes.new.items) }
    ensures fault { IfErr result
        (StopsAtPiece (length piece.old) (S.left source.old) (S.left source.new)
        (S.faults source.old) (S.faults source.new)) }
    ensures later { S.faults source.old ≤ S.faults source.new }
{
    match source.take(piece) {
        Err(_) => Err(ReadFault::Failed),
        Ok(n) => match bytes.extend_from_slice(&piece[..n]) {
            Ok(()) => Ok(n),
            Err(_) => Err(ReadFault::NoMemory),
        },
    }
}

fn empty_piece(alloc: Global) -> Result<Vec<u8>, AllocError>
    ensures { IfOk result (λ piece. vec_len piece ≡ PIECE) }
{
    vec![in alloc; 0u8; PIECE]
}
