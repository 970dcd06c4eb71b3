ghost use Rattle.std.specs.Prelude.{◌≤◌};

use super::outside::BytesSource;
use super::{ALL, Came, NEVER, PLAY, came, owned, silent, whole};
use crate::top::reorg_alone;
use rg_mem::volume::MemVolume;
use std::alloc::{AllocError, Global};
use std::test::Fail;

// The next of some numbers that follow from a seed, below `end`.
fn draw(state: &mut u32, end: u32) -> u32
    ensures { result ≤ end }
{
    *state = state.wrapping_mul(1_664_525).wrapping_add(1_013_904_223);
    if end == 0 { 0 } else { (*state >> 8) % end }
}

// A number of at most two digits.
fn push_number(deck: &mut Vec<u8>, number: u32) -> Result<(), AllocError> {
    if number >= 10 {
        deck.push(b'0' + (number / 10 % 10) as u8)?;
    }
    deck.push(b'0' + (number % 10) as u8)?;
    Ok(())
}

// A statement of one of three sessions, at one of fifty keys.
fn push_statement(deck: &mut Vec<u8>, state: &mut u32) -> Result<(), AllocError> {
    push_number(deck, 1 + draw(state, 3))?;
    let verb = draw(state, 8);
    let text = match verb {
        0..=2 => b" INSERT ".as_slice(),
        3 | 4 => b" UPDATE ",
        5 => b" DELETE ",
        6 => b" SELECT ",
        _ => return deck.extend_from_slice(b" ROLLBACK\n"),
    };
    deck.extend_from_slice(text)?;
    push_number(deck, 1 + draw(state, 50))?;
    if verb <= 4 {
        deck.extend_from_slice(b" 1 2 ")?;
        for _ in 0..1 + draw(state, 4) * 120 {
            deck.push(b'x')?;
        }
    }
    deck.push(b'\n')?;
    Ok(())
}

// Statements from a seed, in blocks of 18 lines. A block ends all units, and then the process may
// die; in between pages may be flushed.
fn deck_of(alloc: Global, dies: bool) -> Result<Vec<u8>, AllocError> {
    let (mut state, mut flushes) = (7, 11);
    let mut deck = Vec::new(alloc);
    for _ in 0..100 {
        for _ in 0..15 {
            push_statement(&mut deck, &mut state)?;
            if dies && draw(&mut flushes, 4) == 0 {
                deck.extend_from_slice(b"F\n")?;
            }
        }
        deck.extend_from_slice(b"1 COMMIT\n2 COMMIT\n3 COMMIT\n")?;
        if dies {
            deck.extend_from_slice(b"X\n")?;
        }
    }
    Ok(deck)
}

// The lines of a print, without their numbers, but for those of the system and the last.
fn replies(alloc: Global, print: &[u8]) -> Result<Vec<u8>, AllocError> {
    let mut out = Vec::new(alloc);
    let mut line = Vec::new(alloc);
    let mut in_number = true;
    for byte in print.iter().copied() {
        if byte == b'\n' {
            let said = line.as_slice();
            if !said.starts_with(b"- ") && !said.starts_with(b"entries=") {
                out.extend_from_slice(said)?;
                out.push(b'\n')?;
            }
            line = Vec::new(alloc);
            in_number = true;
        } else if !in_number {
            line.push(byte)?;
        } else if byte == b' ' {
            in_number = false;
        }
    }
    Ok(out)
}

// The status and the number of entries of a deck that is played, and its replies.
fn played(alloc: Global, dies: bool) -> Result<(Came, Vec<u8>), Fail> {
    let deck = deck_of(alloc, dies)?;
    let mut source = BytesSource::new(&deck, ALL, NEVER);
    let mut sink = whole(alloc, ALL);
    let words = owned(alloc, &PLAY)?;
    let operator = silent(alloc)?;
    let volume = MemVolume::new(alloc, 1000, 64, 64, 60_000, 6_000, &[], None)?;
    let finished = reorg_alone(alloc, &words, &mut source, &mut sink, volume, operator);
    Ok((came(&finished), replies(alloc, sink.held())?))
}

// Where no unit is open a death changes no reply, nor does a flush anywhere.
#[test]
fn deaths_and_flushes_change_no_reply(rt: HostRuntime) -> Result<(), Fail> {
    let (plain_came, plain) = played(rt.alloc(), false)?;
    let ((status, entries), dying) = played(rt.alloc(), true)?;
    assert_eq!(rt; plain_came, (0, 1801));
    assert_eq!(rt; status, 0);
    assert!(rt; 2_250 < entries && entries < 2_350, "{entries} entries");
    assert_eq!(rt; dying.as_slice(), plain.as_slice());
    Ok(())
}
