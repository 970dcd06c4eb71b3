// A long deck with utilities, and the same deck without them.
//
// 1. The deck is made of a seed: 5,000 lines of four sessions, with flushes and deaths of the
//    process throughout. Three utilities are started, each with options of its own, and switch.
// 2. Its trace is legal.
// 3. A statement that a drain refused did nothing. So the deck without these, and without the lines
//    of the utility, has the same reply to each statement, and as many rows at each opening.
ghost use Rattle.std.specs.Prelude.{◌≤◌};

use crate::deck::play_judged;
use rg_desk::run::Run;
use rg_mem::volume::MemVolume;
use rg_stmt::event::{Entry, Event};
use rg_stmt::stmt::Reply;
use std::alloc::{AllocError, Global};
use std::test::Fail;

// The next of some numbers that follow from a seed, below `end`.
fn draw(state: &mut u32, end: u32) -> u32
    ensures { result ≤ end }
{
    *state = state.wrapping_mul(1_664_525).wrapping_add(1_013_904_223);
    if end == 0 { 0 } else { (*state >> 8) % end }
}

// A number of at most three digits, and a space before it.
fn push_number(deck: &mut Vec<u8>, number: u32) -> Result<(), AllocError> {
    deck.push(b' ')?;
    for part in [100, 10, 1] {
        if number >= part || part == 1 {
            deck.push(b'0' + (number / part % 10) as u8)?;
        }
    }
    Ok(())
}

// A row at one of 150 keys, with a text of 1 to 799 bytes.
fn push_row(deck: &mut Vec<u8>, state: &mut u32) -> Result<(), AllocError> {
    push_number(deck, draw(state, 150))?;
    push_number(deck, draw(state, 40))?;
    push_number(deck, draw(state, 6))?;
    deck.push(b' ')?;
    for _ in 0..1 + draw(state, 3) * draw(state, 400) {
        deck.push(b'x')?;
    }
    Ok(())
}

// A statement of one of four sessions.
fn push_statement(deck: &mut Vec<u8>, state: &mut u32) -> Result<(), AllocError> {
    deck.push(b'1' + (draw(state, 4) % 4) as u8)?;
    match draw(state, 20) {
        0..=4 => {
            deck.extend_from_slice(b" INSERT")?;
            push_row(deck, state)?;
        }
        5..=8 => {
            deck.extend_from_slice(b" UPDATE")?;
            push_row(deck, state)?;
        }
        9 | 10 => {
            deck.extend_from_slice(b" DELETE")?;
            push_number(deck, draw(state, 150))?;
        }
        11..=13 => {
            deck.extend_from_slice(b" SELECT")?;
            push_number(deck, draw(state, 150))?;
        }
        14 => {
            let from = draw(state, 150);
            deck.extend_from_slice(b" SCAN")?;
            push_number(deck, from)?;
            push_number(deck, from + 3)?;
        }
        15 => {
            deck.extend_from_slice(b" FIND")?;
            push_number(deck, draw(state, 6))?;
        }
        16 => deck.extend_from_slice(b" ROLLBACK")?,
        _ => deck.extend_from_slice(b" COMMIT")?,
    }
    deck.push(b'\n')?;
    Ok(())
}

// The control statement that stands before a block of lines, if there is one.
fn control(block: u32) -> &'static [u8] {
    match block {
        10 => b"REORG TABLESPACE SHRLEVEL CHANGE\n",
        25 => {
            b"REORG TABLESPACE SHRLEVEL CHANGE DRAIN ALL DRAIN_WAIT 0 RETRY 255 RETRY_DELAY 0 \
            PCTFREE 40 FREEPAGE 3\n"
        }
        38 => b"REORG TABLESPACE SHRLEVEL CHANGE MAXRO 0 LONGLOG DRAIN DELAY 0 PCTFREE 0\n",
        _ => b"",
    }
}

// Fifty blocks of 100 lines. The process dies once in a while between two blocks.
fn deck_of(alloc: Global, seed: u32) -> Result<Vec<u8>, AllocError> {
    let mut state = seed;
    let mut deck = Vec::new(alloc);
    for block in 0..50 {
        let start = control(block);
        deck.extend_from_slice(start)?;
        for line in 1..100 {
            match draw(&mut state, 10) {
                0..=2 => deck.extend_from_slice(b"U\n")?,
                3 => deck.extend_from_slice(b"F\n")?,
                _ => push_statement(&mut deck, &mut state)?,
            }
            if line == 99 && start.is_empty() {
                let last = if block % 8 == 3 { b"X\n" } else { b"F\n" };
                deck.extend_from_slice(last)?;
            }
        }
    }
    Ok(deck)
}

// The trace of a deck over an empty table, and the first entry that is not legal.
fn judged(alloc: Global, deck: &[u8]) -> Result<(Vec<Entry>, Option<usize>), Fail> {
    let volume = MemVolume::new(alloc, 1000, 256, 256, 30_000, 6_000, &[], None)?;
    let Run { trace, end, .. } = play_judged(alloc, volume, deck, b"")?;
    Ok((trace, end.verdict))
}

// The deck without the lines of the utility, and without the statements that a drain refused.
fn without_utility(alloc: Global, deck: &[u8], trace: &[Entry]) -> Result<Vec<u8>, AllocError> {
    let mut kept = Vec::new(alloc);
    for (line, entry) in deck
        .split_inclusive(|byte| *byte == b'\n')
        .zip(trace.iter().skip(1))
    {
        match &entry.event {
            Event::Said {
                reply: Reply::Drained,
                ..
            } => {}
            Event::Said { .. } => kept.extend_from_slice(line)?,
            _ if line.starts_with(b"U") || line.starts_with(b"R") => {}
            _ => kept.extend_from_slice(line)?,
        }
    }
    Ok(kept)
}

// What each statement was answered, but for those that a drain refused, and how many rows each
// opening found.
fn replies(alloc: Global, trace: &[Entry]) -> Result<Vec<String>, AllocError> {
    let mut replies = Vec::new(alloc);
    for entry in trace {
        match &entry.event {
            Event::Said {
                reply: Reply::Drained,
                ..
            } => {}
            Event::Said { stmt, reply } => {
                replies.push(format!(in alloc; "{:?} {stmt:?} {reply:?}", entry.actor)?)?;
            }
            Event::Opened { rows, .. } => replies.push(format!(in alloc; "{rows}")?)?,
            _ => {}
        }
    }
    Ok(replies)
}

// How many entries switch to a new copy, are refused by a drain, and give a drain up.
fn count(trace: &[Entry]) -> (u32, u32, u32) {
    let (mut switches, mut drained, mut given_up) = (0u32, 0u32, 0u32);
    for entry in trace {
        match &entry.event {
            Event::Switched { .. } => switches = switches.saturating_add(1),
            Event::Said {
                reply: Reply::Drained,
                ..
            } => drained = drained.saturating_add(1),
            Event::GiveUp(_) => given_up = given_up.saturating_add(1),
            _ => {}
        }
    }
    (switches, drained, given_up)
}

#[test]
fn replies_as_without_utilities(rt: HostRuntime) -> Result<(), Fail> {
    let alloc = rt.alloc();
    let deck = deck_of(alloc, 7)?;
    let (trace, refused) = judged(alloc, &deck)?;
    assert_eq!(rt; trace.len(), 5001);
    assert_eq!(rt; count(&trace), (3, 59, 6));
    assert_eq!(rt; refused, None);
    let (plain, refused) = judged(alloc, &without_utility(alloc, &deck, &trace)?)?;
    assert_eq!(rt; refused, None);
    let (with, without) = (replies(alloc, &trace)?, replies(alloc, &plain)?);
    assert_eq!(rt; with.len(), without.len());
    for (a, b) in with.iter().zip(without.iter()) {
        assert_eq!(rt; a.as_str(), b.as_str());
    }
    Ok(())
}
