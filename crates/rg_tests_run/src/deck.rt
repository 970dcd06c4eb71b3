// Decks that are played over a volume in memory.
use rg_deck::read::{DECK_LIMIT, read_deck};
use rg_mem::script::ScriptOperator;
use rg_mem::volume::MemVolume;
use rg_opts::operator::read_operator;
use rg_print::print::{Close, print};
use rg_run::played::{Judged, JudgedEnd, Played, RunEnd};
use rg_run::run::{run, run_judged};
use std::alloc::{AllocError, Global};
use std::process::Abort;
use std::test::Fail;

/// What a run over a volume in memory leaves.
pub type MemPlayed = Played<MemVolume, ScriptOperator>;

// A deck in which `~` stands for the byte before it 99 times more.
fn spelled(alloc: Global, short: &[u8]) -> Result<Vec<u8>, AllocError> {
    let mut deck = Vec::new(alloc);
    let mut last = b' ';
    for byte in short.iter().copied() {
        if byte == b'~' {
            for _ in 0..99 {
                deck.push(last)?;
            }
        } else {
            deck.push(byte)?;
            last = byte;
        }
    }
    Ok(deck)
}

/// Plays a deck, in which `~` stands for the byte before it 99 times more. The operator has the
/// answers of these lines.
pub fn play_judged(
    alloc: Global,
    volume: MemVolume,
    deck: &[u8],
    operator: &[u8],
) -> Result<Judged<MemVolume, ScriptOperator>, Fail> {
    play_spelled(alloc, volume, &spelled(alloc, deck)?, operator, true)
}

/// The same without a verdict, and with an operator who wants nothing.
pub fn play(alloc: Global, volume: MemVolume, deck: &[u8]) -> Result<MemPlayed, Fail> {
    let left = play_spelled(alloc, volume, &spelled(alloc, deck)?, b"", false)?;
    let end = left.end.end;
    Ok(left.ended(end))
}

fn play_spelled(
    alloc: Global,
    volume: MemVolume,
    deck: &[u8],
    operator: &[u8],
    is_judged: bool,
) -> Result<Judged<MemVolume, ScriptOperator>, Fail> {
    if deck.len() > DECK_LIMIT {
        return Err("the deck is too long".into());
    }
    let Ok(lines) = read_deck(alloc, deck) else {
        return Err("the deck has a line outside the grammar".into());
    };
    let Ok(answers) = read_operator(alloc, operator) else {
        return Err("the operator has a line that is no answer".into());
    };
    let operator = ScriptOperator::new(alloc, answers.as_slice())?;
    if is_judged {
        return Ok(run_judged(alloc, volume, operator, lines));
    }
    let played = run(alloc, volume, operator, lines);
    let end = JudgedEnd {
        end: played.end,
        verdict: None,
    };
    Ok(played.ended(end))
}

/// The run was played to its end, and has this print.
pub fn expect_print(
    rt: &impl Abort,
    alloc: Global,
    played: &MemPlayed,
    wanted: &[u8],
) -> Result<(), Fail> {
    let close = match played.end {
        RunEnd::Whole { rows } => Close::Rows(rows),
        RunEnd::Down => Close::Down,
        _ => return Err("the run was not played to its end".into()),
    };
    let came = print(alloc, &played.trace, false, close)?;
    assert_eq!(rt; came.as_slice(), wanted);
    Ok(())
}
