// Operators that end the utility at each step, and volumes of which each call fails.
//
// 1. TERM ends the utility at whichever answer it comes, but after the switch.
// 2. Whichever call of the volume fails, once, with the old page or the new one left, the trace is
//    legal. The run ends down exactly where its last statement is answered so.
use crate::deck::{MemPlayed, play_judged};
use rg_mem::volume::{Failing, MemVolume};
use rg_run::played::RunEnd;
use rg_stmt::event::{Actor, Entry, Event};
use rg_stmt::stmt::Reply;
use std::alloc::{AllocError, Global};
use std::process::Abort;
use std::test::Fail;

// Sixteen steps, with a rollback under the drain.
const DECK: &[u8] = b"1 INSERT 1 10 1 a\n1 COMMIT\n1 UPDATE 1 99 1 z\n\
    REORG TABLESPACE SHRLEVEL CHANGE\nU\nU\nU\nU\nU\nU\nU\nU\nU\nU\n1 ROLLBACK\n\
    U\nU\nU\nU\nU\nU\n2 SELECT 1\n";

const STEPS: u32 = 16;

// The run of the deck over a volume of which these calls fail, with these answers. Its trace is
// legal.
fn played(
    rt: &impl Abort,
    alloc: Global,
    failing: &[Failing],
    answers: &[u8],
) -> Result<MemPlayed, Fail> {
    let volume = MemVolume::new(alloc, 64, 8, 8, 1000, 1000, failing, None)?;
    let judged = play_judged(alloc, volume, DECK, answers)?;
    assert_eq!(rt; judged.end.verdict, None);
    let end = judged.end.end;
    Ok(judged.ended(end))
}

// An operator who gives TERM at one answer.
fn term_at(alloc: Global, answer: u32) -> Result<Vec<u8>, AllocError> {
    let mut lines = Vec::new(alloc);
    for _ in 1..answer {
        lines.extend_from_slice(b"0 0\n")?;
    }
    lines.extend_from_slice(b"0 0 TERM\n")?;
    Ok(lines)
}

fn is_step(entry: &Entry) -> bool {
    entry.actor == Actor::Utility && !matches!(entry.event, Event::Started { .. })
}

#[test]
fn ends_at_every_answer(rt: HostRuntime) -> Result<(), Fail> {
    let alloc = rt.alloc();
    let whole = played(&rt, alloc, &[], b"")?;
    for answer in 1..=STEPS {
        let ended = played(&rt, alloc, &[], &term_at(alloc, answer)?)?;
        assert_eq!(rt; ended.trace.len(), whole.trace.len());
        let mut step = 0u32;
        for (entry, before) in ended.trace.iter().zip(whole.trace.iter()) {
            if is_step(entry) {
                step = step.saturating_add(1);
            }
            if !is_step(entry) || step < answer || answer == STEPS {
                let same = format!(in alloc; "{:?}", before.event)?;
                let event = format!(in alloc; "{:?}", entry.event)?;
                assert_eq!(rt; event.as_str(), same.as_str(), "TERM at {answer}");
            } else {
                let event = format!(in alloc; "{:?}", entry.event)?;
                let wanted = if step == answer { "Stop(Term)" } else { "Idle" };
                assert_eq!(rt; event.as_str(), wanted, "TERM at {answer}");
            }
        }
    }
    Ok(())
}

fn ends_down(trace: &[Entry]) -> bool {
    match trace.last() {
        Some(entry) => matches!(
            entry.event,
            Event::Said {
                reply: Reply::Down,
                ..
            }
        ),
        None => false,
    }
}

// The opening makes two calls. The COMMIT makes two more; WRITTEN forces the log, writes a page and
// syncs; and the switch forces the log.
#[test]
fn is_legal_at_every_fault(rt: HostRuntime) -> Result<(), Fail> {
    let alloc = rt.alloc();
    let mut down = 0u32;
    for call in 1..=12 {
        for written in [false, true] {
            let played = played(&rt, alloc, &[Failing { call, written }], b"")?;
            let opened = matches!(played.end, RunEnd::Whole { .. } | RunEnd::Down);
            assert_eq!(rt; opened, call > 2, "call {call}");
            let is_down = matches!(played.end, RunEnd::Down);
            assert_eq!(rt; is_down, ends_down(&played.trace), "call {call}");
            if is_down {
                down = down.saturating_add(1);
            }
        }
    }
    assert_eq!(rt; down, 8);
    Ok(())
}
