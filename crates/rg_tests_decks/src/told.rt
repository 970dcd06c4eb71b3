use crate::order::Shows;
use rg_base::no_memory::NoMemory;
use rg_desk::run::Run;
use rg_mem::script::ScriptOperator;
use rg_mem::volume::MemVolume;
use rg_outside::operator::Operator;
use rg_print::print::{Close, print, push_damaged};
use rg_run::played::{Judged, JudgedEnd, RunEnd};
use rg_stmt::event::{Entry, Event};
use rg_stmt::stmt::Reply;
use std::alloc::Global;
use std::io::Write;

/// The text of a run, and the volume that it leaves.
pub fn text_of(
    alloc: Global,
    shows: Shows,
    judged: Judged<MemVolume, ScriptOperator>,
) -> Result<(Vec<u8>, MemVolume), NoMemory> {
    let Run {
        volume,
        operator,
        trace,
        end: JudgedEnd { end, verdict },
    } = judged;
    let mut out = Vec::new(alloc);
    if trace.is_empty() {
        push_refusal(&mut out, end)?;
    } else {
        let full = matches!(shows, Shows::FullLayouts);
        let text = print(alloc, &trace, full, close_of(end))?;
        out.extend_from_slice(text.as_slice())?;
        push_verdict(&mut out, verdict)?;
    }
    if matches!(shows, Shows::Counts) {
        push_counts(&mut out, &trace)?;
        push_next(&mut out, operator)?;
    }
    Ok((out, volume))
}

// The last line of the print of a run that was begun.
fn close_of(end: RunEnd) -> Close {
    match end {
        RunEnd::Whole { rows } => Close::Rows(rows),
        RunEnd::Damaged { set, page } => Close::Damaged { set, page },
        RunEnd::Down | RunEnd::DeviceAtOpening | RunEnd::NoMemory => Close::Down,
    }
}

// The text of a run whose first opening was refused.
fn push_refusal(out: &mut Vec<u8>, end: RunEnd) -> Result<(), NoMemory> {
    match end {
        RunEnd::Damaged { set, page } => push_damaged(out, set, page),
        RunEnd::DeviceAtOpening => Ok(out.extend_from_slice(b"REFUSED volume device\n")?),
        _ => Err(NoMemory),
    }
}

// The moment of the answer that the operator would give next.
fn push_next(out: &mut Vec<u8>, operator: ScriptOperator) -> Result<(), NoMemory> {
    let mut operator = operator;
    let next = operator.ask(0);
    writeln!(out, "NEXT now={}", next.now).map_err(|_| NoMemory)
}

fn push_verdict(out: &mut Vec<u8>, verdict: Option<usize>) -> Result<(), NoMemory> {
    let written = match verdict {
        None => writeln!(out, "JUDGE legal"),
        Some(entry) => writeln!(out, "JUDGE entry {entry}"),
    };
    written.map_err(|_| NoMemory)
}

// The numbers of each entry of which the print does not tell.
fn push_counts(out: &mut Vec<u8>, trace: &[Entry]) -> Result<(), NoMemory> {
    for (at, entry) in trace.iter().enumerate() {
        write!(out, "{at} calls={}", entry.calls).map_err(|_| NoMemory)?;
        if let Some(answer) = entry.answer {
            write!(out, " now={}", answer.now).map_err(|_| NoMemory)?;
        }
        let written = match &entry.event {
            Event::Opened { used, .. } => write!(out, " used={used}"),
            Event::Said {
                reply: Reply::LogFull { need, left },
                ..
            } => write!(out, " need={need} left={left}"),
            _ => Ok(()),
        };
        written.map_err(|_| NoMemory)?;
        out.push(b'\n')?;
    }
    Ok(())
}
