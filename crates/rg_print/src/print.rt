// The print of a trace.
//
// 1. Entries are numbered from 0, and each has one line or more. The last line says how
//    the run ended.
// 2. The text is made whole before any of it is given. Out of memory gives none of it.
ghost use Rattle.std.specs.Prelude.{◌≡◌, ◌++◌, OnOk, IfOk};
ghost use Rattle.rg_print.specs.Print.{actor_text, close_text, damaged_text, end_down_text};
ghost use Rattle.rg_print.specs.Print.{end_text, entry_text, event_text, opened_text};
ghost use Rattle.rg_print.specs.Print.{print_layout_text, print_text, set_text};

use crate::layout::{push_layout, push_switched, which_name};
use crate::push::{push, push_named, push_number, push_word};
use crate::reply::push_reply;
use crate::utility::{
    drain_name, push_last, push_log, push_reload, push_started, push_unload, stop_words,
};
use rg_base::bytes::Bytes;
use rg_base::copy::TableCopy;
use rg_base::no_memory::NoMemory;
use rg_base::set::Set;
use rg_stmt::event::{Actor, Entry, Event};
use rg_stmt::layout::Side;
use std::alloc::Global;
use std::io::Write;

/// What the last line of a print says: the number of committed rows, that the engine is down, or
/// the page of the volume that was found damaged.
#[derive(Clone, Copy, Debug, PartialEq, Eq)]
pub enum Close {
    Rows(u64),
    Down,
    Damaged { set: Set, page: u32 },
}

/// The text of a trace, and its last line. `full` shows layouts with their spots and listings.
pub fn print(alloc: Global, trace: &[Entry], full: bool, close: Close) -> Result<Bytes, NoMemory>
    ensures { IfOk result (λ text. text ≡ print_text trace.now full close) }
{
    let mut out = Vec::new(alloc);
    for (number, entry) in trace.iter().enumerate() {
        push_entry(&mut out, full, number as u64, entry)?;
    }
    push_close(&mut out, trace.len() as u64, close)?;
    Ok(Bytes::new(out))
}

/// The layout of a copy alone, in full: no entry's number stands before it, and no last line
/// follows.
pub fn print_layout(alloc: Global, copy: TableCopy, side: &Side) -> Result<Bytes, NoMemory>
    ensures { IfOk result (λ text. text ≡ print_layout_text copy side.now) }
{
    let mut out = Vec::new(alloc);
    push_layout(&mut out, true, copy, side)?;
    push(&mut out, b"\n")?;
    Ok(Bytes::new(out))
}

fn push_entry(out: &mut Vec<u8>, full: bool, number: u64, entry: &Entry) -> Result<(), NoMemory>
    ensures { OnOk result (out.new.items ≡ out.old.items ++ entry_text full number entry.now) }
{
    push_number(out, number)?;
    push(out, b" ")?;
    push_actor(out, entry.actor)?;
    push(out, b" ")?;
    push_event(out, full, &entry.event)?;
    push(out, b"\n")
}

fn push_actor(out: &mut Vec<u8>, actor: Actor) -> Result<(), NoMemory>
    ensures { OnOk result (out.new.items ≡ out.old.items ++ actor_text actor) }
{
    match actor {
        Actor::System => push(out, b"-"),
        Actor::Session(session) => push_number(out, u64::from(session.0)),
        Actor::Utility => push(out, b"U"),
    }
}

fn push_event(out: &mut Vec<u8>, full: bool, event: &Event) -> Result<(), NoMemory>
    ensures { OnOk result (out.new.items ≡ out.old.items ++ event_text full event.now) }
{
    match event {
        Event::Opened {
            copy,
            rows,
            pages,
            ..
        } => push_opened(out, *copy, *rows, *pages),
        Event::Said { reply, .. } => push_reply(out, reply),
        Event::Started { copy, pages, .. } => push_started(out, *copy, *pages),
        Event::Active => push(out, b"ACTIVE"),
        Event::StartLogFull { .. } => push(out, b"2 LOGFULL"),
        Event::FlushDevice | Event::LayoutDevice => push(out, b"3 DEVICE"),
        Event::StartDown | Event::StepDown | Event::FlushDown | Event::LayoutDown => {
            push(out, b"4 DOWN")
        }
        Event::StartNoMemory | Event::FlushNoMemory | Event::LayoutNoMemory => {
            push(out, b"5 NOMEMORY")
        }
        Event::Idle => push(out, b"IDLE"),
        Event::Unload { page, rows } => push_unload(out, *page, *rows),
        Event::Reload { page, rows } => push_reload(out, *page, *rows),
        Event::Sort(which) => push_word(out, b"SORT ", which_name(*which)),
        Event::Build(which) => push_word(out, b"BUILD ", which_name(*which)),
        Event::Log {
            iteration,
            took,
            left,
            verdict,
        } => push_log(out, *iteration, *took, *left, *verdict),
        Event::Wait(session) => push_named(out, b"WAIT ", u64::from(session.0)),
        Event::Granted(drain) => push_word(out, b"GRANTED ", drain_name(*drain)),
        Event::GiveUp(number) => push_named(out, b"GIVEUP ", u64::from(*number)),
        Event::Last { took, left } => push_last(out, *took, *left),
        Event::Written { pages } => push_named(out, b"WRITTEN pages=", u64::from(*pages)),
        Event::Switched { copy, sides } => push_switched(out, full, *copy, sides),
        Event::Ended => push(out, b"ENDED"),
        Event::Stop(reason) => push(out, stop_words(*reason).as_bytes()),
        Event::Flush { page } => push_named(out, b"FLUSH page=", u64::from(*page)),
        Event::Clean => push(out, b"CLEAN"),
        Event::Layout { copy, side } => push_layout(out, full, *copy, side),
    }
}

fn push_opened(out: &mut Vec<u8>, copy: TableCopy, rows: u64, pages: u32) -> Result<(), NoMemory>
    ensures { OnOk result (out.new.items ≡ out.old.items ++ opened_text copy rows pages) }
{
    let copy = copy.number();
    write!(out, "OPENED copy={copy} rows={rows} pages={pages}").map_err(|_| NoMemory)
}

fn push_close(out: &mut Vec<u8>, entries: u64, close: Close) -> Result<(), NoMemory>
    ensures { OnOk result (out.new.items ≡ out.old.items ++ close_text entries close) }
{
    match close {
        Close::Rows(rows) => push_end(out, entries, rows),
        Close::Down => push_end_down(out, entries),
        Close::Damaged { set, page } => push_damaged(out, set, page),
    }
}

fn push_end(out: &mut Vec<u8>, entries: u64, rows: u64) -> Result<(), NoMemory>
    ensures { OnOk result (out.new.items ≡ out.old.items ++ end_text entries rows) }
{
    writeln!(out, "END entries={entries} rows={rows}").map_err(|_| NoMemory)
}

fn push_end_down(out: &mut Vec<u8>, entries: u64) -> Result<(), NoMemory>
    ensures { OnOk result (out.new.items ≡ out.old.items ++ end_down_text entries) }
{
    writeln!(out, "END entries={entries} DOWN").map_err(|_| NoMemory)
}

/// Appends the line that names a page of the volume which breaks a rule.
pub fn push_damaged(out: &mut Vec<u8>, set: Set, page: u32) -> Result<(), NoMemory>
    ensures { OnOk result (out.new.items ≡ out.old.items ++ damaged_text set page) }
{
    push_word(out, b"REFUSED volume damaged ", set_name(set))?;
    push_named(out, b" ", u64::from(page))?;
    push(out, b"\n")
}

fn set_name(set: Set) -> &'static str
    ensures { result.now ≡ set_text set }
{
    match set {
        Set::Log => "LOG",
        Set::First => "FIRST",
        Set::Second => "SECOND",
    }
}
