// The texts of the utility's phases: each is one line of words and decimal numbers.
ghost use Rattle.std.specs.Prelude.{◌≡◌, ◌++◌, OnOk};
ghost use Rattle.rg_print.specs.Utility.{drain_text, last_text, log_text, reload_text};
ghost use Rattle.rg_print.specs.Utility.{started_text, stop_text, unload_text, verdict_text};

use rg_base::copy::TableCopy;
use rg_base::no_memory::NoMemory;
use rg_base::options::DrainFor;
use rg_base::verdict::{StopReason, Verdict};
use std::io::Write;

pub fn push_started(out: &mut Vec<u8>, copy: TableCopy, pages: u32) -> Result<(), NoMemory>
    ensures { OnOk result (out.new.items ≡ out.old.items ++ started_text copy pages) }
{
    let copy = copy.number();
    write!(out, "STARTED copy={copy} pages={pages}").map_err(|_| NoMemory)
}

pub fn push_unload(out: &mut Vec<u8>, page: u32, rows: u16) -> Result<(), NoMemory>
    ensures { OnOk result (out.new.items ≡ out.old.items ++ unload_text page rows) }
{
    write!(out, "UNLOAD page={page} rows={rows}").map_err(|_| NoMemory)
}

pub fn push_reload(out: &mut Vec<u8>, page: u32, rows: u16) -> Result<(), NoMemory>
    ensures { OnOk result (out.new.items ≡ out.old.items ++ reload_text page rows) }
{
    write!(out, "RELOAD page={page} rows={rows}").map_err(|_| NoMemory)
}

pub fn push_log(
    out: &mut Vec<u8>,
    iteration: u64,
    took: u8,
    left: u64,
    verdict: Verdict,
) -> Result<(), NoMemory>
    ensures { OnOk result (out.new.items ≡ out.old.items ++ log_text iteration took left verdict) }
{
    let verdict = verdict_words(verdict);
    write!(
        out,
        "LOG iteration={iteration} took={took} left={left} {verdict}"
    )
    .map_err(|_| NoMemory)
}

pub fn push_last(out: &mut Vec<u8>, took: u8, left: u64) -> Result<(), NoMemory>
    ensures { OnOk result (out.new.items ≡ out.old.items ++ last_text took left) }
{
    write!(out, "LAST took={took} left={left}").map_err(|_| NoMemory)
}

fn verdict_words(verdict: Verdict) -> &'static str
    ensures { result.now ≡ verdict_text verdict }
{
    match verdict {
        Verdict::More => "MORE",
        Verdict::Next => "NEXT",
        Verdict::Message => "MESSAGE",
        Verdict::Drain(DrainFor::Writers) => "DRAIN WRITERS",
        Verdict::Drain(DrainFor::All) => "DRAIN ALL",
        Verdict::Stop(reason) => stop_words(reason),
    }
}

pub fn stop_words(reason: StopReason) -> &'static str
    ensures { result.now ≡ stop_text reason }
{
    match reason {
        StopReason::Term => "STOP TERM",
        StopReason::Deadline => "STOP DEADLINE",
        StopReason::Longlog => "STOP LONGLOG",
        StopReason::Drain => "STOP DRAIN",
        StopReason::NoSpace => "STOP NOSPACE",
        StopReason::Device => "STOP DEVICE",
        StopReason::NoMemory => "STOP NOMEMORY",
    }
}

pub fn drain_name(drain: DrainFor) -> &'static str
    ensures { result.now ≡ drain_text drain }
{
    match drain {
        DrainFor::Writers => "WRITERS",
        DrainFor::All => "ALL",
    }
}
