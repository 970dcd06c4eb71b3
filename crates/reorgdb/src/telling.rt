// The text of a run. What it is made of is in specs/Telling.antt.
ghost use Rattle.std.specs.Prelude.{◌≡◌, ◌++◌, IfOk, OnOk};
ghost use Rattle.reorgdb.specs.Telling.{run_text, judge_text};

use rg_base::bytes::Bytes;
use rg_base::no_memory::NoMemory;
use rg_gen::summary::summary;
use rg_print::print::{Close, print};
use rg_stmt::event::Entry;
use std::alloc::Global;
use std::io::Write;

/// What is told of the run of a deck.
#[derive(Clone, Copy, Debug, PartialEq, Eq)]
pub enum Tells {
    /// Its trace, with full layouts or brief ones: for `play`.
    Print { full: bool },
    /// Its trace with brief layouts, and what the judge says of it: for `judge`.
    Verdict,
    /// The line that sums it up, of a deck that was made of this seed with so many rows: for `gen`.
    Summary { seed: u64, rows: u32 },
}

/// The text of a run that was played. `verdict` is what the judge says of its trace: the number of
/// the first entry that is not legal, if there is one. A print does not tell of it.
pub fn run_text(
    alloc: Global,
    tells: Tells,
    trace: &[Entry],
    close: Close,
    verdict: Option<usize>,
) -> Result<Bytes, NoMemory>
    ensures { IfOk result (λ text. text ≡ run_text tells trace.now close verdict) }
{
    match tells {
        Tells::Print { full } => print(alloc, trace, full, close),
        Tells::Verdict => judged_text(alloc, trace, close, verdict),
        Tells::Summary { seed, rows } => summary(alloc, seed, rows, trace, verdict.is_none()),
    }
}

// The print, and the line of the judge.
fn judged_text(
    alloc: Global,
    trace: &[Entry],
    close: Close,
    verdict: Option<usize>,
) -> Result<Bytes, NoMemory>
    ensures { IfOk result (λ text. text ≡ run_text Tells.Verdict trace.now close verdict) }
{
    let mut out = print(alloc, trace, false, close)?.into_vec();
    push_verdict(&mut out, verdict)?;
    Ok(Bytes::new(out))
}

fn push_verdict(out: &mut Vec<u8>, verdict: Option<usize>) -> Result<(), NoMemory>
    ensures { OnOk result (out.new.items ≡ out.old.items ++ judge_text verdict) }
{
    let written = match verdict {
        None => writeln!(out, "JUDGE legal"),
        Some(entry) => writeln!(out, "JUDGE entry {entry}"),
    };
    written.map_err(|_| NoMemory)
}
