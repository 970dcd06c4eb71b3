// The line that sums up a run.
ghost use Rattle.std.specs.Prelude.{◌≡◌, IfOk, count_by};
ghost use Rattle.rg_print.specs.Layout.{is_over};
ghost use Rattle.rg_gen.specs.Summary.{is_answered, show, shown_in, legal_word, line_text};
ghost use Rattle.rg_gen.specs.Summary.{summary_text};

use rg_base::bytes::Bytes;
use rg_base::no_memory::NoMemory;
use rg_model::plain::parts::is_done;
use rg_stmt::event::{Entry, Event};
use rg_stmt::layout::Spot;
use std::alloc::Global;
use std::io::Write;

/// What a layout shows of its copy: its number, its pages, and how many rows were moved.
#[derive(Clone, Copy, Debug, PartialEq, Eq)]
pub struct Shown {
    pub copy: u8,
    pub pages: u32,
    pub over: u64,
}

/// The line of a run of the deck of this seed, by its trace and whether that is legal.
pub fn summary(
    alloc: Global,
    seed: u64,
    rows: u32,
    trace: &[Entry],
    legal: bool,
) -> Result<Bytes, NoMemory>
    ensures { IfOk result (λ text. text ≡ summary_text seed rows trace.now legal) }
{
    let ok = count_answered(trace, true);
    let refused = count_answered(trace, false);
    line(
        alloc,
        seed,
        rows,
        trace.len(),
        ok,
        refused,
        find_shown(trace),
        legal,
    )
}

// The line, by what it says.
fn line(
    alloc: Global,
    seed: u64,
    rows: u32,
    entries: usize,
    ok: usize,
    refused: usize,
    shown: Shown,
    legal: bool,
) -> Result<Bytes, NoMemory>
    ensures { IfOk result (λ text. text ≡ line_text seed rows entries ok refused shown legal) }
{
    let Shown { copy, pages, over } = shown;
    let word = legal_word(legal);
    let mut out = Vec::new(alloc);
    match writeln!(
        out,
        "GEN seed={seed} rows={rows} entries={entries} ok={ok} refused={refused} \
         copy={copy} pages={pages} over={over} legal={word}"
    ) {
        Ok(()) => Ok(Bytes::new(out)),
        Err(_) => Err(NoMemory),
    }
}

fn legal_word(legal: bool) -> &'static str
    ensures { result.now ≡ legal_word legal }
{
    if legal { "yes" } else { "no" }
}

// How many statements were done, or how many were not.
fn count_answered(trace: &[Entry], done: bool) -> usize
    ensures { result ≡ count_by (is_answered done) trace.now }
{
    let mut count = 0;
    for entry in trace {
        if is_answered(entry, done) {
            count += 1;
        }
    }
    count
}

fn is_answered(entry: &Entry, done: bool) -> bool
    ensures { result ≡ is_answered done entry.now }
{
    match &entry.event {
        Event::Said { reply, .. } => is_done(reply) == done,
        _ => false,
    }
}

// What the last layout shows.
fn find_shown(trace: &[Entry]) -> Shown
    ensures { result ≡ shown_in trace.now }
{
    let mut shown = Shown {
        copy: 0,
        pages: 0,
        over: 0,
    };
    for entry in trace {
        shown = show(shown, &entry.event);
    }
    shown
}

fn show(shown: Shown, event: &Event) -> Shown
    ensures { result ≡ show shown event.now }
{
    match event {
        Event::Layout { copy, side } => Shown {
            copy: copy.number(),
            pages: side.pages,
            over: count_over(side.spots.as_slice()) as u64,
        },
        _ => shown,
    }
}

fn count_over(spots: &[Spot]) -> usize
    ensures { result ≡ count_by is_over spots.now }
{
    spots.iter().filter(|spot| spot.over.is_some()).count()
}
