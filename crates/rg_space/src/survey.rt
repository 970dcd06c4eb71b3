// The summaries of the pages that frames have, read once when a space is made. A page is let go
// before the next one is read, so that one idle frame is enough.
ghost use Rattle.std.specs.Prelude.{◌≡◌, ◌≤◌, ◌<◌, ◌+◌, [], map, true, length, IfOk, IfErr, OnOk};
ghost use Rattle.rg_page.specs.Bare.{bare};
ghost use Rattle.rg_page.specs.Content.{content_at};
ghost use Rattle.rg_page.specs.Seen.{Reads};
ghost use Rattle.rg_space.specs.Took.{HasRisen};
ghost use Rattle.rg_space.specs.Space.{Agree};

use crate::fault::SpaceFault;
use crate::summaries::Summaries;
use rg_page::frames::Frames;
use rg_page::summary::Summary;
use std::alloc::Global;

// The summary of the page of this number, which is held from then on.
fn summary_of<F: Frames>(alloc: Global, frames: &mut F, number: u32) -> Result<Summary, SpaceFault>
    requires low { 1 ≤ number }
    requires high { number ≤ length (F.seen frames.old).pages }
    requires spare { 1 ≤ (F.seen frames.old).spare }
    ensures summary { IfOk result (λ summary. summary
        ≡ map bare (content_at (F.seen frames.new).pages number).slots) }
    ensures reads { Reads (F.seen frames.old) (F.seen frames.new) }
    ensures reserved { (F.seen frames.new).reserved ≡ (F.seen frames.old).reserved }
    ensures idle { (F.seen frames.old).idle ≤ (F.seen frames.new).idle }
    ensures cause { IfErr result (λ fault. HasRisen fault (F.seen frames.old) (F.seen frames.new)) }
    ensures gave { F.gave (F.seen frames.old).pages
        (F.seen frames.old).forced frames.old frames.new }
{
    let page = match frames.with_page(number) {
        Ok(page) => page,
        Err(_) => return Err(SpaceFault::Device),
    };
    match page.summary().copy(alloc) {
        Ok(summary) => Ok(summary),
        Err(_) => Err(SpaceFault::NoMemory),
    }
}

// The same, where all other pages are let go first.
fn next_summary<F: Frames>(
    alloc: Global,
    frames: &mut F,
    number: u32,
) -> Result<Summary, SpaceFault>
    requires low { 1 ≤ number }
    requires high { number ≤ length (F.seen frames.old).pages }
    requires idle { 1 ≤ (F.seen frames.old).idle }
    ensures summary { IfOk result (λ summary. summary
        ≡ map bare (content_at (F.seen frames.new).pages number).slots) }
    ensures reads { Reads (F.seen frames.old) (F.seen frames.new) }
    ensures reserved { (F.seen frames.new).reserved ≡ (F.seen frames.old).reserved }
    ensures idle { (F.seen frames.old).idle ≤ (F.seen frames.new).idle }
    ensures cause { IfErr result (λ fault. HasRisen fault (F.seen frames.old) (F.seen frames.new)) }
    ensures gave { F.gave (F.seen frames.old).pages
        (F.seen frames.old).forced frames.old frames.new }
{
    frames.let_go();
    summary_of(alloc, frames, number)
}

/// Adds the summary of each page to summaries of no page.
pub fn survey<F: Frames>(
    alloc: Global,
    frames: &mut F,
    summaries: &mut Summaries,
) -> Result<(), SpaceFault>
    requires idle { 1 ≤ (F.seen frames.old).idle }
    requires empty { summaries.old ≡ record { pages = []; room = 0 } }
    ensures reads { Reads (F.seen frames.old) (F.seen frames.new) }
    ensures reserved { (F.seen frames.new).reserved ≡ (F.seen frames.old).reserved }
    ensures idle { (F.seen frames.old).idle ≤ (F.seen frames.new).idle }
    ensures count { OnOk result (length summaries.new.pages ≡ length (F.seen frames.new).pages) }
    ensures room { OnOk result (summaries.new.room ≡ 0) }
    ensures agree { OnOk result ((F.seen frames.new).sure ≡ true
        → Agree (F.seen frames.new) summaries.new) }
    ensures cause { IfErr result (λ fault. HasRisen fault (F.seen frames.old) (F.seen frames.new)) }
    ensures gave { F.gave (F.seen frames.old).pages
        (F.seen frames.old).forced frames.old frames.new }
{
    let count = frames.count();
    let mut n = 0;
    while n < count {
        let summary = next_summary(alloc, frames, n + 1)?;
        match summaries.push(alloc, summary) {
            Ok(()) => {}
            Err(_) => return Err(SpaceFault::NoMemory),
        }
        n += 1;
    }
    Ok(())
}
