// 1. The volume is synced first, so what is read is what a crash leaves.
// 2. Pages are read in order, up to the first page of zeros or the end of the set. A page in
//    between has the form of a log page, its first record has the next position, and that record
//    had no room on the page before. The first page without these is named.
// 3. Nothing is written.
ghost use Rattle.std.specs.Prelude.{◌≡◌, ◌≤◌, ◌+◌, ◌*◌, [], IfOk, IfErr, OnOk, IsTrue, ◌↔◌, length};
ghost use Rattle.rg_outside.specs.Calls.{read_of};
ghost use Rattle.rg_outside.specs.Moments.{EachCall, IfTold};
ghost use Rattle.rg_image.specs.Form.{IsOpened};
ghost use Rattle.rg_image.specs.Kept.{AreEntries};
ghost use Rattle.rg_image.specs.Rules.{Follows, HasLogPages, position_after};
ghost use Rattle.rg_log.specs.Kept.{LeavesLog, log_pages};
ghost use Rattle.rg_log.specs.Open.{IsCertain, IsNext, IsLogFault, IsQuiet, ReadsTidy};

use crate::entries::read_page;
use crate::fault::LogFault;
use crate::log::Log;
use crate::page::count_fitting;
use rg_base::no_memory::NoMemory;
use rg_base::set::Set;
use rg_image::sizes::{ROOM, size_of};
use rg_outside::volume::Volume;
use rg_record::buffer::PAGE_SIZE;
use rg_record::record::Record;
use std::alloc::Global;

/// What the next log page is.
#[derive(Drop)]
pub enum Next {
    /// A page of zeros: the log ends before it.
    End,
    /// It breaks the rule for log pages.
    Broken,
    /// A page with these records.
    Page(Vec<Record>),
}

// The position of the last record, or 0.
fn last_position(records: &[Record]) -> u64
    ensures { position_after 1 records.now ≡ result + 1 }
{
    let mut last = 0;
    for entry in records {
        last = entry.position.0;
    }
    last
}

// Whether the first of these records has the next position, and had no room on the page before.
fn follows(records: &[Record], from: usize, page: u32, more: &[Record]) -> bool
    requires opened { IsOpened records.now from page }
    requires entries { AreEntries records.now }
    requires some { 1 ≤ length more.now }
    requires more { AreEntries more.now }
    ensures { IsTrue result ↔ Follows (page + 1) records.now more.now }
{
    let first = &more[0];
    let last = last_position(records);
    if first.position.0 == 0 || first.position.0 - 1 != last {
        return false;
    }
    if page == 0 {
        return true;
    }
    let (_, back) = records.split_at(from);
    let (_, used) = count_fitting(back);
    used + size_of(first) > ROOM
}

// What the page with these bytes is, after those with these records.
fn read_next(
    alloc: Global,
    records: &[Record],
    from: usize,
    page: u32,
    bytes: &[u8; PAGE_SIZE],
) -> Result<Next, NoMemory>
    requires opened { IsOpened records.now from page }
    requires entries { AreEntries records.now }
    requires small { page + 1 ≤ 65536 }
    ensures { IfOk result (IsNext (page + 1) records.now bytes.now) }
{
    if *bytes == [0; PAGE_SIZE] {
        return Ok(Next::End);
    }
    match read_page(alloc, bytes, page + 1)? {
        None => Ok(Next::Broken),
        Some(more) => {
            if follows(records, from, page, more.as_slice()) {
                Ok(Next::Page(more))
            } else {
                Ok(Next::Broken)
            }
        }
    }
}

/// Reads the log of a volume.
pub fn open_log<V: Volume>(alloc: Global, volume: &mut V) -> Result<Log, LogFault>
    ensures state { IfOk result (λ log. (log.forced ≡ length log.records) × (log.reserved ≡ 0)
        × (log.pages ≡ log_pages (V.seen volume.old).capacities)) }
    // All log pages have the form, and these are their records.
    ensures log { IfOk result (λ log. IfTold (V.seen volume.new).told
        (λ t. HasLogPages log.pages (read_of t.first t.calls) log.records)) }
    // A crash leaves what was read.
    ensures sure { OnOk result (IfTold (V.seen volume.new).told IsCertain) }
    // Where it read tidy, whatever a crash leaves spells these records: this is what `force` asks
    // to go on from.
    ensures leaves { IfOk result (λ log. ReadsTidy (V.seen volume.old).told log.pages
        → LeavesLog (V.seen volume.new).told log.pages log.records log.forced) }
    // The page that is named is the first that has not.
    ensures fault { IfErr result
        (IsLogFault (V.seen volume.new).told (log_pages (V.seen volume.old).capacities)
        (V.seen volume.old).faults (V.seen volume.new).faults) }
    // No page is written.
    ensures only { EachCall (V.seen volume.old).told (V.seen volume.new).told IsQuiet }
    ensures capacities { (V.seen volume.new).capacities ≡ (V.seen volume.old).capacities }
    ensures later { (V.seen volume.old).faults ≤ (V.seen volume.new).faults }
{
    match volume.sync() {
        Err(_) => return Err(LogFault::Device),
        Ok(()) => {}
    }
    let pages = volume.capacity(Set::Log).min(65536);
    let mut records: Vec<Record> = Vec::new(alloc);
    let mut from: usize = 0;
    for page in 0..pages {
        let mut bytes = [0; PAGE_SIZE];
        match volume.read(Set::Log, page + 1, &mut bytes) {
            Err(_) => return Err(LogFault::Device),
            Ok(()) => {}
        }
        match read_next(alloc, records.as_slice(), from, page, &bytes) {
            Err(_) => return Err(LogFault::NoMemory),
            Ok(Next::End) => return Ok(Log::opened(records, from, page, pages)),
            Ok(Next::Broken) => return Err(LogFault::Damaged { page: page + 1 }),
            Ok(Next::Page(more)) => {
                from = records.len();
                let mut more = more;
                if records.append(&mut more).is_err() {
                    return Err(LogFault::NoMemory);
                }
            }
        }
    }
    Ok(Log::opened(records, from, pages, pages))
}
