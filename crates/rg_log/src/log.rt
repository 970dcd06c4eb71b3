// 1. The log is a list of records. Positions count from 1: record number p has position p.
// 2. What is appended was reserved before: its bytes up to the limit, and the memory for it. So
//    appending is never refused.
// 3. Reserved bytes become used bytes, or are given back. Used and reserved bytes together never
//    pass the limit, so the pages of the records are within the set.
// 4. Nothing that is forced is lost: records are only added.
ghost use Rattle.std.specs.Prelude.{◌≡◌, ◌≤◌, ◌<◌, ◌+◌, ◌-◌, ◌++◌, ◌∷◌, [], ℕ, length, OnOk, OnErr};
ghost use Rattle.std.specs.Prelude.{IfOk, IfErr, min, slice_index_or};
ghost use Rattle.rg_base.specs.declared.set.Set.TheVariants.{Log as LogSet};
ghost use Rattle.rg_outside.specs.Faults.{HasCause, Rose};
ghost use Rattle.rg_outside.specs.Made.{WritesIn};
ghost use Rattle.rg_outside.specs.Moments.{EachCall, EachImage, IfTold};
ghost use Rattle.rg_image.specs.Form.{IsOpened};
ghost use Rattle.rg_image.specs.Kept.{IsEntry, AreEntries};
ghost use Rattle.rg_image.specs.Log.{log_of};
ghost use Rattle.rg_image.specs.Pack.{end_of, size_of, log_bytes, start};
ghost use Rattle.rg_image.specs.Rules.{limit_of};
ghost use Rattle.rg_log.specs.Kept.{LeavesLog, Listed, ReserveFaultIs, left_of, log_pages};
ghost use Rattle.rg_log.specs.Present.{KeepsLog};

use crate::fault::{Device, ReserveFault};
use crate::force::{force_page, next_page};
use crate::page::page_end;
use rg_base::no_memory::NoMemory;
use rg_base::position::Position;
use rg_image::sizes::{all_bytes, size_of};
use rg_outside::source::Failed;
use rg_outside::volume::Volume;
use rg_record::record::Record;
use std::alloc::Global;
use std::marker::Model;

/// The least number of bytes that a record takes of a page.
pub const LEAST: u32 = 23;

/// The log, seen as its records, how many of them are forced, the reserved bytes, and the pages of
/// its set.
#[derive(Drop)]
pub struct Log {
    records: Vec<Record>,
    forced: usize,
    from: usize,
    page: u32,
    used: u32,
    reserved: u32,
    pages: u32,
}

impl Model for Log {
    ghost use Rattle.std.specs.Prelude.{vec_capacity};
    ghost use Rattle.rg_log.specs.Kept.{Listed, IsForced, HasRoom};

    ghost Value = { Listed };

    ghost view = { λ l. record {
      records = l.records.items;
      forced = l.forced;
      reserved = l.reserved;
      pages = l.pages;
    } };

    ghost invariant = { λ l. IsForced l.records.items l.forced l.from l.page
        × HasRoom l.records.items l.used l.reserved l.pages (vec_capacity l.records) };
}

impl Log {
    /// The log of a set of so many pages that are all zero.
    pub fn empty(alloc: Global, pages: u32) -> Log
        requires { pages ≤ 65536 }
        ensures { result ≡ record { records = []; forced = 0; reserved = 0; pages = pages } }
    {
        Log {
            records: Vec::new(alloc),
            forced: 0,
            from: 0,
            page: 1,
            used: 0,
            reserved: 0,
            pages,
        }
    }

    /// The log of a set whose first pages have these records, the last of these pages from record
    /// `from` on.
    pub fn opened(records: Vec<Record>, from: usize, page: u32, pages: u32) -> Log
        requires opened { IsOpened records.items from page }
        requires entries { AreEntries records.items }
        requires page { page ≤ pages }
        requires pages { pages ≤ 65536 }
        ensures { result ≡ record {
          records = records.items;
          forced = length records.items;
          reserved = 0;
          pages = pages;
        } }
    {
        let used = all_bytes(records.as_slice());
        let forced = records.len();
        if page == 0 {
            return Log {
                records,
                forced,
                from: 0,
                page: 1,
                used,
                reserved: 0,
                pages,
            };
        }
        Log {
            records,
            forced,
            from,
            page,
            used,
            reserved: 0,
            pages,
        }
    }

    /// The bytes of the records, each with its length.
    pub fn used(&self) -> u32
        ensures { result ≡ log_bytes self.now.records }
    {
        self.used
    }

    /// The bytes that are reserved.
    pub fn reserved(&self) -> u32
        ensures { result ≡ self.now.reserved }
    {
        self.reserved
    }

    /// The most bytes that may be used and reserved.
    pub fn limit(&self) -> u32
        ensures { result ≡ limit_of self.now.pages }
    {
        if self.pages == 0 {
            return 0;
        }
        2270 * (self.pages - 1)
    }

    /// The number of records, which is the position of the last one.
    pub fn last(&self) -> Position
        ensures { result.0 ≡ length self.now.records }
    {
        Position(self.records.len() as u64)
    }

    /// The position of the last record that is on the volume for good.
    pub fn forced(&self) -> Position
        ensures is { result.0 ≡ self.now.forced }
        ensures within { self.now.forced ≤ length self.now.records }
        ensures entries { AreEntries self.now.records }
    {
        Position(self.forced as u64)
    }

    /// The records, the first one first.
    pub fn records(&self) -> &[Record]
        ensures records { result.now ≡ self.now.records }
        ensures entries { AreEntries self.now.records }
        ensures set { 1 ≤ length self.now.records
            → (end_of start self.now.records).page ≤ self.now.pages }
        ensures last { (end_of start self.now.records).page ≤ 65536 }
    {
        self.records.as_slice()
    }

    /// A copy of the record with this position.
    pub fn read_at(&self, alloc: Global, position: Position) -> Result<Record, NoMemory>
        requires low { 1 ≤ position.0 }
        requires high { position.0 ≤ length self.now.records }
        ensures { IfOk result
            (λ entry. entry ≡ slice_index_or self.now.records (position.0 - 1) entry) }
    {
        self.records[(position.0 - 1) as usize].copy(alloc)
    }

    /// Reserves bytes up to the limit, and the memory for the records that take them.
    pub fn reserve(&mut self, bytes: u32) -> Result<(), ReserveFault>
        ensures ok { OnOk result
            (self.new ≡ record self.old { reserved = self.old.reserved + bytes }) }
        ensures err { OnErr result (self.new ≡ self.old) }
        ensures room { OnOk result (bytes ≤ left_of self.old) }
        ensures fault { IfErr result (ReserveFaultIs self.old bytes) }
    {
        let limit = self.limit();
        let left = limit
            .saturating_sub(self.used)
            .saturating_sub(self.reserved);
        if bytes > left {
            return Err(ReserveFault::LogFull { need: bytes, left });
        }
        let most = (self.reserved + bytes) / LEAST;
        if self.records.reserve(most as usize).is_err() {
            return Err(ReserveFault::NoMemory);
        }
        self.reserved += bytes;
        Ok(())
    }

    /// Gives reserved bytes back.
    pub fn give_back(&mut self, bytes: u32)
        requires { bytes ≤ self.old.reserved }
        ensures { self.new ≡ record self.old { reserved = self.old.reserved - bytes } }
    {
        self.reserved -= bytes;
    }

    /// Adds a record at the end, and answers its position.
    pub fn append(&mut self, entry: Record) -> Position
        requires entry { IsEntry entry }
        requires reserved { size_of entry ≤ self.old.reserved }
        requires next { entry.position.0 ≡ length self.old.records + 1 }
        ensures appended { self.new ≡ record self.old {
          records = self.old.records ++ entry ∷ [];
          reserved = self.old.reserved - size_of entry;
        } }
        ensures position { result.0 ≡ length self.old.records + 1 }
    {
        let size = size_of(&entry);
        let position = entry.position;
        self.records.push_reserved(entry);
        self.reserved -= size;
        self.used += size;
        position
    }

    // How many records there are.
    fn count(&self) -> usize
        ensures { result ≡ length self.now.records }
    {
        self.records.len()
    }

    // How many records are forced.
    fn count_forced(&self) -> usize
        ensures is { result ≡ self.now.forced }
        ensures within { self.now.forced ≤ length self.now.records }
        ensures entries { AreEntries self.now.records }
        ensures set { 1 ≤ length self.now.records
            → (end_of start self.now.records).page ≤ self.now.pages }
    {
        self.forced
    }

    // Forces one page more.
    fn step<V: Volume>(&mut self, volume: &mut V) -> Result<(), Failed>
        requires more { self.old.forced < length self.old.records }
        requires pages { self.old.pages ≡ log_pages (V.seen volume.old).capacities }
        ensures kept { self.new ≡ record self.old { forced = self.new.forced } }
        ensures further { self.old.forced ≤ self.new.forced }
        ensures within { self.new.forced ≤ length self.old.records }
        ensures ok { OnOk result (self.old.forced < self.new.forced) }
        ensures moments { KeepsLog (V.seen volume.old).told (V.seen volume.new).told self.old.pages
            self.old.records self.old.forced }
        ensures ahead { LeavesLog (V.seen volume.old).told self.old.pages self.old.records
            self.old.forced
            → LeavesLog (V.seen volume.new).told self.old.pages self.old.records self.new.forced }
        ensures only { EachCall (V.seen volume.old).told (V.seen volume.new).told
            (WritesIn LogSet) }
        ensures capacities { (V.seen volume.new).capacities ≡ (V.seen volume.old).capacities }
        ensures cause { HasCause (V.seen volume.old).faults (V.seen volume.new).faults result }
    {
        let records = self.records.as_slice();
        let (from, page) = next_page(records, self.forced, self.from, self.page);
        let end = page_end(records, from);
        force_page(volume, records, from, end, page)?;
        self.from = from;
        self.page = page;
        self.forced = end;
        Ok(())
    }

    /// Puts all records on the volume for good. Where none is missing it makes no call.
    pub fn force<V: Volume>(&mut self, volume: &mut V) -> Result<(), Device>
        requires { self.old.pages ≡ log_pages (V.seen volume.old).capacities }
        ensures kept { self.new ≡ record self.old { forced = self.new.forced } }
        ensures further { self.old.forced ≤ self.new.forced }
        ensures ok { OnOk result (self.new.forced ≡ length self.old.records) }
        // At Ok the log of each image that a crash may leave is the list of the records.
        ensures log { OnOk result
            (LeavesLog (V.seen volume.old).told self.old.pages self.old.records self.old.forced
            → IfTold (V.seen volume.new).told
            (EachImage (λ i. log_of self.old.pages i ≡ self.old.records))) }
        // At each moment, and whatever fails, it is a part of them, no less than was forced.
        ensures moments { KeepsLog (V.seen volume.old).told (V.seen volume.new).told self.old.pages
            self.old.records self.old.forced }
        ensures ahead { LeavesLog (V.seen volume.old).told self.old.pages self.old.records
            self.old.forced
            → LeavesLog (V.seen volume.new).told self.old.pages self.old.records self.new.forced }
        // No page of another set is written.
        ensures only { EachCall (V.seen volume.old).told (V.seen volume.new).told
            (WritesIn LogSet) }
        ensures none { self.old.forced ≡ length self.old.records → volume.new ≡ volume.old }
        ensures capacities { (V.seen volume.new).capacities ≡ (V.seen volume.old).capacities }
        // It fails only where a call of the volume did.
        ensures cause { HasCause (V.seen volume.old).faults (V.seen volume.new).faults result }
    {
        while self.count_forced() < self.count() {
            match self.step(volume) {
                Ok(()) => {}
                Err(_) => return Err(Device),
            }
        }
        Ok(())
    }
}
