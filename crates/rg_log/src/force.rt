// 1. Pages are written in order, and each is synced before the next one is written.
// 2. A page is written in its last form so far: with all records that fit it.
// 3. What is forced is on the volume for good, whatever a crash leaves. A page whose write or sync
//    failed is written again before anything else.
// 4. At each moment each image that a crash may leave spells a part of the records, no less than
//    what was forced before.
ghost use Rattle.std.specs.Prelude.{◌≡◌, ◌≤◌, ◌<◌, ◌+◌, ℕ, length, drop, OnOk, OnErr};
ghost use Rattle.rg_base.specs.declared.set.Set.TheVariants.{Log};
ghost use Rattle.rg_outside.specs.Faults.{HasCause};
ghost use Rattle.rg_outside.specs.Made.{WritesIn};
ghost use Rattle.rg_outside.specs.Moments.{EachCall};
ghost use Rattle.rg_image.specs.Kept.{IsPageStart, AreEntries};
ghost use Rattle.rg_image.specs.Pack.{fitting, end_of, start};
ghost use Rattle.rg_log.specs.Kept.{LeavesLog, log_pages};
ghost use Rattle.rg_log.specs.Present.{KeepsLog};

use crate::page::{fill_page, page_end};
use rg_base::set::Set;
use rg_outside::source::Failed;
use rg_outside::volume::Volume;
use rg_record::record::Record;

/// Writes one page in its last form so far, and syncs.
pub fn force_page<V: Volume>(
    volume: &mut V,
    records: &[Record],
    from: usize,
    end: usize,
    page: u32,
) -> Result<(), Failed>
    requires is_start { IsPageStart records.now from page }
    requires entries { AreEntries records.now }
    requires some { from < end }
    requires within { end ≤ length records.now }
    requires end { end ≡ from + fitting 0 (drop from records.now) }
    requires high { page ≤ log_pages (V.seen volume.old).capacities }

    ensures moments { (low : ℕ) → from ≤ low
        → KeepsLog (V.seen volume.old).told (V.seen volume.new).told
        (log_pages (V.seen volume.old).capacities) records.now low }
    ensures durable { OnOk result ((low : ℕ) → from ≤ low
        → LeavesLog (V.seen volume.old).told (log_pages (V.seen volume.old).capacities)
        records.now low
        → LeavesLog (V.seen volume.new).told (log_pages (V.seen volume.old).capacities)
        records.now end) }
    ensures only { EachCall (V.seen volume.old).told (V.seen volume.new).told (WritesIn Log) }
    ensures capacities { (V.seen volume.new).capacities ≡ (V.seen volume.old).capacities }
    ensures cause { HasCause (V.seen volume.old).faults (V.seen volume.new).faults result }
{
    let bytes = fill_page(&records[from..end], page);
    volume.write(Set::Log, page, &bytes)?;
    volume.sync()
}

/// Where the page begins that the first unforced record stands on, and its number.
pub fn next_page(records: &[Record], forced: usize, from: usize, page: u32) -> (usize, u32)
    requires is_start { IsPageStart records.now from page }
    requires entries { AreEntries records.now }
    requires low { from ≤ forced }
    requires high { forced ≤ from + fitting 0 (drop from records.now) }
    requires more { forced < length records.now }
    requires last { (end_of start records.now).page ≤ 65536 }
    ensures is_start { IsPageStart records.now result.0 result.1 }
    ensures low { result.0 ≤ forced }
    ensures high { forced < result.0 + fitting 0 (drop result.0 records.now) }
{
    if page_end(records, from) == forced {
        return (forced, page + 1);
    }
    (from, page)
}
