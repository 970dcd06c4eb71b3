// 1. Each record is tested once, by what is kept of those before it. So the work is linear in the
//    records.
// 2. The chain is tested over the whole log before its space.
// 3. A record that does not follow names its log page. A log without space names its last page.
ghost use Rattle.std.specs.Prelude.{◌≡◌, ◌≤◌, ◌<◌, ◌^◌, length, IfOk};
ghost use Rattle.rg_image.specs.Kept.{AreEntries};
ghost use Rattle.rg_image.specs.Pack.{end_of, start};
ghost use Rattle.rg_image.specs.Rules.{limit_of, used_pages};
ghost use Rattle.rg_check.specs.Chain.Tested.{IsLogTest, IsWalk};

use crate::chain::chain::Chain;
use rg_base::no_memory::NoMemory;
use rg_base::set::Set;
use rg_image::sizes::{all_bytes, last_page};
use rg_outside::volume::Volume;
use rg_record::record::Record;
use std::alloc::Global;

/// What the test of a log found.
#[derive(Drop)]
pub enum LogTest {
    /// Each record follows from those before it, and the log has space.
    Sound(Chain),
    /// The first record that does not follow is on this page.
    BrokenChain { page: u32 },
    /// The log has no space for the ends of the open transactions. This is its last page.
    NoSpace { page: u32 },
}

/// What a walk over the records found.
#[derive(Drop)]
pub enum Walk {
    /// Each record follows from those before it.
    Whole(Chain),
    /// The record with this index is the first that does not.
    Broken(usize),
}

// Goes over the records up to the first that does not follow.
fn walk_over<V: Volume>(alloc: Global, volume: &V, records: &[Record]) -> Result<Walk, NoMemory>
    requires entries { AreEntries records.now }
    requires few { length records.now < 2 ^ 32 }
    ensures { IfOk result (IsWalk (V.seen volume.now).capacities records.now) }
{
    let mut chain = Chain::new(alloc);
    for (at, entry) in records.iter().enumerate() {
        let (before, _) = records.split_at(at);
        if !chain.follows(volume, before, entry) {
            return Ok(Walk::Broken(at));
        }
        chain.add(before, entry)?;
    }
    Ok(Walk::Whole(chain))
}

// The most bytes that the log of a volume may have used and reserved.
fn limit<V: Volume>(volume: &V) -> u32
    ensures { result ≡ limit_of (used_pages (V.seen volume.now).capacities.log) }
{
    let pages = volume.capacity(Set::Log).min(65536);
    2270 * pages.saturating_sub(1)
}

/// Tests the records of the log of a volume.
pub fn test_log<V: Volume>(
    alloc: Global,
    volume: &V,
    records: &[Record],
) -> Result<LogTest, NoMemory>
    requires entries { AreEntries records.now }
    requires last { (end_of start records.now).page ≤ 65536 }
    ensures { IfOk result (IsLogTest (V.seen volume.now).capacities records.now) }
{
    match walk_over(alloc, volume, records)? {
        Walk::Broken(at) => {
            let (front, _) = records.split_at(at + 1);
            let page = last_page(front);
            Ok(LogTest::BrokenChain { page })
        }
        Walk::Whole(chain) => {
            let used = u64::from(all_bytes(records));
            if used + chain.owed() <= u64::from(limit(volume)) {
                return Ok(LogTest::Sound(chain));
            }
            let page = last_page(records);
            Ok(LogTest::NoSpace { page })
        }
    }
}
