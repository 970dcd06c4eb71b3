// Two pages of one set, written and made durable.
//
// 1. Between the calls each of both pages may read as the old or as the new one after a crash.
// 2. Once the sync is done, both read as the new one.
ghost use Rattle.std.specs.Prelude.{◌≡◌, ◌≢◌, ◌⊎◌, OnOk, OnErr};
ghost use Rattle.rg_outside.specs.Capacities.{IsPage};
ghost use Rattle.rg_outside.specs.Faults.{Rose};
ghost use Rattle.rg_outside.specs.Made.{WritesOnly, FaultShows};
ghost use Rattle.rg_outside.specs.Moments.{EachCall, IfTold, IsSure, EachImage, HoldsThroughout};
ghost use Rattle.rg_outside.specs.Moments.{page_at};
ghost use Rattle.rg_outside.specs.Pair.{HasBoth, HasOldOrNew};

use crate::source::Failed;
use crate::volume::Volume;
use rg_base::set::Set;

/// Writes two pages of a set, and makes them durable. Nothing may be pending on them. It is the
/// worked example of a caller of a volume: what each image has is carried from call to call.
pub fn write_pair<V: Volume>(
    volume: &mut V,
    set: Set,
    page: u32,
    bytes: &[u8; 4096],
    other: u32,
    other_bytes: &[u8; 4096],
) -> Result<(), Failed>
    requires page { IsPage (V.seen volume.old).capacities set page }
    requires other { IsPage (V.seen volume.old).capacities set other }
    requires apart { page ≢ other }
    requires sure { IsSure (V.seen volume.old).told set page }
    requires other_sure { IsSure (V.seen volume.old).told set other }

    // At Ok a crash leaves both.
    ensures both { OnOk result (IfTold (V.seen volume.new).told
        (EachImage (HasBoth set page bytes.now other other_bytes.now))) }
    // At each moment a crash leaves of each page the old content or the new one.
    ensures moments { HoldsThroughout (V.seen volume.old).told (V.seen volume.new).told
        (EachImage (HasOldOrNew set
        page (page_at (V.seen volume.old).told set page) bytes.now
        other (page_at (V.seen volume.old).told set other) other_bytes.now)) }
    // No other page is written.
    ensures only { EachCall (V.seen volume.old).told (V.seen volume.new).told
        (λ call. WritesOnly set page bytes.now call ⊎ WritesOnly set other other_bytes.now call) }
    ensures capacities { (V.seen volume.new).capacities ≡ (V.seen volume.old).capacities }
    // It fails only where a call of the volume did, which shows in the list of a known volume.
    ensures cause { OnErr result (Rose (V.seen volume.old).faults (V.seen volume.new).faults) }
    ensures shows { OnErr result (FaultShows (V.seen volume.old).told (V.seen volume.new).told) }
{
    volume.write(set, page, bytes)?;
    volume.write(set, other, other_bytes)?;
    volume.sync()
}
