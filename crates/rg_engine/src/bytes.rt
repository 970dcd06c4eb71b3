// What a write takes of the log.
//
// 1. A record takes its bytes, and 2 for its length.
// 2. With the records of a write, 911 bytes are reserved for its undo. With the first write of a
//    unit, 23 bytes are reserved for the record of its end.
ghost use Rattle.std.specs.Prelude.{◌≡◌, ◌≤◌};
ghost use Rattle.rg_engine.specs.Bytes.{IsPurge, IsSpelled, most_needed, needed, plan_bytes};
ghost use Rattle.rg_engine.specs.Bytes.{purge_bytes};

use crate::units::OpenUnit;
use rg_base::part::Parts;
use rg_base::row::Row;
use rg_home::plan::Plan;
use rg_record::size::{change_size, purge_size};

/// The most bytes that the record of an undo takes.
pub const UNDO_BYTES: u32 = 911;

/// The bytes that the record of a unit's end takes.
pub const END_BYTES: u32 = 23;

/// The bytes that the record of a switch takes.
pub const SWITCH_BYTES: u32 = 28;

// The bytes of every record but those of its kind, with its length.
const RECORD_HEAD: u32 = 22;

// What the Purge of these parts takes, if there are any.
fn purge_bytes(purge: &Parts) -> u32
    requires { IsPurge purge.now }
    ensures size { result ≡ purge_bytes purge.now }
    ensures high { result ≤ 1599 }
{
    if purge.as_slice().is_empty() {
        return 0;
    }
    RECORD_HEAD + purge_size(purge)
}

// What the records of a plan take.
fn plan_bytes(plan: &Plan, after: &Option<Row>) -> u32
    requires { IsSpelled plan.now }
    ensures size { result ≡ plan_bytes plan.now after.now }
    ensures high { result ≤ 3330 }
{
    purge_bytes(&plan.purge) + (RECORD_HEAD + change_size(&plan.before, after, &plan.parts))
}

/// What a write takes and reserves, by a session with this unit.
pub fn needed(unit: Option<OpenUnit>, plan: &Plan, after: &Option<Row>) -> u32
    requires { IsSpelled plan.now }
    ensures size { result ≡ needed unit plan.now after.now }
    ensures high { result ≤ most_needed }
{
    let end = if unit.is_none() { END_BYTES } else { 0 };
    plan_bytes(plan, after) + UNDO_BYTES + end
}
