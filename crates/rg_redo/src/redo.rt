// The redo of a log.
//
// 1. The records after the last Switch are redone, the earliest first. Those before it are of a
//    copy that is no longer the current one.
// 2. A page gets the records that are above its position and nothing else, so a log is redone once.
// 3. The first record that does not fit is named, and no later one is redone.
ghost use Rattle.std.specs.Prelude.{◌≡◌, ◌≤◌, true, length, drop, OnOk, IfErr};
ghost use Rattle.std.specs.List.{AllByRecursion};
ghost use Rattle.rg_page.specs.Seen.{Keeps};
ghost use Rattle.rg_space.specs.Space.{Agree, InStep, frames_of, summaries_of, capacity_in};
ghost use Rattle.rg_space.specs.Space.{undos_in};
ghost use Rattle.rg_redo.specs.Redo.{AllRedoFit, CanRedo, IsRedoFault, is_switch, redone_all};
ghost use Rattle.rg_redo.specs.Redo.{since_switch};

use crate::fault::RedoFault;
use rg_log::log::Log;
use rg_page::frames::Frames;
use rg_record::record::{Kind, Record};
use rg_space::fault;
use rg_space::space::Space;

fn is_switch(kind: &Kind) -> bool
    ensures { result ≡ is_switch kind.now }
{
    match kind {
        Kind::Switch { .. } => true,
        Kind::Change { .. }
        | Kind::Undo { .. }
        | Kind::Commit
        | Kind::RolledBack
        | Kind::Purge { .. } => false,
    }
}

/// How many records stand up to the last Switch, which are not redone.
pub fn count_switched(records: &[Record]) -> usize
    ensures within { result ≤ length records.now }
    ensures since { drop result records.now ≡ since_switch records.now }
{
    let mut from = 0;
    let mut at = 0;
    while at < records.len() {
        if is_switch(&records[at].kind) {
            from = at + 1;
        }
        at += 1;
    }
    from
}

// Redoes these records, the earliest first.
fn redo_each<F: Frames>(space: &mut Space<F>, records: &[Record]) -> Result<(), RedoFault>
    requires can { AllByRecursion (CanRedo (length (F.seen (frames_of space.old)).pages)
        (F.seen (frames_of space.old)).forced) records.now }
    requires idle { 1 ≤ (F.seen (frames_of space.old)).idle }
    requires step { InStep (F.seen (frames_of space.old)) (summaries_of space.old)
        (capacity_in space.old) }
    ensures pages { OnOk result ((F.seen (frames_of space.new)).sure ≡ true
        → (F.seen (frames_of space.new)).pages
        ≡ redone_all records.now (F.seen (frames_of space.old)).pages) }
    ensures fits { OnOk result ((F.seen (frames_of space.new)).sure ≡ true
        → AllRedoFit records.now (F.seen (frames_of space.old)).pages) }
    ensures fault { IfErr result (λ fault. IsRedoFault fault records.now
        (F.seen (frames_of space.old)) (F.seen (frames_of space.new))) }
    ensures step { InStep (F.seen (frames_of space.new)) (summaries_of space.new)
        (capacity_in space.new) }
    ensures capacity { capacity_in space.new ≡ capacity_in space.old }
    ensures undos { undos_in space.new ≡ undos_in space.old }
    ensures keeps { Keeps (F.seen (frames_of space.old)) (F.seen (frames_of space.new)) }
    ensures forced { (F.seen (frames_of space.new)).forced
        ≡ (F.seen (frames_of space.old)).forced }
    ensures reserved { (F.seen (frames_of space.new)).reserved
        ≡ (F.seen (frames_of space.old)).reserved }
    ensures count { length (F.seen (frames_of space.new)).pages
        ≡ length (F.seen (frames_of space.old)).pages }
    ensures idle { (F.seen (frames_of space.old)).idle ≤ (F.seen (frames_of space.new)).idle }
    ensures agree { (F.seen (frames_of space.new)).sure ≡ true
        → Agree (F.seen (frames_of space.old)) (summaries_of space.old)
        → Agree (F.seen (frames_of space.new)) (summaries_of space.new) }
{
    let mut at = 0;
    while at < records.len() {
        match space.redo(&records[at]) {
            Ok(()) => {}
            Err(fault::RedoFault::Unfit) => {
                return Err(RedoFault::Unfit {
                    position: records[at].position,
                });
            }
            Err(fault::RedoFault::Device) => return Err(RedoFault::Device),
        }
        at += 1;
    }
    Ok(())
}

/// Redoes the records after the last Switch of a log on the pages of a space. Each page gets those
/// that are above its position. After a fault the space is to be dropped.
pub fn redo_all<F: Frames>(space: &mut Space<F>, log: &Log) -> Result<(), RedoFault>
    requires can { AllByRecursion (CanRedo (length (F.seen (frames_of space.old)).pages)
        (F.seen (frames_of space.old)).forced) (since_switch log.now.records) }
    requires idle { 1 ≤ (F.seen (frames_of space.old)).idle }
    requires step { InStep (F.seen (frames_of space.old)) (summaries_of space.old)
        (capacity_in space.old) }
    ensures pages { OnOk result ((F.seen (frames_of space.new)).sure ≡ true
        → (F.seen (frames_of space.new)).pages
        ≡ redone_all (since_switch log.now.records) (F.seen (frames_of space.old)).pages) }
    ensures fits { OnOk result ((F.seen (frames_of space.new)).sure ≡ true
        → AllRedoFit (since_switch log.now.records) (F.seen (frames_of space.old)).pages) }
    ensures fault { IfErr result (λ fault. IsRedoFault fault (since_switch log.now.records)
        (F.seen (frames_of space.old)) (F.seen (frames_of space.new))) }
    ensures step { InStep (F.seen (frames_of space.new)) (summaries_of space.new)
        (capacity_in space.new) }
    ensures capacity { capacity_in space.new ≡ capacity_in space.old }
    ensures undos { undos_in space.new ≡ undos_in space.old }
    ensures keeps { Keeps (F.seen (frames_of space.old)) (F.seen (frames_of space.new)) }
    ensures forced { (F.seen (frames_of space.new)).forced
        ≡ (F.seen (frames_of space.old)).forced }
    ensures reserved { (F.seen (frames_of space.new)).reserved
        ≡ (F.seen (frames_of space.old)).reserved }
    ensures count { length (F.seen (frames_of space.new)).pages
        ≡ length (F.seen (frames_of space.old)).pages }
    ensures idle { (F.seen (frames_of space.old)).idle ≤ (F.seen (frames_of space.new)).idle }
    ensures agree { (F.seen (frames_of space.new)).sure ≡ true
        → Agree (F.seen (frames_of space.old)) (summaries_of space.old)
        → Agree (F.seen (frames_of space.new)) (summaries_of space.new) }
{
    let records = log.records();
    let (_, since) = records.split_at(count_switched(records));
    redo_each(space, since)
}
