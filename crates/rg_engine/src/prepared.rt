// A new copy that was written to the other set.
//
// 1. It is kept with the mark of each of its pages, which reads as it was written.
// 2. It has the rows of the table as long as the log has no more records than then.
ghost use Rattle.std.specs.Prelude.{◌≡◌, ◌≤◌, IfOk, IfSome, None, Err, OnErr, OnOk, Some, length};
ghost use Rattle.rg_base.specs.Copies.{set_of};
ghost use Rattle.rg_claim.specs.Drains.{GrantIsKept};
ghost use Rattle.rg_shadow.specs.Planned.{AreNumbered, AreOfCopy};
ghost use Rattle.rg_log.specs.Kept.{log_pages};
ghost use Rattle.rg_outside.specs.Capacities.{capacity_of};
ghost use Rattle.rg_outside.specs.Faults.{Rose};
ghost use Rattle.rg_engine.specs.CopyPages.Stamped.{stamped_all};
ghost use Rattle.rg_engine.specs.Prepared.{shade_kept};
ghost use Rattle.rg_engine.specs.Flushed.{FitsSet};
ghost use Rattle.rg_engine.specs.Prepared.{AreMarksAt, IsBuilt, IsSideOfKept, IsWritten};
ghost use Rattle.rg_engine.specs.Prepared.{WritesShadow, WroteShadow, prepared_seen};

use crate::copy_pages::write::write_copy;
use crate::engine::Engine;
use rg_base::copy::TableCopy;
use rg_base::no_memory::NoMemory;
use rg_base::note::note;
use rg_base::position::Position;
use rg_log::fault::Device;
use rg_outside::volume::Volume;
use rg_shadow::shadow::Shadow;
use rg_stmt::layout::Side;
use std::alloc::Global;

/// A new copy that was written to the other set, the mark of each of its pages, and how many
/// records the log had then.
#[derive(Drop)]
pub struct Prepared {
    pub shadow: Shadow,
    pub marks: Vec<Option<Position>>,
    pub records: usize,
}

/// Why a new copy is not written.
#[derive(Clone, Copy, Debug, PartialEq, Eq)]
pub enum PrepareCause {
    /// A call of the volume failed.
    Device,
    /// Out of memory.
    NoMemory,
}

/// No new copy is kept from now on.
pub fn forget(kept: &mut Option<Prepared>)
    ensures { kept.new ≡ None }
{
    *kept = None;
}

/// This new copy is kept from now on.
pub fn keep(kept: &mut Option<Prepared>, one: Prepared)
    ensures { kept.new ≡ Some one }
{
    *kept = Some(one);
}

/// The layout of the new copy that is kept. It reads each page once.
pub fn new_side(kept: &mut Option<Prepared>) -> Result<Side, NoMemory>
    requires { IfSome kept.old IsBuilt }
    ensures same { kept.new ≡ kept.old }
    ensures side { IfOk result (IsSideOfKept kept.old) }
{
    match kept {
        Some(prepared) => prepared.shadow.side(),
        None => Err(NoMemory),
    }
}

/// The new copy that is kept, which is kept no longer.
pub fn take(kept: &mut Option<Prepared>) -> Option<Shadow>
    ensures kept { kept.new ≡ None }
    ensures shade { result ≡ shade_kept (prepared_seen kept.old) }
{
    match kept.take() {
        Some(prepared) => {
            let Prepared { shadow, .. } = prepared;
            Some(shadow)
        }
        None => None,
    }
}

/// Marks that say of so many pages that they were written with this position.
pub fn marks_at(alloc: Global, count: u32, at: Position) -> Result<Vec<Option<Position>>, NoMemory>
    ensures { IfOk result (λ marks. AreMarksAt count at.0 marks.items) }
{
    let mut marks = Vec::new(alloc);
    for _ in 0..count {
        marks.push(Some(at))?;
    }
    Ok(marks)
}

/// Forces all records, and then writes the pages of a new copy to its set, each with the position
/// of the last record.
pub fn write_shadow<V: Volume>(
    engine: &mut Engine,
    volume: &mut V,
    copy: TableCopy,
    shadow: &mut Shadow,
) -> Result<(), Device>
    requires copy { shadow.old.copy ≡ copy }
    requires room { length shadow.old.pages
        ≤ capacity_of (V.seen volume.old).capacities (set_of copy) }
    requires set { engine.old.log.pages ≡ log_pages (V.seen volume.old).capacities }
    ensures stamped { OnOk result (shadow.new ≡ record shadow.old
        { pages = stamped_all (length engine.old.log.records) shadow.old.pages }) }
    ensures ok { OnOk result (WroteShadow copy
        (stamped_all (length engine.old.log.records) shadow.old.pages)
        (V.seen volume.old) (V.seen volume.new) engine.old engine.new) }
    ensures err { OnErr result (WritesShadow copy
        (stamped_all (length engine.old.log.records) shadow.old.pages)
        (V.seen volume.old) (V.seen volume.new) engine.old engine.new) }
    ensures cause { OnErr result (Rose (V.seen volume.old).faults (V.seen volume.new).faults) }
{
    let at = Position(engine.log.records().len() as u64);
    engine.force_to(volume, at)?;
    match write_copy(volume, shadow, copy, at) {
        Ok(()) => Ok(()),
        Err(_) => Err(Device),
    }
}

/// Forces all records, and then writes a new copy to its set. The copy is dropped where memory runs
/// out, before anything else is done, or where a call fails.
pub fn prepare<V: Volume>(
    alloc: Global,
    engine: &mut Engine,
    volume: &mut V,
    copy: TableCopy,
    shadow: Shadow,
) -> Result<Prepared, PrepareCause>
    requires copy { shadow.copy ≡ copy }
    requires room { shadow.capacity ≤ capacity_of (V.seen volume.old).capacities (set_of copy) }
    requires set { engine.old.log.pages ≡ log_pages (V.seen volume.old).capacities }
    ensures grant { GrantIsKept engine.old.claims }
    ensures fits { FitsSet (V.seen volume.old) engine.old.log }
    ensures numbered { AreNumbered shadow.pages }
    ensures of_copy { AreOfCopy shadow.copy shadow.pages }
    ensures ok { IfOk result (λ p. IsWritten copy shadow
        (V.seen volume.old) (V.seen volume.new) engine.old engine.new p) }
    ensures err { OnErr result (WritesShadow copy
        (stamped_all (length engine.old.log.records) shadow.pages)
        (V.seen volume.old) (V.seen volume.new) engine.old engine.new) }
    ensures device { result ≡ Err PrepareCause.Device
        → Rose (V.seen volume.old).faults (V.seen volume.new).faults }
    ensures none { result ≡ Err PrepareCause.NoMemory → volume.new ≡ volume.old }
{
    let mut shadow = shadow;
    // That no session holds a claim that a granted drain covers: nobody has a lock then.
    note(&engine.claims.drain());
    // That no more is forced than there is.
    note(&engine.log.forced());
    let records = engine.log.records().len();
    let count = shadow.count();
    let marks = match marks_at(alloc, count, Position(records as u64)) {
        Ok(marks) => marks,
        Err(_) => return Err(PrepareCause::NoMemory),
    };
    match write_shadow(engine, volume, copy, &mut shadow) {
        Ok(()) => Ok(Prepared {
            shadow,
            marks,
            records,
        }),
        Err(_) => Err(PrepareCause::Device),
    }
}
