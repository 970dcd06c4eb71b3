// The pages of a new copy, as they go to its set.
//
// 1. A page is stamped before it is written: on the volume it has the position that the caller
//    gives. The log has that position, since an opening refuses a page with a higher one.
// 2. Pages are written in order, each once, to the set of the copy. No other call writes.
// 3. The sync comes last. Only then is the copy durable, and only then may the log turn to it. It
//    comes also where there are no pages.
// 4. The first call that fails is the last one. Each page of the set is then an old or a new one.
ghost use Rattle.std.specs.Prelude.{◌≡◌, ◌≤◌, OnErr, OnOk, length};
ghost use Rattle.rg_base.specs.Copies.{set_of};
ghost use Rattle.rg_outside.specs.Capacities.{capacity_of};
ghost use Rattle.rg_outside.specs.Faults.{Rose};
ghost use Rattle.rg_outside.specs.Moments.{EachCall, IfTold};
ghost use Rattle.rg_laws_crash.specs.NewCopy.Writing.{WritesCopy};
ghost use Rattle.rg_engine.specs.CopyPages.Stamped.{stamped_all};
ghost use Rattle.rg_engine.specs.CopyPages.Written.{EndsSynced, LeavesCopy, ReadsCopy, StampsSome};
ghost use Rattle.rg_engine.specs.CopyPages.Written.{StaysOld};

use rg_base::copy::TableCopy;
use rg_base::position::Position;
use rg_outside::source::Failed;
use rg_outside::volume::Volume;
use rg_record::buffer::PAGE_SIZE;
use rg_shadow::shadow::Shadow;

/// Gives each page of a new copy this position and writes it to the copy's set, which is synced at
/// the end, also where there are no pages. It takes no memory.
pub fn write_copy<V: Volume>(
    volume: &mut V,
    shadow: &mut Shadow,
    copy: TableCopy,
    at: Position,
) -> Result<(), Failed>
    requires copy { shadow.old.copy ≡ copy }
    requires room { length shadow.old.pages
        ≤ capacity_of (V.seen volume.old).capacities (set_of copy) }

    ensures ok { OnOk result (shadow.new
        ≡ record shadow.old { pages = stamped_all at.0 shadow.old.pages }) }
    ensures err { OnErr result (StampsSome at.0 shadow.old shadow.new) }
    ensures only { EachCall (V.seen volume.old).told (V.seen volume.new).told
        (WritesCopy copy (stamped_all at.0 shadow.old.pages)) }
    ensures reads { OnOk result
        (ReadsCopy copy (stamped_all at.0 shadow.old.pages) (V.seen volume.new).told) }
    ensures synced { OnOk result (IfTold (V.seen volume.new).told EndsSynced) }
    ensures leaves { OnOk result (LeavesCopy (V.seen volume.old).capacities copy at.0
        (stamped_all at.0 shadow.old.pages) (V.seen volume.old).told (V.seen volume.new).told) }
    ensures moments { StaysOld (V.seen volume.old).capacities copy at.0
        (V.seen volume.old).told (V.seen volume.new).told }
    ensures capacities { (V.seen volume.new).capacities ≡ (V.seen volume.old).capacities }
    ensures later { (V.seen volume.old).faults ≤ (V.seen volume.new).faults }
    ensures cause { OnErr result (Rose (V.seen volume.old).faults (V.seen volume.new).faults) }
{
    let set = copy.set();
    let count = shadow.count();
    let mut bytes = [0; PAGE_SIZE];
    for before in 0..count {
        let number = before + 1;
        shadow.spell(number, at, &mut bytes);
        volume.write(set, number, &bytes)?;
    }
    volume.sync()
}
