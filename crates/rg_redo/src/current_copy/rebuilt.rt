// The pages of a copy, rebuilt from the log.
//
// 1. The pages begin as they were read, in memory, and the log is redone on them.
// 2. The first record that does not fit is named, and no pages are answered then.
// 3. In memory no page is refused, so only memory can fail.
ghost use Rattle.std.specs.Prelude.{◌≡◌, ◌≤◌, [], IfOk, length};
ghost use Rattle.std.specs.List.{AllByRecursion};
ghost use Rattle.rg_page.specs.Bytes.Content.{FitsPage};
ghost use Rattle.rg_space.specs.Space.{Agree, InStep, capacity_in, frames_of, summaries_of};
ghost use Rattle.rg_redo.specs.CurrentCopy.Rebuilt.{CanRebuild, IsOfCopy, RebuiltIs};
ghost use Rattle.rg_space.specs.Memory.{list_seen};

use crate::fault::RedoFault;
use crate::redo::redo_all;
use rg_base::no_memory::NoMemory;
use rg_base::note::note;
use rg_base::position::Position;
use rg_log::log::Log;
use rg_page::list::ListFrames;
use rg_space::space::Space;
use std::alloc::Global;

/// What the redo of a log came to.
#[derive(Drop)]
pub enum Rebuilt {
    /// The pages that it makes.
    Pages(Space<ListFrames>),
    /// The record with this position is the first that has a part which does not fit its page.
    Unfit { position: Position },
}

/// The space of these pages, of a copy that may have `capacity` pages.
pub fn space_over(
    alloc: Global,
    frames: ListFrames,
    capacity: u32,
) -> Result<Space<ListFrames>, NoMemory>
    requires reserved { frames.reserved.items ≡ [] }
    requires few { length frames.pages.items ≤ capacity }
    requires limit { capacity ≤ 65536 }
    ensures step { IfOk result (λ s. InStep (list_seen (frames_of s)) (summaries_of s)
        (capacity_in s)) }
    ensures agree { IfOk result (λ s. Agree (list_seen (frames_of s)) (summaries_of s)) }
    ensures capacity { IfOk result (λ s. capacity_in s ≡ capacity) }
    ensures pages { IfOk result (λ s. (list_seen (frames_of s)).pages ≡ frames.pages.items) }
    ensures copy { IfOk result (λ s. (frames_of s).copy ≡ frames.copy) }
{
    match Space::new(alloc, frames, capacity) {
        Ok(space) => Ok(space),
        // In memory nothing else is refused.
        Err(_) => Err(NoMemory),
    }
}

/// The pages that the records of a log make of these, which are of a copy that may have `capacity`
/// pages.
pub fn rebuild(
    alloc: Global,
    log: &Log,
    frames: ListFrames,
    capacity: u32,
) -> Result<Rebuilt, NoMemory>
    requires can { CanRebuild (length frames.pages.items) log.now.records }
    requires fits { AllByRecursion FitsPage frames.pages.items }
    requires reserved { frames.reserved.items ≡ [] }
    requires few { length frames.pages.items ≤ capacity }
    requires limit { capacity ≤ 65536 }
    ensures rebuilt { IfOk result (RebuiltIs frames.pages.items capacity log.now.records) }
    ensures copy { IfOk result (IsOfCopy frames.copy) }
{
    let mut space = space_over(alloc, frames, capacity)?;
    // The records of a log are entries, so each position fits its field.
    note(&log.records());
    match redo_all(&mut space, log) {
        Ok(()) => Ok(Rebuilt::Pages(space)),
        Err(RedoFault::Unfit { position }) => Ok(Rebuilt::Unfit { position }),
        // No page in memory is unread.
        Err(RedoFault::Device) => unreachable!(),
    }
}
