// What an opening found.
//
// 1. All units of the log have ended, and the pages are those that its records leave. So the rows
//    that are there are the stored ones.
ghost use Rattle.std.specs.Prelude.{◌≡◌, ◌≤◌, [], IfOk, length};
ghost use Rattle.rg_home.specs.Pages.{slot_of};
ghost use Rattle.rg_home.specs.Rows.{row_at};
ghost use Rattle.rg_btree.specs.Indexes.Listings.{AreListings};
ghost use Rattle.rg_space.specs.Space.{Agree, InStep, capacity_in, frames_of, summaries_of};
ghost use Rattle.rg_engine.specs.Begins.{CanBegin};
ghost use Rattle.rg_space.specs.Memory.{list_seen, space_pages};

use rg_base::copy::TableCopy;
use rg_base::no_memory::NoMemory;
use rg_base::position::Position;
use rg_btree::indexes::indexes::Indexes;
use rg_log::log::Log;
use rg_page::list::ListFrames;
use rg_space::space::Space;
use std::alloc::Global;

/// What an opening found: the log, whose units have all ended; the pages that its records leave, of
/// this copy; the indexes of their rows; the greatest number of a transaction; and the mark of each
/// page that was read and taken as it is: the position that it was read with.
#[derive(Drop)]
pub struct Found {
    pub log: Log,
    pub space: Space<ListFrames>,
    pub copy: TableCopy,
    pub indexes: Indexes,
    pub top: u32,
    pub marks: Vec<Option<Position>>,
}

impl Found {
    /// What the opening of a log without records finds: the first copy without pages, which may
    /// have `capacity` of them.
    pub fn empty(alloc: Global, capacity: u32, log: Log) -> Result<Found, NoMemory>
        requires empty { log.records ≡ [] }
        requires idle { log.reserved ≡ 0 }
        requires forced { log.forced ≤ length log.records }
        ensures begins { IfOk result (λ f.
            CanBegin (capacity_in f.space) (space_pages f.space) f.log f.top) }
        ensures step { IfOk result (λ f. InStep (list_seen (frames_of f.space))
            (summaries_of f.space) (capacity_in f.space)) }
        ensures agree { IfOk result (λ f. Agree (list_seen (frames_of f.space))
            (summaries_of f.space)) }
        ensures listings { IfOk result (λ f.
            AreListings (row_at (slot_of (space_pages f.space))) f.indexes) }
        ensures capacity { IfOk result (λ f. capacity_in f.space ≡ capacity) }
        ensures pages { IfOk result (λ f. space_pages f.space ≡ []) }
        ensures copy { IfOk result (λ f. f.copy ≡ 1) }
        ensures log { IfOk result (λ f. f.log ≡ log) }
        ensures marks { IfOk result (λ f. f.marks.items ≡ []) }
    {
        let Ok(space) = Space::new(alloc, ListFrames::new(alloc, TableCopy::first()), capacity)
        else {
            return Err(NoMemory);
        };
        Ok(Found {
            log,
            space,
            copy: TableCopy::first(),
            indexes: Indexes::new(alloc)?,
            top: 0,
            marks: Vec::new(alloc),
        })
    }
}
