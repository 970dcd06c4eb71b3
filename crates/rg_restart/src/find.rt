// What the records of a sound log leave of the table.
//
// 1. The log is redone on the pages that were read. Then each rule on pages is tested, in their
//    order, and the first that is broken names its page.
// 2. Open units are undone before the rows are compared with the stored ones.
// 3. The pages are the newest versions: what the records of the log, those of the undo too, make of
//    the pages that were read.
// 4. No call of a volume is made. After a refusal all that was found is to be dropped.
ghost use Rattle.std.specs.Prelude.{◌≡◌, ◌≤◌, ◌+◌, ◌==◌, ℕ, length, take, if◌then◌else◌, IfOk};
ghost use Rattle.std.specs.Prelude.{IfErr, OnOk, None};
ghost use Rattle.rg_base.specs.Copies.{set_of};
ghost use Rattle.rg_base.specs.declared.set.Set.TheVariants.{Log as LogSet};
ghost use Rattle.rg_engine.specs.Newest.{StayNewest};
ghost use Rattle.rg_home.specs.Able.{Proper};
ghost use Rattle.rg_home.specs.Pages.{slot_of};
ghost use Rattle.rg_home.specs.Rows.{row_at};
ghost use Rattle.rg_check.specs.Chain.Kept.{IsKept};
ghost use Rattle.rg_image.specs.Pack.{log_bytes};
ghost use Rattle.rg_image.specs.Rules.{IsChain, limit_of, owed};
ghost use Rattle.rg_index.specs.Listed.{IsListingOf};
ghost use Rattle.rg_btree.specs.Indexes.Listings.{AreListings, entries_of};
ghost use Rattle.rg_page.specs.Bare.{numbers_of};
ghost use Rattle.rg_redo.specs.CurrentCopy.Rebuilt.{AreSoundPages, CanRebuild, IsRebuilt};
ghost use Rattle.rg_space.specs.Space.{capacity_in, frames_of};
ghost use Rattle.rg_check.specs.OpenUnits.Unended.{open_in};
ghost use Rattle.rg_space.specs.Memory.{space_pages};
ghost use Rattle.rg_restart.specs.Closed.{IsInStep};
ghost use Rattle.rg_restart.specs.Data.{AreBase};
ghost use Rattle.rg_restart.specs.Found.{Finds, IsClosed, IsGrown, MayFind, Refuses, SamePages};
ghost use Rattle.rg_restart.specs.Found.{StoresFew};
ghost use Rattle.rg_shadow.specs.Valued.{AreReadFrom};
ghost use Rattle.rg_laws_crash.specs.SoundVolume.Pages.{BreaksFit, BreaksRows, BreaksRule};
ghost use Rattle.rg_laws_crash.specs.SoundVolume.Pages.{BreaksSlots, IsMatched, copy_of, count_of};
ghost use Rattle.rg_laws_crash.specs.SoundVolume.Pages.{page_of};

use crate::close::close_units;
use crate::data::ReadPages;
use crate::stored::stored_rows;
use rg_base::no_memory::NoMemory;
use rg_base::note::note;
use rg_base::place::Place;
use rg_base::position::Position;
use rg_base::set::Set;
use rg_base::tran::Tran;
use rg_base::values::Values;
use rg_base::which::Which;
use rg_btree::indexes::indexes::Indexes;
use rg_btree::tree::{Tree, build};
use rg_check::chain::chain::Chain;
use rg_check::open_units::unended::open_trans;
use rg_check::page_tests::stored::{Standing, not_stored};
use rg_check::page_tests::twice::twice;
use rg_check::page_tests::untied::untied;
use rg_desk::desk::OpenCause;
use rg_engine::found::Found;
use rg_image::sizes::last_page;
use rg_log::log::Log;
use rg_page::list::ListFrames;
use rg_redo::current_copy::rebuilt::{Rebuilt, rebuild};
use rg_shadow::sort::{read_pages, sorted_list};
use rg_space::space::Space;
use std::alloc::Global;

// The log page that the first `count` records end on.
fn page_of(log: &Log, count: usize) -> u32
    ensures { result ≡ page_of log.now.records count }
{
    let records = log.records();
    let (front, _) = records.split_at(count.min(records.len()));
    last_page(front)
}

/// A page that breaks a rule.
pub fn damaged(set: Set, page: u32) -> OpenCause
    ensures { result ≡ OpenCause.Damaged set page }
{
    OpenCause::Damaged { set, page }
}

// The pages that a log makes of those that were read.
fn redo_log(
    alloc: Global,
    log: &Log,
    frames: ListFrames,
    capacity: u32,
) -> Result<Space<ListFrames>, OpenCause>
    requires can { CanRebuild (count_of log.now.records) log.now.records }
    requires base { AreBase (copy_of log.now.records) (length log.now.records)
        (count_of log.now.records) frames }
    requires within { count_of log.now.records ≤ capacity }
    requires limit { capacity ≤ 65536 }
    ensures ok { IfOk result (λ space. IsRebuilt frames.pages.items log.now.records space
        × (capacity_in space ≡ capacity)) }
    ensures copy { IfOk result (λ space. (frames_of space).copy ≡ frames.copy) }
    ensures refused { IfErr result (Refuses (BreaksFit frames.pages.items log.now.records)) }
{
    match rebuild(alloc, log, frames, capacity) {
        Err(NoMemory) => Err(OpenCause::NoMemory),
        Ok(Rebuilt::Pages(space)) => Ok(space),
        Ok(Rebuilt::Unfit { position }) => {
            Err(damaged(Set::Log, page_of(log, position.0 as usize)))
        }
    }
}

// Tests what slots name, and undoes the open units.
fn close_open(
    alloc: Global,
    space: &mut Space<ListFrames>,
    log: &mut Log,
    chain: &Chain,
    set: Set,
) -> Result<(), OpenCause>
    requires may { MayFind log.old chain.now (capacity_in space.old) }
    requires step { IsInStep space.old }
    requires sound { AreSoundPages (space_pages space.old) }
    requires set { set ≡ set_of (copy_of log.old.records) }
    ensures ok { OnOk result (IsClosed (space_pages space.old) log.old (capacity_in space.old)
        space.new log.new) }
    ensures newest { OnOk result
        (StayNewest log.old.records space.old log.new.records space.new) }
    ensures refused { IfErr result
        (Refuses (BreaksSlots log.old.records (space_pages space.old))) }
{
    let Ok(trans) = open_trans(alloc, chain) else {
        return Err(OpenCause::NoMemory);
    };
    match untied(space, trans.as_slice()) {
        Err(_) => unreachable!(),
        Ok(Some(place)) => return Err(damaged(set, place.page)),
        Ok(None) => {}
    }
    match close_units(alloc, space, log, chain, trans.as_slice()) {
        Err(NoMemory) => Err(OpenCause::NoMemory),
        Ok(Some(place)) => Err(damaged(set, place.page)),
        Ok(None) => Ok(()),
    }
}

// Compares the home rows with the stored ones, which are those of the first `count` records.
fn match_stored(
    alloc: Global,
    space: &mut Space<ListFrames>,
    log: &Log,
    count: usize,
    set: Set,
) -> Result<(), OpenCause>
    requires step { IsInStep space.old }
    requires grown { IsGrown (take count log.now.records) log.now.records }
    requires set { set ≡ set_of (copy_of (take count log.now.records)) }
    ensures matched { OnOk result
        (IsMatched (take count log.now.records) (space_pages space.old)) }
    ensures stores { OnOk result (StoresFew log.now.records) }
    ensures same { OnOk result (SamePages space.old space.new) }
    ensures refused { IfErr result
        (Refuses (BreaksRows (take count log.now.records) (space_pages space.old))) }
{
    let Ok(rows) = stored_rows(alloc, log.records()) else {
        return Err(OpenCause::NoMemory);
    };
    match twice(alloc, space) {
        Err(_) => return Err(OpenCause::NoMemory),
        Ok(Some(place)) => return Err(damaged(set, place.page)),
        Ok(None) => {}
    }
    match not_stored(alloc, space, &rows) {
        Err(_) => Err(OpenCause::NoMemory),
        Ok(Standing::Stored) => Ok(()),
        Ok(Standing::Strange { place }) => Err(damaged(set, place.page)),
        Ok(Standing::Missing) => Err(damaged(Set::Log, page_of(log, count))),
    }
}

// The index of the rows by one of their values, which are these of each page.
fn index_of(
    alloc: Global,
    which: Which,
    _space: &Space<ListFrames>,
    pages: &[Vec<(Place, Values)>],
) -> Result<Tree, NoMemory>
    requires { AreReadFrom (space_pages _space.now) pages.now }
    ensures { IfOk result (λ index.
        IsListingOf which (row_at (slot_of (space_pages _space.now))) (entries_of index)) }
{
    let list = sorted_list(alloc, which, pages)?;
    build(alloc, list.as_slice())
}

// The indexes of the rows, whose values are read once.
fn indexes_of(alloc: Global, space: &mut Space<ListFrames>) -> Result<Indexes, NoMemory>
    requires { IsInStep space.old }
    ensures same { OnOk result (SamePages space.old space.new) }
    ensures listings { IfOk result (AreListings (row_at (slot_of (space_pages space.new)))) }
{
    let pages = read_pages(alloc, space)?;
    Ok(Indexes {
        keys: index_of(alloc, Which::Key, space, pages.as_slice())?,
        cluses: index_of(alloc, Which::Clus, space, pages.as_slice())?,
        cats: index_of(alloc, Which::Cat, space, pages.as_slice())?,
    })
}

/// What the records of a log leave, of which `chain` is kept, on the pages that were read. Their
/// marks stay. The copy may have `capacity` pages.
pub fn find(
    alloc: Global,
    log: Log,
    chain: &Chain,
    read: ReadPages,
    capacity: u32,
) -> Result<Found, OpenCause>
    requires may { MayFind log chain.now capacity }
    requires base { AreBase (copy_of log.records) (length log.records) (count_of log.records)
        read.frames }
    ensures found { IfOk result (Finds read.frames.pages.items read.marks.items log capacity) }
    ensures refused { IfErr result (Refuses (BreaksRule read.frames.pages.items log.records)) }
{
    let ReadPages { frames, marks } = read;
    let mut log = log;
    let (count, copy) = (log.records().len(), chain.copy());
    let set = copy.set();
    let mut space = redo_log(alloc, &log, frames, capacity)?;
    close_open(alloc, &mut space, &mut log, chain, set)?;
    match_stored(alloc, &mut space, &log, count, set)?;
    let Ok(indexes) = indexes_of(alloc, &mut space) else {
        return Err(OpenCause::NoMemory);
    };
    // That the records fit their set: that the log can be opened again needs it.
    note(&log.records());
    Ok(Found {
        log,
        space,
        copy,
        indexes,
        top: chain.greatest().0,
        marks,
    })
}
