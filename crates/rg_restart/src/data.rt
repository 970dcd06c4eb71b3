// The pages of a copy, read at an opening.
//
// 1. Each page is read and tested by the rule for data pages. The first that breaks it is named.
// 2. A page that is left over from before the last Switch is taken as empty, and has no mark. Each
//    other page is taken as it was read, and is marked with its position.
// 3. Nothing is written.
ghost use Rattle.std.specs.Prelude.{◌≡◌, ◌≤◌, ◌&&◌, nat_lt, IfOk, IfErr};
ghost use Rattle.rg_log.specs.Open.{IsQuiet};
ghost use Rattle.rg_outside.specs.Calls.{read_of};
ghost use Rattle.rg_outside.specs.Capacities.{capacity_of};
ghost use Rattle.rg_outside.specs.Moments.{EachCall, IfTold};
ghost use Rattle.rg_restart.specs.Data.{AreBase, AreTakenAsIs, IsDataFault, IsMarked, IsTaken};
ghost use Rattle.rg_restart.specs.Data.{IsUntaken, MarksPages, TakesPages, switch_after, switch_of};

use rg_base::copy::TableCopy;
use rg_base::position::Position;
use rg_base::set::Set;
use rg_desk::desk::OpenCause;
use rg_outside::volume::Volume;
use rg_page::bytes::fault::PageFault;
use rg_page::list::ListFrames;
use rg_page::page::Page;
use rg_record::buffer::PAGE_SIZE;
use rg_record::record::{Kind, Record};
use std::alloc::Global;

/// The pages of a copy, as an opening takes them, and their marks.
#[derive(Drop)]
pub struct ReadPages {
    pub frames: ListFrames,
    pub marks: Vec<Option<Position>>,
}

// A page, as an opening takes it, and its mark.
#[derive(Drop)]
struct TakenPage {
    page: Page,
    mark: Option<Position>,
}

/// The last Switch of a log: its position and how many pages it counts, or 0 and 0.
#[derive(Clone, Copy, Debug)]
pub struct LastSwitch {
    at: u64,
    pages: u32,
}

// The last Switch after a record.
fn switch_after(last: LastSwitch, entry: &Record) -> LastSwitch
    ensures { result ≡ switch_after last entry.now.position.0 entry.now.kind }
{
    match &entry.kind {
        Kind::Switch { pages, .. } => LastSwitch {
            at: entry.position.0,
            pages: *pages,
        },
        Kind::Change { .. }
        | Kind::Undo { .. }
        | Kind::Commit
        | Kind::RolledBack
        | Kind::Purge { .. } => last,
    }
}

/// The last Switch of these records.
pub fn switch_of(records: &[Record]) -> LastSwitch
    ensures { result ≡ switch_of records.now }
{
    let mut last = LastSwitch { at: 0, pages: 0 };
    for entry in records {
        last = switch_after(last, entry);
    }
    last
}

// Whether a page of this number and position is left over from before the last Switch.
fn is_left_over(switch: LastSwitch, number: u32, position: u64) -> bool
    ensures { result ≡ (nat_lt switch.pages number && nat_lt position switch.at) }
{
    switch.pages < number && position < switch.at
}

// What is taken of a page of these bytes.
fn take_page(
    alloc: Global,
    copy: TableCopy,
    number: u32,
    last: u64,
    switch: LastSwitch,
    bytes: &[u8; PAGE_SIZE],
) -> Result<TakenPage, PageFault>
    ensures taken { IfOk result (λ taken. IsTaken copy last switch number bytes.now taken.page) }
    ensures marked { IfOk result (λ taken. IsMarked copy last switch number bytes.now taken.mark) }
    ensures untaken { IfErr result (IsUntaken copy last number bytes.now) }
{
    let page = Page::read(alloc, copy, number, bytes)?;
    let position = page.position().0;
    if last < position {
        return Err(PageFault::NotAPage);
    }
    if is_left_over(switch, number, position) {
        return Ok(TakenPage {
            page: Page::new(alloc, copy, number)?,
            mark: None,
        });
    }
    let mark = Some(page.position());
    Ok(TakenPage { page, mark })
}

/// The pages 1 to `count` of a copy, which has them in this set, as an opening takes and marks
/// them. The last record has the position `last`.
pub fn read_pages<V: Volume>(
    alloc: Global,
    volume: &mut V,
    copy: TableCopy,
    set: Set,
    count: u32,
    last: u64,
    switch: LastSwitch,
) -> Result<ReadPages, OpenCause>
    requires { count ≤ capacity_of (V.seen volume.old).capacities set }
    ensures base { IfOk result (λ read. AreBase copy last count read.frames) }
    ensures as_is { IfOk result (λ read. AreTakenAsIs copy switch read.frames.pages.items) }
    ensures takes { IfOk result (λ read. IfTold (V.seen volume.new).told (λ t.
        TakesPages copy last switch set count (read_of t.first t.calls)
        read.frames.pages.items)) }
    ensures marks { IfOk result (λ read. IfTold (V.seen volume.new).told (λ t.
        MarksPages copy last switch set count (read_of t.first t.calls) read.marks.items)) }
    ensures refused { IfErr result (IsDataFault copy last set count (V.seen volume.new).told
        (V.seen volume.old).faults (V.seen volume.new).faults) }
    ensures only { EachCall (V.seen volume.old).told (V.seen volume.new).told IsQuiet }
    ensures capacities { (V.seen volume.new).capacities ≡ (V.seen volume.old).capacities }
    ensures later { (V.seen volume.old).faults ≤ (V.seen volume.new).faults }
{
    let mut frames = ListFrames::new(alloc, copy);
    let mut marks = Vec::new(alloc);
    for before in 0..count {
        let number = before + 1;
        let mut bytes = [0; PAGE_SIZE];
        let Ok(()) = volume.read(set, number, &mut bytes) else {
            return Err(OpenCause::Device);
        };
        match take_page(alloc, copy, number, last, switch, &bytes) {
            Ok(TakenPage { page, mark }) => {
                let Ok(()) = frames.push(page) else {
                    return Err(OpenCause::NoMemory);
                };
                let Ok(()) = marks.push(mark) else {
                    return Err(OpenCause::NoMemory);
                };
            }
            Err(PageFault::NotAPage) => return Err(OpenCause::Damaged { set, page: number }),
            Err(PageFault::NoMemory) => return Err(OpenCause::NoMemory),
        }
    }
    Ok(ReadPages { frames, marks })
}
