ghost use Rattle.std.specs.Prelude.{IsTrue, length};
ghost use Rattle.std.specs.List.{AllByRecursion};
ghost use Rattle.rg_space.specs.Space.{InStep, frames_of, summaries_of, capacity_in};
ghost use Rattle.rg_redo.specs.Redo.{CanRedo};

use rg_base::copy::TableCopy;
use rg_base::part::{Part, Parts, SlotOp};
use rg_base::place::Place;
use rg_base::position::Position;
use rg_base::row::Row;
use rg_base::row_bytes::read_row;
use rg_base::tran::Tran;
use rg_image::sizes::size_of;
use rg_log::log::Log;
use rg_page::frames::Frames;
use rg_page::list::ListFrames;
use rg_page::page::Page;
use rg_record::record::{Kind, Record};
use rg_redo::fault::RedoFault;
use rg_redo::redo::{count_switched, redo_all};
use rg_space::space::Space;
use std::alloc::Global;
use std::process::Abort;
use std::test::Fail;

// A record: a Change that puts a row of so many letters, its `key`, into an area. It has a page, a
// slot, a capacity and that number; page 0 stands for a Switch.
type Step = (u32, u16, u16, u16);

const SWITCH: Step = (0, 0, 0, 0);

fn row(alloc: Global, letters: u16) -> Result<Row, Fail> {
    let mut bytes = Vec::new(alloc);
    bytes.extend_from_slice(&u64::from(letters).to_be_bytes())?;
    bytes.extend_from_slice(&0_u64.to_be_bytes())?;
    bytes.extend_from_slice(&0_u64.to_be_bytes())?;
    bytes.extend_from_slice(&letters.to_be_bytes())?;
    for _ in 0..letters {
        bytes.push(b'x')?;
    }
    Ok(read_row(alloc, &bytes)?)
}

fn kind_of(alloc: Global, step: Step) -> Result<Kind, Fail> {
    let (page, slot, capacity, letters) = step;
    if page == 0 {
        return Ok(Kind::Switch { copy: 2, pages: 2 });
    }
    let part = Part {
        page,
        slot,
        op: SlotOp::Row { capacity },
    };
    Ok(Kind::Change {
        home: Place { page, slot },
        before: None,
        after: Some(row(alloc, letters)?),
        parts: Parts::new([part].to_vec(alloc)?),
    })
}

// A log with the records of these steps.
fn log_of(rt: &impl Abort, alloc: Global, steps: &[Step]) -> Result<Log, Fail> {
    let mut log = Log::empty(alloc, 10);
    for step in steps.iter().copied() {
        let tran = if step.0 == 0 { 0 } else { 7 };
        let position = log.records().len() as u64 + 1;
        let entry = Record {
            position: Position(position),
            tran: Tran(tran),
            back: Position(0),
            kind: kind_of(alloc, step)?,
        };
        entry.fits();
        let spelled = entry.is_spelled();
        assert!(rt; spelled);
        let size = size_of(&entry);
        let reserved = log.reserve(size).is_ok();
        assert!(rt; reserved);
        assert!(rt; size <= log.reserved());
        assert!(rt; position == log.records().len() as u64 + 1);
        log.append(entry);
    }
    Ok(log)
}

fn all_can<F: Frames>(space: &Space<F>, records: &[Record], forced: Position) -> bool
    ensures { IsTrue result
        → AllByRecursion (CanRedo (length (F.seen (frames_of space.now)).pages) forced.0)
        records.now }
{
    match records {
        [] => true,
        [first, rest @ ..] => {
            space.has_pages(first.parts())
                && first.position.0 <= forced.0
                && all_can(space, rest, forced)
        }
    }
}

// Redoes a log whose pages are there.
fn redo<F: Frames>(rt: &impl Abort, space: &mut Space<F>, log: &Log) -> Result<(), RedoFault>
    requires step { InStep (F.seen (frames_of space.old)) (summaries_of space.old)
        (capacity_in space.old) }
    ensures step { InStep (F.seen (frames_of space.new)) (summaries_of space.new)
        (capacity_in space.new) }
{
    space.let_go();
    let last = log.last();
    space.frames().tell_forced(last);
    assert!(rt; space.frames().spare() >= 1);
    let records = log.records();
    let (_, since) = records.split_at(count_switched(records));
    let can = all_can(space, since, last);
    assert!(rt; can);
    redo_all(space, log)
}

// The steps of a log, what its redo answers, and the key of the row at slot 0 of page 1 and of page
// 2 then, or 0.
#[derive(Drop)]
struct Case {
    steps: &'static [Step],
    want: Result<(), RedoFault>,
    keys: [u64; 2],
}

fn unfit(position: u64) -> Result<(), RedoFault> {
    Err(RedoFault::Unfit {
        position: Position(position),
    })
}

fn key_at<F: Frames>(rt: &impl Abort, space: &mut Space<F>, page: u32) -> Result<u64, Fail>
    requires step { InStep (F.seen (frames_of space.old)) (summaries_of space.old)
        (capacity_in space.old) }
    ensures step { InStep (F.seen (frames_of space.new)) (summaries_of space.new)
        (capacity_in space.new) }
{
    space.let_go();
    assert!(rt; space.frames().spare() >= 2);
    match space.row_at(Place { page, slot: 0 })? {
        Some(row) => Ok(row.key),
        None => Ok(0),
    }
}

fn expect_case<F: Frames>(
    rt: &impl Abort,
    alloc: Global,
    space: &mut Space<F>,
    case: &Case,
) -> Result<(), Fail>
    requires step { InStep (F.seen (frames_of space.old)) (summaries_of space.old)
        (capacity_in space.old) }
{
    let log = log_of(rt, alloc, case.steps)?;
    assert_eq!(rt; redo(rt, space, &log), case.want);
    let first = key_at(rt, space, 1)?;
    let second = key_at(rt, space, 2)?;
    assert_eq!(rt; [first, second], case.keys);
    // What is redone stays as it is.
    assert_eq!(rt; redo(rt, space, &log), case.want);
    let again = key_at(rt, space, 1)?;
    assert_eq!(rt; again, first);
    Ok(())
}

// Only what stands after the last Switch is redone, and nothing after a record that does not fit.
#[test]
fn redoes_logs(rt: HostRuntime) -> Result<(), Fail> {
    let cases = [
        Case {
            steps: &[],
            want: Ok(()),
            keys: [0, 0],
        },
        Case {
            steps: &[(1, 0, 40, 5), (2, 0, 40, 6), (1, 0, 40, 7)],
            want: Ok(()),
            keys: [7, 6],
        },
        Case {
            steps: &[(1, 0, 40, 5), SWITCH, (2, 0, 40, 6)],
            want: Ok(()),
            keys: [0, 6],
        },
        Case {
            steps: &[(1, 0, 40, 5), SWITCH, (2, 0, 40, 6), SWITCH],
            want: Ok(()),
            keys: [0, 0],
        },
        Case {
            steps: &[(1, 0, 40, 5), (2, 0, 20, 6), (1, 0, 40, 7)],
            want: unfit(2),
            keys: [5, 0],
        },
        Case {
            steps: &[SWITCH, (1, 0, 40, 5), (1, 1, 4020, 6)],
            want: unfit(3),
            keys: [5, 0],
        },
    ];
    for case in cases.iter() {
        let mut frames = ListFrames::new(rt.alloc(), TableCopy::first());
        frames.push(Page::new(rt.alloc(), TableCopy::first(), 1)?)?;
        let page = Page::new(rt.alloc(), TableCopy::first(), 2)?;
        assert!(rt; page.number() == 2);
        frames.push(page)?;
        let mut space = match Space::new(rt.alloc(), frames, 2) {
            Ok(space) => space,
            Err((_, fault)) => return Err(fault.into()),
        };
        expect_case(&rt, rt.alloc(), &mut space, case)?;
    }
    Ok(())
}
