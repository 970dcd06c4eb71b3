ghost use Rattle.std.specs.Prelude.{◌≡◌, [], IfOk, IsTrue, length};
ghost use Rattle.std.specs.List.{AllByRecursion};
ghost use Rattle.rg_page.specs.Bytes.Content.{FitsPage};
ghost use Rattle.rg_record.specs.Applied.{parts_of};
ghost use Rattle.rg_record.specs.declared.record.Record.{Record as TheRecord};
ghost use Rattle.rg_space.specs.Carries.{AllThere};
ghost use Rattle.rg_space.specs.Space.{InStep, frames_of, summaries_of, capacity_in};
ghost use Rattle.rg_space.specs.Memory.{list_seen};

use rg_base::copy::TableCopy;
use rg_base::part::{Part, Parts, SlotOp};
use rg_base::place::Place;
use rg_base::position::Position;
use rg_base::row::Row;
use rg_base::row_bytes::read_row;
use rg_base::tran::Tran;
use rg_image::sizes::size_of;
use rg_log::log::Log;
use rg_page::bytes::fault::PageFault;
use rg_page::list::ListFrames;
use rg_page::page::Page;
use rg_record::record::{Kind, Record};
use rg_redo::current_copy::rebuilt::{Rebuilt, rebuild};
use rg_redo::redo::count_switched;
use rg_space::space::Space;
use std::alloc::Global;
use std::process::Abort;
use std::test::Fail;

// A record: a Change that puts a row of so many letters, its `key`, into an area. It has a page, a
// slot, a capacity and that number; page 0 stands for a Switch.
type Step = (u32, u16, u16, u16);

const SWITCH: Step = (0, 0, 0, 0);

fn row(alloc: Global, letters: u16) -> Result<Row, Fail> {
    let mut bytes = Vec::new(alloc);
    bytes.extend_from_slice(&u64::from(letters).to_be_bytes())?;
    bytes.extend_from_slice(&0_u64.to_be_bytes())?;
    bytes.extend_from_slice(&0_u64.to_be_bytes())?;
    bytes.extend_from_slice(&letters.to_be_bytes())?;
    for _ in 0..letters {
        bytes.push(b'x')?;
    }
    Ok(read_row(alloc, &bytes)?)
}

fn kind_of(alloc: Global, step: Step) -> Result<Kind, Fail> {
    let (page, slot, capacity, letters) = step;
    if page == 0 {
        return Ok(Kind::Switch { copy: 2, pages: 2 });
    }
    let part = Part {
        page,
        slot,
        op: SlotOp::Row { capacity },
    };
    Ok(Kind::Change {
        home: Place { page, slot },
        before: None,
        after: Some(row(alloc, letters)?),
        parts: Parts::new([part].to_vec(alloc)?),
    })
}

// A log with the records of these steps.
fn log_of(rt: &impl Abort, alloc: Global, steps: &[Step]) -> Result<Log, Fail> {
    let mut log = Log::empty(alloc, 10);
    for step in steps.iter().copied() {
        let tran = if step.0 == 0 { 0 } else { 7 };
        let position = log.records().len() as u64 + 1;
        let entry = Record {
            position: Position(position),
            tran: Tran(tran),
            back: Position(0),
            kind: kind_of(alloc, step)?,
        };
        entry.fits();
        let spelled = entry.is_spelled();
        assert!(rt; spelled);
        let size = size_of(&entry);
        let reserved = log.reserve(size).is_ok();
        assert!(rt; reserved);
        assert!(rt; size <= log.reserved());
        assert!(rt; position == log.records().len() as u64 + 1);
        log.append(entry);
    }
    Ok(log)
}

fn parts_there(count: u32, parts: &[Part]) -> bool
    ensures { IsTrue result → AllThere count parts.now }
{
    match parts {
        [] => true,
        [first, rest @ ..] => first.page >= 1 && first.page <= count && parts_there(count, rest),
    }
}

fn all_there(count: u32, records: &[Record]) -> bool
    ensures { IsTrue result → AllByRecursion (λ (entry : TheRecord). AllThere count
        (parts_of entry.kind)) records.now }
{
    match records {
        [] => true,
        [first, rest @ ..] => parts_there(count, first.parts()) && all_there(count, rest),
    }
}

// The key of the row at slot 0 of a page, or 0.
fn key_at(rt: &impl Abort, space: &mut Space<ListFrames>, page: u32) -> Result<u64, Fail>
    requires step { InStep (list_seen (frames_of space.old)) (summaries_of space.old)
        (capacity_in space.old) }
    ensures step { InStep (list_seen (frames_of space.new)) (summaries_of space.new)
        (capacity_in space.new) }
{
    match space.row_at(Place { page, slot: 0 })? {
        Some(row) => Ok(row.key),
        None => Ok(0),
    }
}

// Page `number` of copy 2 without slots, which the record with this position changed last.
fn page_at(alloc: Global, number: u8, position: u8) -> Result<Page, PageFault>
    ensures fits { IfOk result FitsPage }
    ensures copy { IfOk result (λ page. page.copy ≡ 2) }
    ensures number { IfOk result (λ page. page.number ≡ number) }
{
    let mut bytes = [0; 4096];
    if position > 0 {
        let head = [
            b'R', b'G', b'P', b'1', 2, 0, 0, 0, 0, 0, 0, number, 0, 0, 0, 0, 0, 0, 0, position, 0,
            32,
        ];
        bytes[..22].copy_from_slice(&head);
    }
    Page::read(alloc, TableCopy::second(), u32::from(number), &bytes)
}

// Two pages.
fn two_pages(alloc: Global, position: u8) -> Result<ListFrames, PageFault>
    ensures fits { IfOk result (λ f. AllByRecursion FitsPage f.pages.items) }
    ensures count { IfOk result (λ f. length f.pages.items ≡ 2) }
    ensures reserved { IfOk result (λ f. f.reserved.items ≡ []) }
{
    let mut frames = ListFrames::new(alloc, TableCopy::second());
    frames.push(page_at(alloc, 1, position)?)?;
    frames.push(page_at(alloc, 2, position)?)?;
    Ok(frames)
}

// The keys of the rows at slot 0 of pages 1 and 2 that a log makes of pages with this position, or
// the position of the record that does not fit.
type Outcome = Result<[u64; 2], u64>;

fn outcome_of(
    rt: &impl Abort,
    alloc: Global,
    steps: &[Step],
    position: u8,
) -> Result<Outcome, Fail> {
    let log = log_of(rt, alloc, steps)?;
    let records = log.records();
    let (_, since) = records.split_at(count_switched(records));
    let there = all_there(2, since);
    assert!(rt; there);
    let frames = two_pages(alloc, position)?;
    match rebuild(alloc, &log, frames, 3)? {
        Rebuilt::Unfit { position } => Ok(Err(position.0)),
        Rebuilt::Pages(space) => {
            let mut space = space;
            assert!(rt; space.count() == 2);
            let first = key_at(rt, &mut space, 1)?;
            let second = key_at(rt, &mut space, 2)?;
            Ok(Ok([first, second]))
        }
    }
}

// Records are redone in order, from the last Switch on and above the position of each page, up to
// one that does not fit.
#[test]
fn rebuilds_pages(rt: HostRuntime) -> Result<(), Fail> {
    let cases: [(&'static [Step], u8, Outcome); 9] = [
        (&[], 0, Ok([0, 0])),
        (&[(1, 0, 40, 5), (1, 0, 40, 7)], 0, Ok([7, 0])),
        (&[(1, 0, 40, 5), (1, 0, 40, 7)], 1, Ok([7, 0])),
        (&[(1, 0, 40, 5), (1, 0, 40, 7)], 2, Ok([0, 0])),
        (&[(1, 0, 40, 5), SWITCH, (2, 0, 40, 6)], 0, Ok([0, 6])),
        (&[(1, 0, 40, 5), (2, 0, 20, 6), (1, 0, 40, 7)], 1, Err(2)),
        (
            &[(1, 0, 40, 5), (2, 0, 20, 6), (1, 0, 40, 7)],
            2,
            Ok([7, 0]),
        ),
        (&[(1, 0, 20, 5), SWITCH, (2, 0, 40, 6)], 0, Ok([0, 6])),
        (&[(1, 0, 20, 5), SWITCH, (2, 0, 40, 6)], 3, Ok([0, 0])),
    ];
    for (steps, position, want) in cases.iter() {
        let outcome = outcome_of(&rt, rt.alloc(), steps, *position)?;
        assert_eq!(rt; outcome, *want);
    }
    Ok(())
}
