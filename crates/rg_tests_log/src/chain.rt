ghost use Rattle.std.specs.Prelude.{IsTrue};
ghost use Rattle.rg_image.specs.Kept.{AreEntries};

use rg_base::copy::TableCopy;
use rg_base::no_memory::NoMemory;
use rg_base::part::{Part, Parts, SlotOp};
use rg_base::place::Place;
use rg_base::position::Position;
use rg_base::row::Row;
use rg_base::text::Text;
use rg_base::tran::Tran;
use rg_check::chain::chain::Chain;
use rg_check::chain::test::{LogTest, test_log};
use rg_mem::volume::MemVolume;
use rg_record::record::{Kind, Record};
use std::alloc::Global;
use std::process::Abort;
use std::test::Fail;

// What a record does. A row is named by the letters of its text, 0 for none.
#[derive(Clone, Copy)]
enum Does {
    // The home is this page and slot; the row before and the row after.
    Write(u32, u16, u8, u8),
    // Next, slot of page 1, the row after.
    Undo(u64, u16, u8),
    Commit,
    RolledBack,
    Purge(u32),
    Switch(u8, u32),
    // Inserts at home 1.1, by an area on this page.
    Area(u32),
    // The same by a pointer to this page.
    Points(u32),
}

// Position, transaction, back.
type Line = (u64, u32, u64, Does);

// Transaction 1 writes a row twice and is rolled back, transaction 2 commits, the table goes to
// copy 2, and transaction 3 is open.
const SOUND: [Line; 10] = [
    (1, 1, 0, Does::Write(1, 0, 0, 1)),
    (2, 2, 0, Does::Write(1, 1, 0, 1)),
    (3, 1, 1, Does::Write(1, 0, 1, 2)),
    (4, 1, 3, Does::Undo(1, 0, 1)),
    (5, 1, 4, Does::Undo(0, 0, 0)),
    (6, 1, 5, Does::RolledBack),
    (7, 2, 2, Does::Commit),
    (8, 0, 0, Does::Purge(1)),
    (9, 0, 0, Does::Switch(2, 3)),
    (10, 3, 0, Does::Write(4, 0, 0, 1)),
];

fn row(alloc: Global, letters: u8) -> Result<Option<Row>, NoMemory> {
    let text = match letters {
        0 => return Ok(None),
        1 => Text::new(b"a".to_vec(alloc)?),
        2 => Text::new(b"ab".to_vec(alloc)?),
        3 => Text::new(b"abc".to_vec(alloc)?),
        4 => Text::new(b"abcd".to_vec(alloc)?),
        _ => Text::new(b"abcde".to_vec(alloc)?),
    };
    Ok(Some(Row {
        key: u64::from(letters),
        clus: 0,
        cat: 0,
        text,
    }))
}

fn parts(alloc: Global, page: u32, op: SlotOp) -> Result<Parts, NoMemory> {
    let part = Part { page, slot: 1, op };
    Ok(Parts::new([part].to_vec(alloc)?))
}

fn write(
    alloc: Global,
    home: Place,
    before: u8,
    after: u8,
    parts: Parts,
) -> Result<Kind, NoMemory> {
    Ok(Kind::Change {
        home,
        before: row(alloc, before)?,
        after: row(alloc, after)?,
        parts,
    })
}

// A position after those of so many commits.
fn position_after(front: u32, position: u64) -> Position {
    if position == 0 {
        return Position(0);
    }
    Position(u64::from(front).saturating_add(position))
}

fn kind_of(alloc: Global, front: u32, does: Does) -> Result<Kind, NoMemory> {
    let area = SlotOp::Row { capacity: 40 };
    let other = Place { page: 1, slot: 1 };
    Ok(match does {
        Does::Write(page, slot, before, after) => {
            let parts = parts(alloc, page, area)?;
            write(alloc, Place { page, slot }, before, after, parts)?
        }
        Does::Undo(next, slot, after) => Kind::Undo {
            next: position_after(front, next),
            home: Place { page: 1, slot },
            after: row(alloc, after)?,
            parts: parts(alloc, 1, area)?,
        },
        Does::Commit => Kind::Commit,
        Does::RolledBack => Kind::RolledBack,
        Does::Purge(page) => Kind::Purge {
            parts: parts(alloc, page, SlotOp::Free)?,
        },
        Does::Switch(copy, pages) => Kind::Switch { copy, pages },
        Does::Area(page) => write(alloc, other, 0, 1, parts(alloc, page, area)?)?,
        Does::Points(page) => {
            let other = Place { page, slot: 0 };
            let op = SlotOp::Pointer {
                capacity: 40,
                other,
            };
            write(
                alloc,
                Place { page: 1, slot: 1 },
                0,
                1,
                parts(alloc, 1, op)?,
            )?
        }
    })
}

// The record of a line, where so many commits stand before the first line.
fn record_of(alloc: Global, front: u32, line: Line) -> Result<Record, NoMemory> {
    let (position, tran, back, does) = line;
    let tran = if tran == 0 {
        Tran(0)
    } else {
        Tran(front.saturating_add(tran))
    };
    Ok(Record {
        position: position_after(front, position),
        tran,
        back: position_after(front, back),
        kind: kind_of(alloc, front, does)?,
    })
}

// So many commits, each of its own transaction.
fn commits(alloc: Global, front: u32) -> Result<Vec<Record>, NoMemory> {
    let mut records = Vec::new(alloc);
    for n in 1..=front {
        records.push(record_of(alloc, 0, (u64::from(n), n, 0, Does::Commit))?)?;
    }
    Ok(records)
}

fn sound(alloc: Global, front: u32) -> Result<Vec<Record>, NoMemory> {
    let mut records = commits(alloc, front)?;
    for line in SOUND {
        records.push(record_of(alloc, front, line)?)?;
    }
    Ok(records)
}

#[derive(Clone, Copy, Debug, PartialEq, Eq)]
enum Found {
    Sound,
    BrokenChain(u32),
    NoSpace(u32),
}

fn are_spelled(records: &[Record]) -> bool
    ensures { IsTrue result → AreEntries records.now }
{
    for entry in records {
        entry.fits();
        if !entry.is_spelled() {
            return false;
        }
    }
    true
}

// Tests the records of a volume with so many log pages, 2 pages for copy 1 and 5 for copy 2.
fn tested(rt: &impl Abort, alloc: Global, log: u32, records: &[Record]) -> Result<LogTest, Fail> {
    assert!(rt; are_spelled(records));
    assert!(rt; records.len() < 1000);
    let volume = MemVolume::new(alloc, log, 2, 5, 1, 1, &[], None)?;
    Ok(test_log(alloc, &volume, records)?)
}

fn outcome_of(rt: &impl Abort, alloc: Global, log: u32, records: &[Record]) -> Result<Found, Fail> {
    Ok(match tested(rt, alloc, log, records)? {
        LogTest::Sound(_) => Found::Sound,
        LogTest::BrokenChain { page } => Found::BrokenChain(page),
        LogTest::NoSpace { page } => Found::NoSpace(page),
    })
}

#[test]
fn keeps_what_an_opening_needs(rt: HostRuntime) -> Result<(), Fail> {
    let records = sound(rt.alloc(), 200)?;
    let LogTest::Sound(chain) = tested(&rt, rt.alloc(), 10, &records)? else {
        return Err(Fail::from(NoMemory));
    };
    assert_eq!(rt; chain.greatest(), Tran(203));
    assert_eq!(rt; (chain.copy(), chain.pages()), (TableCopy::second(), 4));
    assert_eq!(rt; (chain.owed(), chain.none_is_open()), (934, false));
    let rolled_back = chain.unit(Tran(201));
    assert_eq!(rt; (rolled_back.ended, rolled_back.left), (true, 0));
    let open = chain.unit(Tran(203));
    assert_eq!(rt; (open.ended, open.last, open.left), (false, 210, 1));
    let none = Chain::new(rt.alloc());
    assert_eq!(rt;
        (none.greatest(), none.copy(), none.pages()),
        (Tran(0), TableCopy::first(), 0)
    );
    assert!(rt; none.none_is_open());
    Ok(())
}

// The page of the first record that does not follow, where this line stands in place of the one
// with this number.
fn page_of(
    rt: &impl Abort,
    alloc: Global,
    front: u32,
    number: usize,
    line: Line,
) -> Result<Found, Fail> {
    let mut records = sound(alloc, front)?;
    assert_eq!(rt;
        outcome_of(rt, alloc, 10, &records)?,
        Found::Sound,
        "{front}"
    );
    let at = (front as usize).saturating_add(number);
    assert!(rt; 0 < at && at <= records.len());
    records[at - 1] = record_of(alloc, front, line)?;
    outcome_of(rt, alloc, 10, &records)
}

// 177 commits fill page 1. After 174 of them there is room for one insert more.
fn names_page(rt: &impl Abort, alloc: Global, number: usize, line: Line) -> Result<(), Fail> {
    let second = if number == 1 { 1 } else { 2 };
    for (front, page) in [(0, 1), (174, second), (177, 2), (400, 3)] {
        let found = page_of(rt, alloc, front, number, line)?;
        assert_eq!(rt;
            found,
            Found::BrokenChain(page),
            "record {number} after {front}"
        );
    }
    Ok(())
}

#[test]
fn names_the_page_of_a_wrong_write(rt: HostRuntime) -> Result<(), Fail> {
    for (number, line) in [
        // a position left out, and one that stands twice
        (3, (4, 1, 1, Does::Write(1, 0, 1, 2))),
        (3, (2, 1, 1, Does::Write(1, 0, 1, 2))),
        // no back, another transaction's, and one at a first record
        (3, (3, 1, 0, Does::Write(1, 0, 1, 2))),
        (3, (3, 1, 2, Does::Write(1, 0, 1, 2))),
        (2, (2, 2, 1, Does::Write(1, 1, 0, 1))),
        // a number left out, and none
        (2, (2, 3, 0, Does::Write(1, 1, 0, 1))),
        (2, (2, 0, 0, Does::Write(1, 1, 0, 1))),
        // after an Undo
        (5, (5, 1, 4, Does::Write(1, 0, 1, 2))),
        // pages that are not there: of the home, of the part, and of its place
        (1, (1, 1, 0, Does::Write(3, 0, 0, 1))),
        (1, (1, 1, 0, Does::Write(0, 0, 0, 1))),
        (2, (2, 2, 0, Does::Area(3))),
        (2, (2, 2, 0, Does::Points(3))),
        (10, (10, 3, 0, Does::Write(6, 0, 0, 1))),
    ] {
        names_page(&rt, rt.alloc(), number, line)?;
    }
    Ok(())
}

#[test]
fn names_the_page_of_a_wrong_end(rt: HostRuntime) -> Result<(), Fail> {
    for (number, line) in [
        // another next, row and home, one too many, and one of nothing
        (4, (4, 1, 3, Does::Undo(0, 0, 1))),
        (4, (4, 1, 3, Does::Undo(1, 0, 2))),
        (5, (5, 1, 4, Does::Undo(0, 1, 0))),
        (6, (6, 1, 5, Does::Undo(0, 0, 0))),
        (2, (2, 2, 0, Does::Undo(0, 0, 0))),
        // after an Undo, after a RolledBack, and after a Commit
        (6, (6, 1, 5, Does::Commit)),
        (7, (7, 1, 6, Does::Commit)),
        (8, (8, 2, 7, Does::Write(1, 0, 0, 1))),
        // a page that is not there
        (8, (8, 0, 0, Does::Purge(3))),
        // to its own copy, while a transaction is open, and with too many pages
        (9, (9, 0, 0, Does::Switch(1, 2))),
        (7, (7, 0, 0, Does::Switch(2, 3))),
        (9, (9, 0, 0, Does::Switch(2, 6))),
    ] {
        names_page(&rt, rt.alloc(), number, line)?;
    }
    Ok(())
}

// A commit takes 23 bytes. An insert takes 69 and its letters, and owes 934.
#[test]
fn has_space_to_the_byte(rt: HostRuntime) -> Result<(), Fail> {
    for (log, front, letters, is) in [
        (2, 55, 2, Found::Sound),
        (2, 55, 3, Found::NoSpace(1)),
        (5, 351, 4, Found::Sound),
        (5, 351, 5, Found::NoSpace(3)),
        (2, 98, 1, Found::NoSpace(1)),
        (0, 0, 1, Found::NoSpace(1)),
    ] {
        let mut records = commits(rt.alloc(), front)?;
        let insert = (1, 1, 0, Does::Write(1, 0, 0, letters));
        records.push(record_of(rt.alloc(), front, insert)?)?;
        let found = outcome_of(&rt, rt.alloc(), log, &records)?;
        assert_eq!(rt; found, is, "{front} and {letters}");
    }
    let none = commits(rt.alloc(), 0)?;
    assert_eq!(rt; outcome_of(&rt, rt.alloc(), 0, &none)?, Found::Sound);
    Ok(())
}
