// Openings over logs that were made by hand.
//
// 1. A sound log opens with its committed rows, and what was not committed is undone.
// 2. Of a log that is not sound the page is named that the first broken rule names.
ghost use Rattle.std.specs.Prelude.{◌≡◌};

use super::{print_over, volume};
use rg_base::part::{Part, Parts, SlotOp};
use rg_base::place::Place;
use rg_base::position::Position;
use rg_base::row::Row;
use rg_base::set::Set;
use rg_base::text::Text;
use rg_base::tran::Tran;
use rg_image::sizes::size_of;
use rg_log::log::Log;
use rg_mem::volume::MemVolume;
use rg_outside::volume::Volume;
use rg_record::record::{Kind, Record};
use std::alloc::Global;
use std::process::Abort;
use std::test::Fail;

// What a record does, at this slot of page 1, with the row of this key.
#[derive(Clone, Copy)]
enum Does {
    Insert(u16, u64),
    Delete(u16, u64),
    // Its part is of the slot after, and the home stays as it is.
    Elsewhere(u16, u64),
    // Its area is too small for the row.
    Cramped(u16, u64),
    // Its part is a pointer to page 2, which is empty.
    Points(u16, u64),
    // Its part frees the slot.
    Frees(u16, u64),
    Commit,
    RolledBack,
}

// The transaction, the position of its record before, and what the record does.
type Line = (u32, u64, Does);

fn row(alloc: Global, key: u64) -> Result<Row, Fail> {
    Ok(Row {
        key,
        clus: key,
        cat: 1,
        text: Text::new(b"abc".to_vec(alloc)?),
    })
}

fn change(
    alloc: Global,
    slot: u16,
    rows: (Option<Row>, Option<Row>),
    part: (u16, SlotOp),
) -> Result<Kind, Fail> {
    let (before, after) = rows;
    let (at, op) = part;
    let part = Part {
        page: 1,
        slot: at,
        op,
    };
    Ok(Kind::Change {
        home: Place { page: 1, slot },
        before,
        after,
        parts: Parts::new([part].to_vec(alloc)?),
    })
}

// A Change that inserts, by this part.
fn insert(alloc: Global, slot: u16, key: u64, part: (u16, SlotOp)) -> Result<Kind, Fail> {
    change(alloc, slot, (None, Some(row(alloc, key)?)), part)
}

fn kind_of(alloc: Global, does: Does) -> Result<Kind, Fail> {
    let area = SlotOp::Row { capacity: 40 };
    match does {
        Does::Insert(slot, key) => insert(alloc, slot, key, (slot, area)),
        Does::Delete(slot, key) => {
            let dead = SlotOp::DeadRow { capacity: 40 };
            change(alloc, slot, (Some(row(alloc, key)?), None), (slot, dead))
        }
        Does::Elsewhere(slot, key) => insert(alloc, slot, key, (slot.wrapping_add(1), area)),
        Does::Cramped(slot, key) => {
            insert(alloc, slot, key, (slot, SlotOp::Row { capacity: 20 }))
        }
        Does::Points(slot, key) => {
            let other = Place { page: 2, slot: 0 };
            let points = SlotOp::Pointer {
                capacity: 40,
                other,
            };
            insert(alloc, slot, key, (slot, points))
        }
        Does::Frees(slot, key) => insert(alloc, slot, key, (slot, SlotOp::Free)),
        Does::Commit => Ok(Kind::Commit),
        Does::RolledBack => Ok(Kind::RolledBack),
    }
}

// Appends the record of a line.
fn add(rt: &impl Abort, alloc: Global, log: &mut Log, line: Line) -> Result<(), Fail>
    ensures { log.new.pages ≡ log.old.pages }
{
    let (tran, back, does) = line;
    let position = log.records().len() as u64 + 1;
    let entry = Record {
        position: Position(position),
        tran: Tran(tran),
        back: Position(back),
        kind: kind_of(alloc, does)?,
    };
    entry.fits();
    let spelled = entry.is_spelled();
    assert!(rt; spelled);
    let size = size_of(&entry);
    let reserved = log.reserve(size).is_ok();
    assert!(rt; reserved);
    assert!(rt; size <= log.reserved());
    assert!(rt; position == log.records().len() as u64 + 1);
    log.append(entry);
    Ok(())
}

// What a call prints first over a volume whose log has the records of these lines.
fn opening_of(
    rt: &impl Abort,
    alloc: Global,
    volume: MemVolume,
    lines: &[Line],
) -> Result<String, Fail> {
    let mut volume = volume;
    let mut log = Log::empty(alloc, volume.capacity(Set::Log).min(65536));
    for line in lines.iter().copied() {
        add(rt, alloc, &mut log, line)?;
    }
    let forced = log.force(&mut volume).is_ok();
    assert!(rt; forced);
    let (_, printed) = print_over(alloc, volume, b"")?;
    let end = printed.iter().position(|byte| *byte == b'\n').unwrap_or(0);
    let (first, _) = printed.as_slice().split_at(end);
    match String::from_utf8(first.to_vec(alloc)?) {
        Ok(text) => Ok(text),
        Err(_) => Ok(String::new(alloc)),
    }
}

use Does::{Commit, Cramped, Delete, Elsewhere, Frees, Insert, Points, RolledBack};

// What stands at the beginning of each case: a committed row of key 5 in slot 0.
const ROW: [Line; 2] = [(1, 0, Insert(0, 5)), (1, 1, Commit)];

#[test]
fn opens_or_names_a_page(rt: HostRuntime) -> Result<(), Fail> {
    let alloc = rt.alloc();
    let cases: [(&[Line], &str); 12] = [
        (&[], "0 - OPENED copy=1 rows=1 pages=1"),
        // Open units are undone: one inserts and deletes, one has nothing left to undo.
        (
            &[
                (2, 0, Insert(1, 6)),
                (3, 0, Delete(0, 5)),
                (2, 3, Delete(1, 6)),
            ],
            "0 - OPENED copy=1 rows=1 pages=1",
        ),
        (
            &[(2, 0, Delete(0, 5)), (2, 3, Commit)],
            "0 - OPENED copy=1 rows=0 pages=1",
        ),
        (
            &[(2, 0, Insert(1, 6)), (2, 3, Commit), (3, 0, Insert(2, 7))],
            "0 - OPENED copy=1 rows=2 pages=1",
        ),
        // A commit of a transaction whose number was not drawn.
        (&[(3, 0, Commit)], "REFUSED volume damaged LOG 1"),
        (
            &[(2, 0, Cramped(1, 6)), (2, 3, Commit)],
            "REFUSED volume damaged LOG 1",
        ),
        (
            &[(2, 0, Points(1, 6)), (2, 3, Commit)],
            "REFUSED volume damaged FIRST 1",
        ),
        // The undo finds no row at its home.
        (&[(2, 0, Elsewhere(1, 6))], "REFUSED volume damaged FIRST 1"),
        // A key stands twice.
        (
            &[(2, 0, Insert(1, 5)), (2, 3, Commit)],
            "REFUSED volume damaged FIRST 1",
        ),
        // A row is there whose unit was rolled back without an Undo.
        (
            &[(2, 0, Insert(1, 6)), (2, 3, RolledBack)],
            "REFUSED volume damaged FIRST 1",
        ),
        // A stored row has no home.
        (
            &[(2, 0, Frees(1, 6)), (2, 3, Commit)],
            "REFUSED volume damaged LOG 1",
        ),
        (
            &[(2, 0, Insert(1, 6)), (2, 3, Commit), (2, 4, Commit)],
            "REFUSED volume damaged LOG 1",
        ),
    ];
    for (at, (more, wanted)) in cases.iter().copied().enumerate() {
        let mut lines = ROW.to_vec(alloc)?;
        lines.extend_from_slice(more)?;
        let text = opening_of(&rt, alloc, volume(alloc, 9)?, lines.as_slice())?;
        assert_eq!(rt; text.as_str(), wanted, "case {at}");
    }
    Ok(())
}

// A page of the current copy that is not zero is named, once the log is known to be sound.
#[test]
fn names_a_used_page(rt: HostRuntime) -> Result<(), Fail> {
    let alloc = rt.alloc();
    for (page, wanted) in [
        (1, "REFUSED volume damaged FIRST 1"),
        (2, "0 - OPENED copy=1 rows=1 pages=1"),
    ] {
        let mut used = volume(alloc, 9)?;
        assert!(rt; page >= 1);
        assert!(rt; page <= used.capacity(Set::First));
        used.write(Set::First, page, &[1; 4096])?;
        let text = opening_of(&rt, alloc, used, &ROW)?;
        assert_eq!(rt; text.as_str(), wanted, "page {page}");
    }
    Ok(())
}
