use rg_base::no_memory::NoMemory;
use rg_base::part::{Part, Parts, SlotOp};
use rg_base::place::Place;
use rg_base::position::Position;
use rg_base::row::Row;
use rg_base::text::Text;
use rg_base::tran::Tran;
use rg_record::fault::RecordFault;
use rg_record::read::read_record;
use rg_record::record::{Kind, Record};
use rg_record::write::write_record;
use std::alloc::Global;
use std::process::Abort;
use std::test::Fail;

// The two records of the first session: an insert and its commit.
const CHANGE: [u8; 70] = [
    0, 0, 0, 0, 0, 0, 0, 1, 0, 0, 0, 1, 0, 0, 0, 0, 0, 0, 0, 0, 1, 0, 0, 0, 1, 0, 0, 0, 0, 0, 29,
    0, 0, 0, 0, 0, 0, 0, 5, 0, 0, 0, 0, 0, 0, 0, 50, 0, 0, 0, 0, 0, 0, 0, 1, 0, 3, 97, 98, 99, 1,
    0, 0, 0, 1, 0, 0, 1, 0, 29,
];

const COMMIT: [u8; 21] = [
    0, 0, 0, 0, 0, 0, 0, 2, 0, 0, 0, 1, 0, 0, 0, 0, 0, 0, 0, 1, 3,
];

// A row moves from one Over area to another.
const MOVE: [u8; 132] = [
    0, 0, 0, 0, 0, 0, 1, 2, 0, 0, 0, 3, 0, 0, 0, 0, 0, 0, 1, 1, 1, 0, 0, 0, 2, 0, 4, 0, 29, 0, 0,
    0, 0, 0, 0, 0, 5, 0, 0, 0, 0, 0, 0, 0, 50, 0, 0, 0, 0, 0, 0, 0, 1, 0, 3, 97, 98, 99, 0, 26,
    255, 255, 255, 255, 255, 255, 255, 255, 0, 0, 0, 0, 0, 0, 0, 0, 0, 0, 0, 0, 0, 0, 0, 7, 0, 0,
    3, 0, 0, 0, 2, 0, 4, 2, 0, 29, 0, 0, 0, 9, 0, 1, 0, 0, 0, 9, 0, 1, 3, 0, 26, 0, 0, 0, 2, 0, 4,
    0, 1, 0, 0, 1, 4, 6, 1, 44, 0, 0, 0, 2, 0, 4,
];

// An insert is undone whose row lies in an Over area.
const UNDO: [u8; 62] = [
    0, 0, 0, 0, 0, 0, 0, 9, 0, 0, 0, 2, 0, 0, 0, 0, 0, 0, 0, 8, 2, 0, 0, 0, 0, 0, 0, 0, 4, 0, 0, 0,
    7, 0, 1, 0, 0, 2, 0, 0, 0, 7, 0, 1, 5, 0, 26, 0, 0, 0, 8, 0, 0, 0, 0, 0, 8, 0, 0, 4, 0, 31,
];

const ROLLED_BACK: [u8; 21] = [
    0, 0, 0, 0, 0, 0, 0, 10, 0, 0, 0, 2, 0, 0, 0, 0, 0, 0, 0, 9, 4,
];

const PURGE: [u8; 36] = [
    0, 0, 0, 0, 0, 0, 0, 11, 0, 0, 0, 0, 0, 0, 0, 0, 0, 0, 0, 0, 5, 2, 0, 0, 0, 3, 0, 0, 0, 0, 0,
    0, 3, 0, 5, 0,
];

const SWITCH: [u8; 26] = [
    0, 0, 0, 0, 0, 0, 0, 12, 0, 0, 0, 0, 0, 0, 0, 0, 0, 0, 0, 0, 6, 2, 0, 0, 0, 3,
];

fn place(page: u32, slot: u16) -> Place {
    Place { page, slot }
}

fn part(page: u32, slot: u16, op: SlotOp) -> Part {
    Part { page, slot, op }
}

fn record(position: u64, tran: u32, back: u64, kind: Kind) -> Record {
    Record {
        position: Position(position),
        tran: Tran(tran),
        back: Position(back),
        kind,
    }
}

fn abc(alloc: Global) -> Result<Row, NoMemory> {
    Ok(Row {
        key: 5,
        clus: 50,
        cat: 1,
        text: Text::new(b"abc".to_vec(alloc)?),
    })
}

fn parts(alloc: Global, parts: &[Part]) -> Result<Parts, NoMemory> {
    Ok(Parts::new(parts.to_vec(alloc)?))
}

// The record is written as these bytes, and its size is their number.
fn spells(rt: &impl Abort, alloc: Global, entry: &Record, bytes: &[u8]) -> Result<(), Fail> {
    assert!(rt; entry.is_spelled());
    assert_eq!(rt; write_record(alloc, entry)?.as_slice(), bytes);
    assert_eq!(rt; entry.size() as usize, bytes.len());
    Ok(())
}

#[test]
fn writes_first_session(rt: HostRuntime) -> Result<(), Fail> {
    let insert = Kind::Change {
        home: place(1, 0),
        before: None,
        after: Some(abc(rt.alloc())?),
        parts: parts(rt.alloc(), &[part(1, 0, SlotOp::Row { capacity: 29 })])?,
    };
    spells(&rt, rt.alloc(), &record(1, 1, 0, insert), &CHANGE)?;
    spells(&rt, rt.alloc(), &record(2, 1, 1, Kind::Commit), &COMMIT)
}

#[test]
fn writes_moves_and_undos(rt: HostRuntime) -> Result<(), Fail> {
    let last = Row {
        key: u64::MAX,
        clus: 0,
        cat: 7,
        text: Text::new(b"".to_vec(rt.alloc())?),
    };
    let (home, taken) = (place(2, 4), place(9, 1));
    let moved = Kind::Change {
        home,
        before: Some(abc(rt.alloc())?),
        after: Some(last),
        parts: parts(
            rt.alloc(),
            &[
                part(
                    2,
                    4,
                    SlotOp::Pointer {
                        capacity: 29,
                        other: taken,
                    },
                ),
                part(
                    9,
                    1,
                    SlotOp::Over {
                        capacity: 26,
                        other: home,
                    },
                ),
                part(
                    65536,
                    260,
                    SlotOp::DeadOver {
                        capacity: 300,
                        other: home,
                    },
                ),
            ],
        )?,
    };
    spells(&rt, rt.alloc(), &record(258, 3, 257, moved), &MOVE)?;
    let undone = Kind::Undo {
        next: Position(4),
        home: place(7, 1),
        after: None,
        parts: parts(
            rt.alloc(),
            &[
                part(
                    7,
                    1,
                    SlotOp::DeadPointer {
                        capacity: 26,
                        other: place(8, 0),
                    },
                ),
                part(8, 0, SlotOp::DeadRow { capacity: 31 }),
            ],
        )?,
    };
    spells(&rt, rt.alloc(), &record(9, 2, 8, undone), &UNDO)?;
    spells(
        &rt,
        rt.alloc(),
        &record(10, 2, 9, Kind::RolledBack),
        &ROLLED_BACK,
    )
}

#[test]
fn writes_purges_and_switches(rt: HostRuntime) -> Result<(), Fail> {
    let frees = [part(3, 0, SlotOp::Free), part(3, 5, SlotOp::Free)];
    let purge = Kind::Purge {
        parts: parts(rt.alloc(), &frees)?,
    };
    spells(&rt, rt.alloc(), &record(11, 0, 0, purge), &PURGE)?;
    let switch = Kind::Switch { copy: 2, pages: 3 };
    spells(&rt, rt.alloc(), &record(12, 0, 0, switch), &SWITCH)
}

#[test]
fn knows_what_is_no_record(rt: HostRuntime) -> Result<(), Fail> {
    let free = part(3, 0, SlotOp::Free);
    let other_page = part(4, 0, SlotOp::Free);
    let dead = part(3, 0, SlotOp::DeadRow { capacity: 9 });
    for (frees, tran, back, is) in [
        ([free, free].as_slice(), 0, 0, true),
        ([].as_slice(), 0, 0, false),
        ([free].as_slice(), 1, 0, false),
        ([free].as_slice(), 0, 1, false),
        ([free, other_page].as_slice(), 0, 0, false),
        ([free, dead].as_slice(), 0, 0, false),
        ([free; 225].as_slice(), 0, 0, true),
        ([free; 226].as_slice(), 0, 0, false),
    ] {
        let purge = Kind::Purge {
            parts: parts(rt.alloc(), frees)?,
        };
        assert_eq!(rt;
            record(1, tran, back, purge).is_spelled(),
            is,
            "of {}",
            frees.len()
        );
    }
    for (count, is) in [(0, false), (1, true), (3, true), (4, false)] {
        let undo = Kind::Undo {
            next: Position(0),
            home: place(1, 0),
            after: None,
            parts: parts(rt.alloc(), &[dead; 4][..count])?,
        };
        assert_eq!(rt; record(1, 1, 0, undo).is_spelled(), is, "of {count}");
    }
    for (copy, tran, is) in [
        (0, 0, false),
        (1, 0, true),
        (2, 0, true),
        (2, 1, false),
        (3, 0, false),
    ] {
        let switch = Kind::Switch { copy, pages: 3 };
        assert_eq!(rt; record(1, tran, 0, switch).is_spelled(), is, "to {copy}");
    }
    Ok(())
}

// What is read of these bytes, written again; or that they are refused.
fn again(alloc: Global, bytes: &[u8]) -> Result<Option<Vec<u8>>, Fail> {
    match read_record(alloc, bytes) {
        Ok(entry) => Ok(Some(write_record(alloc, &entry)?.into_vec())),
        Err(RecordFault::NotARecord) => Ok(None),
        Err(RecordFault::NoMemory) => Err(Fail::from(NoMemory)),
    }
}

// One byte of a record replaced, by its number.
#[test]
fn refuses_wrong_bytes(rt: HostRuntime) -> Result<(), Fail> {
    for (what, bytes, at, byte) in [
        ("kind 0", COMMIT.as_slice(), 20, 0),
        ("kind 7", COMMIT.as_slice(), 20, 7),
        ("a rollback as a purge", ROLLED_BACK.as_slice(), 20, 5),
        ("no part", CHANGE.as_slice(), 60, 0),
        ("a part more", CHANGE.as_slice(), 60, 2),
        ("operation 7", CHANGE.as_slice(), 67, 7),
        ("a longer row", CHANGE.as_slice(), 30, 30),
        ("a shorter row", CHANGE.as_slice(), 30, 28),
        ("a longer text", CHANGE.as_slice(), 56, 4),
        ("a space in a text", CHANGE.as_slice(), 58, 32),
        ("a purge of a transaction", PURGE.as_slice(), 11, 1),
        ("a purge with a back", PURGE.as_slice(), 19, 1),
        ("a purge over two pages", PURGE.as_slice(), 32, 4),
        ("a purge that makes a row", PURGE.as_slice(), 28, 1),
        ("a switch of a transaction", SWITCH.as_slice(), 11, 1),
        ("a switch with a back", SWITCH.as_slice(), 19, 1),
        ("a switch to copy 0", SWITCH.as_slice(), 21, 0),
        ("a switch to copy 3", SWITCH.as_slice(), 21, 3),
    ] {
        let mut wrong = bytes.to_vec(rt.alloc())?;
        let old = wrong.get_mut(at).ok_or("a byte")?;
        assert_ne!(rt; *old, byte, "{what}");
        *old = byte;
        assert!(rt; again(rt.alloc(), wrong.as_slice())?.is_none(), "{what}");
    }
    Ok(())
}
