use rg_base::part::{Part, Parts, SlotOp};
use rg_base::place::Place;
use rg_base::position::Position;
use rg_base::tran::Tran;
use rg_check::chain::chain::Chain;
use rg_check::open_units::unended::{changes_left, open_trans};
use rg_mem::volume::MemVolume;
use rg_record::record::{Kind, Record};
use std::alloc::Global;
use std::process::Abort;
use std::test::Fail;

// What a record does. Each Change writes the same home. An Undo names the back of its Change.
#[derive(Clone, Copy)]
enum Does {
    Change,
    Undo(u64),
    Commit,
    RolledBack,
}

// The transaction of a record, its back, and what it does. Positions count from 1.
type Line = (u32, u64, Does);

// A log; and of each open transaction its number, and the positions of the Changes that are left.
type Case = (&'static [Line], &'static str);

fn kind_of(alloc: Global, does: Does) -> Result<Kind, Fail> {
    let home = Place { page: 1, slot: 0 };
    let part = Part {
        page: 1,
        slot: 0,
        op: SlotOp::Free,
    };
    let parts = Parts::new([part].to_vec(alloc)?);
    Ok(match does {
        Does::Change => Kind::Change {
            home,
            before: None,
            after: None,
            parts,
        },
        Does::Undo(next) => Kind::Undo {
            next: Position(next),
            home,
            after: None,
            parts,
        },
        Does::Commit => Kind::Commit,
        Does::RolledBack => Kind::RolledBack,
    })
}

fn records_of(alloc: Global, lines: &[Line]) -> Result<Vec<Record>, Fail> {
    let mut records = Vec::new(alloc);
    let mut position: u64 = 0;
    for (tran, back, does) in lines.iter().copied() {
        position = position.saturating_add(1);
        records.push(Record {
            position: Position(position),
            tran: Tran(tran),
            back: Position(back),
            kind: kind_of(alloc, does)?,
        })?;
    }
    Ok(records)
}

// What is kept of these records, each of which follows from those before it.
fn chain_of(rt: &impl Abort, alloc: Global, records: &[Record]) -> Result<Chain, Fail> {
    assert!(rt; records.len() < 1000);
    let volume = MemVolume::new(alloc, 10, 2, 5, 1, 1, &[], None)?;
    let mut chain = Chain::new(alloc);
    for (at, entry) in records.iter().enumerate() {
        let (before, _) = records.split_at(at);
        assert!(rt; entry.is_spelled());
        assert!(rt; chain.follows(&volume, before, entry));
        chain.add(before, entry)?;
    }
    Ok(chain)
}

fn unended_text(rt: &impl Abort, alloc: Global, lines: &[Line]) -> Result<String, Fail> {
    let records = records_of(alloc, lines)?;
    let chain = chain_of(rt, alloc, records.as_slice())?;
    let mut text = String::new(alloc);
    for tran in &open_trans(alloc, &chain)? {
        let number = format!(in alloc; "({})", tran.0)?;
        text.push_str(&number)?;
        for entry in &changes_left(alloc, records.as_slice(), *tran)? {
            assert_eq!(rt; entry.tran, *tran);
            let position = format!(in alloc; " {}", entry.position.0)?;
            text.push_str(&position)?;
        }
    }
    Ok(text)
}

#[test]
fn lists_what_is_left(rt: HostRuntime) -> Result<(), Fail> {
    let cases: [Case; 7] = [
        (&[], ""),
        // two Changes, and an Undo
        (
            &[
                (1, 0, Does::Change),
                (1, 1, Does::Change),
                (1, 2, Does::Undo(1)),
            ],
            "(1) 1",
        ),
        // all undone, without an end
        (&[(1, 0, Does::Change), (1, 1, Does::Undo(0))], "(1)"),
        // committed
        (&[(1, 0, Does::Change), (1, 1, Does::Commit)], ""),
        // committed, beside an open one
        (
            &[
                (1, 0, Does::Change),
                (2, 0, Does::Change),
                (1, 1, Does::Commit),
            ],
            "(2) 2",
        ),
        // two open ones, interleaved
        (
            &[
                (1, 0, Does::Change),
                (2, 0, Does::Change),
                (1, 1, Does::Change),
                (2, 2, Does::Change),
                (1, 3, Does::Change),
                (1, 5, Does::Undo(3)),
            ],
            "(1) 3 1(2) 4 2",
        ),
        // rolled back, below an open one
        (
            &[
                (1, 0, Does::Change),
                (2, 0, Does::Change),
                (1, 1, Does::Undo(0)),
                (1, 3, Does::RolledBack),
            ],
            "(2) 2",
        ),
    ];
    for (lines, text) in cases.iter().copied() {
        let found = unended_text(&rt, rt.alloc(), lines)?;
        assert_eq!(rt; found.as_str(), text);
    }
    Ok(())
}
