ghost use Rattle.std.specs.Prelude.{◌≤◌};

use rg_base::part::{Part, SlotOp};
use rg_base::place::Place;
use rg_base::tran::Tran;
use rg_page::header::Header;
use rg_page::summary::Summary;
use rg_space::moves::{Moves, PartsRoom};
use rg_space::summaries::Summaries;
use std::alloc::Global;
use std::process::Abort;
use std::test::Fail;

const HOME: Place = Place { page: 1, slot: 0 };

fn row(capacity: u16) -> SlotOp {
    SlotOp::Row { capacity }
}

fn dead(capacity: u16) -> SlotOp {
    SlotOp::DeadRow { capacity }
}

fn over(capacity: u16) -> SlotOp {
    SlotOp::Over {
        capacity,
        other: HOME,
    }
}

fn place(page: u32, slot: u16) -> Place {
    Place { page, slot }
}

// The summary of a page of these slots, each with the owner of a dead one.
fn summary(rt: &impl Abort, alloc: Global, slots: &[(SlotOp, u32)]) -> Result<Summary, Fail> {
    let mut summary = Summary::new(alloc)?;
    let mut at = 0;
    for (op, owner) in slots {
        let header = Header::of(*op, Tran(*owner));
        assert!(rt; summary.fits(at, &header));
        summary.set(at, header);
        at = at.saturating_add(1);
    }
    Ok(summary)
}

fn summaries(
    rt: &impl Abort,
    alloc: Global,
    pages: &[&[(SlotOp, u32)]],
) -> Result<Summaries, Fail> {
    let mut summaries = Summaries::new(alloc);
    for slots in pages {
        assert!(rt; summaries.len() < 5 && summaries.room() == 0);
        summaries.push(alloc, summary(rt, alloc, slots)?)?;
    }
    Ok(summaries)
}

fn op_text(alloc: Global, op: SlotOp) -> Result<String, Fail> {
    let (name, capacity, joined) = match op {
        SlotOp::Free => return Ok(format!(in alloc; "Free")?),
        SlotOp::Row { capacity } => ("Row", capacity, None),
        SlotOp::Pointer { capacity, other } => ("Pointer", capacity, Some(("to", other))),
        SlotOp::Over { capacity, other } => ("Over", capacity, Some(("of", other))),
        SlotOp::DeadRow { capacity } => ("DeadRow", capacity, None),
        SlotOp::DeadPointer { capacity, other } => ("DeadPointer", capacity, Some(("to", other))),
        SlotOp::DeadOver { capacity, other } => ("DeadOver", capacity, Some(("of", other))),
    };
    Ok(match joined {
        None => format!(in alloc; "{name} {capacity}")?,
        Some((word, Place { page, slot })) => {
            format!(in alloc; "{name} {capacity} {word} {page}.{slot}")?
        }
    })
}

// Parts, each with its place.
fn parts_text(alloc: Global, parts: &[Part]) -> Result<String, Fail> {
    let mut text = String::new(alloc);
    for part in parts {
        if !text.is_empty() {
            text.push_str(", ")?;
        }
        let op = op_text(alloc, part.op)?;
        text.push_str(format!(in alloc; "{}.{} {op}", part.page, part.slot)?.as_str())?;
    }
    Ok(text)
}

// What is purged, then what is written.
fn moves_text(alloc: Global, moves: &Moves) -> Result<String, Fail> {
    let purge = parts_text(alloc, moves.purge.as_slice())?;
    let parts = parts_text(alloc, moves.parts.as_slice())?;
    if purge.is_empty() {
        return Ok(parts);
    }
    Ok(format!(in alloc; "{purge}; {parts}")?)
}

fn change_text(
    alloc: Global,
    summaries: &Summaries,
    live: &[Tran],
    other: Option<Place>,
    b: u16,
    capacity: u32,
) -> Result<String, Fail>
    requires some { 1 ≤ b }
    requires size { b ≤ 826 }
{
    match summaries.change(alloc, live, HOME, other, b, capacity)? {
        None => Ok(format!(in alloc; "full")?),
        Some(moves) => moves_text(alloc, &moves),
    }
}

// Pages 1 and 2 have 122 and 4 bytes free, and no dead areas. Slot 0 of page 2 is an Over area.
fn two_pages(rt: &impl Abort, alloc: Global) -> Result<Summaries, Fail> {
    let long = (row(826), 0);
    summaries(
        rt,
        alloc,
        &[
            &[(row(30), 0), long, long, long, long, (row(500), 0)],
            &[(over(200), 0), long, long, long, long, (row(448), 0)],
        ],
    )
}

// Page 1 has 204 bytes free, a dead area of 100 bytes by 7, and one of 300 bytes by 8 at its end.
fn dead_page(rt: &impl Abort, alloc: Global) -> Result<Summaries, Fail> {
    let long = (row(826), 0);
    summaries(
        rt,
        alloc,
        &[&[
            (row(30), 0),
            (dead(100), 7),
            long,
            long,
            long,
            long,
            (dead(300), 8),
        ]],
    )
}

#[test]
fn changes_rows(rt: HostRuntime) -> Result<(), Fail> {
    let summaries = two_pages(&rt, rt.alloc())?;
    let over = Some(place(2, 0));
    for (other, b, capacity, want) in [
        (None, 26, 2, "1.0 Row 30"),
        (None, 30, 2, "1.0 Row 30"),
        (None, 152, 2, "1.0 Row 152"),
        (over, 30, 2, "1.0 Row 30, 2.0 DeadOver 200 of 1.0"),
        (over, 152, 2, "1.0 Row 152, 2.0 DeadOver 200 of 1.0"),
        (over, 153, 2, "2.0 Over 200 of 1.0"),
        (over, 200, 2, "2.0 Over 200 of 1.0"),
        (over, 204, 2, "2.0 Over 204 of 1.0"),
        (over, 205, 2, "full"),
        (
            over,
            205,
            3,
            "1.0 Pointer 30 to 3.0, 3.0 Over 205 of 1.0, 2.0 DeadOver 200 of 1.0",
        ),
        (None, 153, 2, "full"),
        (None, 153, 3, "1.0 Pointer 30 to 3.0, 3.0 Over 153 of 1.0"),
        (None, 826, 3, "1.0 Pointer 30 to 3.0, 3.0 Over 826 of 1.0"),
    ] {
        assert!(rt; 1 <= b && b <= 826);
        let got = change_text(rt.alloc(), &summaries, &[], other, b, capacity)?;
        assert_eq!(rt; got.as_str(), want, "{b} bytes");
    }
    Ok(())
}

#[test]
fn purges_for_a_change(rt: HostRuntime) -> Result<(), Fail> {
    let summaries = dead_page(&rt, rt.alloc())?;
    for (live, b, want) in [
        ([Tran(1), Tran(2)], 234, "1.0 Row 234"),
        ([Tran(1), Tran(2)], 235, "1.1 Free, 1.6 Free; 1.0 Row 235"),
        ([Tran(1), Tran(2)], 652, "1.1 Free, 1.6 Free; 1.0 Row 652"),
        (
            [Tran(1), Tran(2)],
            653,
            "1.0 Pointer 30 to 2.0, 2.0 Over 653 of 1.0",
        ),
        ([Tran(1), Tran(8)], 334, "1.1 Free; 1.0 Row 334"),
        (
            [Tran(1), Tran(8)],
            335,
            "1.0 Pointer 30 to 2.0, 2.0 Over 335 of 1.0",
        ),
        ([Tran(7), Tran(1)], 552, "1.6 Free; 1.0 Row 552"),
        ([Tran(7), Tran(8)], 234, "1.0 Row 234"),
        (
            [Tran(7), Tran(8)],
            235,
            "1.0 Pointer 30 to 2.0, 2.0 Over 235 of 1.0",
        ),
    ] {
        assert!(rt; 1 <= b && b <= 826);
        let got = change_text(rt.alloc(), &summaries, &live, None, b, 2)?;
        assert_eq!(rt; got.as_str(), want, "{b} bytes, live {live:?}");
    }
    Ok(())
}

#[test]
fn puts_rows(rt: HostRuntime) -> Result<(), Fail> {
    let summaries = dead_page(&rt, rt.alloc())?;
    for (live, b, capacity, want) in [
        ([Tran(1), Tran(2)], 186, 1, "1.7 Row 186"),
        (
            [Tran(1), Tran(2)],
            187,
            1,
            "1.1 Free, 1.6 Free; 1.1 Row 187",
        ),
        (
            [Tran(1), Tran(2)],
            622,
            1,
            "1.1 Free, 1.6 Free; 1.1 Row 622",
        ),
        ([Tran(1), Tran(2)], 623, 1, "full"),
        ([Tran(1), Tran(2)], 623, 2, "2.0 Row 623"),
        ([Tran(7), Tran(2)], 187, 1, "1.6 Free; 1.6 Row 187"),
        ([Tran(7), Tran(2)], 504, 1, "1.6 Free; 1.6 Row 504"),
        ([Tran(7), Tran(2)], 505, 1, "full"),
        ([Tran(8), Tran(2)], 304, 1, "1.1 Free; 1.1 Row 304"),
        ([Tran(8), Tran(2)], 305, 2, "2.0 Row 305"),
        ([Tran(8), Tran(7)], 186, 0, "full"),
        ([Tran(8), Tran(7)], 187, 2, "2.0 Row 187"),
    ] {
        assert!(rt; 1 <= b && b <= 826);
        let got = match summaries.put(rt.alloc(), &live, b, capacity)? {
            None => format!(in rt.alloc(); "full")?,
            Some((home, moves)) => {
                let last = moves.parts.as_slice().last().copied().ok_or("no part")?;
                assert_eq!(rt;
                    home,
                    place(last.page, last.slot),
                    "{b} bytes, live {live:?}"
                );
                moves_text(rt.alloc(), &moves)?
            }
        };
        assert_eq!(rt; got.as_str(), want, "{b} bytes, live {live:?}");
    }
    Ok(())
}

#[test]
fn drops_rows(rt: HostRuntime) -> Result<(), Fail> {
    let summaries = two_pages(&rt, rt.alloc())?;
    let over = place(2, 0);
    for (home, other, want) in [
        (HOME, None, "1.0 DeadRow 30"),
        (
            HOME,
            Some(over),
            "1.0 DeadPointer 30 to 2.0, 2.0 DeadOver 200 of 1.0",
        ),
        (place(2, 5), None, "2.5 DeadRow 448"),
        (
            place(2, 5),
            Some(HOME),
            "2.5 DeadPointer 448 to 1.0, 1.0 DeadOver 30 of 2.5",
        ),
    ] {
        let parts = summaries.drop_row(PartsRoom::new(rt.alloc())?, home, other);
        let got = parts_text(rt.alloc(), parts.as_slice())?;
        assert_eq!(rt; got.as_str(), want);
        // The undoing of an insert does the same.
        let undone = summaries.undo(PartsRoom::new(rt.alloc())?, home, None, None, other);
        let got = parts_text(rt.alloc(), undone.as_slice())?;
        assert_eq!(rt; got.as_str(), want);
    }
    Ok(())
}

#[test]
fn undoes_changes(rt: HostRuntime) -> Result<(), Fail> {
    let summaries = two_pages(&rt, rt.alloc())?;
    let (first, second) = (Some(place(2, 0)), Some(place(2, 5)));
    for (before, over, other, want) in [
        (26, None, None, "1.0 Row 30"),
        (30, None, None, "1.0 Row 30"),
        (30, first, None, "1.0 Row 30"),
        (30, None, first, "1.0 Row 30, 2.0 DeadOver 200 of 1.0"),
        (30, second, first, "1.0 Row 30, 2.0 DeadOver 200 of 1.0"),
        (31, first, first, "2.0 Over 200 of 1.0"),
        (
            31,
            first,
            None,
            "1.0 Pointer 30 to 2.0, 2.0 Over 200 of 1.0",
        ),
        (
            31,
            first,
            second,
            "1.0 Pointer 30 to 2.0, 2.0 Over 200 of 1.0, 2.5 DeadOver 448 of 1.0",
        ),
        (
            31,
            second,
            first,
            "1.0 Pointer 30 to 2.5, 2.5 Over 448 of 1.0, 2.0 DeadOver 200 of 1.0",
        ),
        (31, None, None, ""),
    ] {
        let parts = summaries.undo(PartsRoom::new(rt.alloc())?, HOME, Some(before), over, other);
        let got = parts_text(rt.alloc(), parts.as_slice())?;
        assert_eq!(rt; got.as_str(), want, "{before} bytes");
    }
    Ok(())
}
