mod bytes;

use rg_base::copy::TableCopy;
use rg_base::part::{Part, SlotOp};
use rg_base::place::Place;
use rg_base::position::Position;
use rg_base::row::Row;
use rg_base::row_bytes::read_row;
use rg_base::tran::Tran;
use rg_page::page::{Page, PartFault};
use rg_page::slot::Slot;
use std::alloc::Global;
use std::process::Abort;
use std::test::Fail;

// A row of this key whose text is one letter, so many times.
fn row(alloc: Global, key: u64, text: u16) -> Result<Row, Fail> {
    let mut bytes = Vec::new(alloc);
    bytes.extend_from_slice(&key.to_be_bytes())?;
    bytes.extend_from_slice(&[0; 16])?;
    bytes.extend_from_slice(&text.to_be_bytes())?;
    let letter = b'a' + (key % 26) as u8;
    for _ in 0..text {
        bytes.push(letter)?;
    }
    Ok(read_row(alloc, &bytes)?)
}

// Sets a slot of a page, whatever its number.
fn set(
    page: &mut Page,
    slot: u16,
    op: SlotOp,
    row: Option<&Row>,
    position: u64,
) -> Result<(), PartFault> {
    let part = Part {
        page: page.number(),
        slot,
        op,
    };
    page.apply(&part, Tran(7), row, Position(position))
}

// A slot: its kind, its capacity, the bytes of its row in brackets, the place that it names, and its
// owner.
fn slot_text(alloc: Global, slot: Slot<'_>) -> Result<String, Fail> {
    let nowhere = Place { page: 0, slot: 0 };
    let (name, capacity, length, other, owner) = match slot {
        Slot::Free => ("Free", 0, 0, nowhere, 0),
        Slot::Row { capacity, bytes } => ("Row", capacity, bytes.len(), nowhere, 0),
        Slot::Pointer { capacity, other } => ("Pointer", capacity, 0, other, 0),
        Slot::Over {
            capacity,
            bytes,
            other,
        } => ("Over", capacity, bytes.len(), other, 0),
        Slot::DeadRow { capacity, owner } => ("DeadRow", capacity, 0, nowhere, owner.0),
        Slot::DeadPointer {
            capacity,
            other,
            owner,
        } => ("DeadPointer", capacity, 0, other, owner.0),
        Slot::DeadOver {
            capacity,
            other,
            owner,
        } => ("DeadOver", capacity, 0, other, owner.0),
    };
    let Place { page, slot } = other;
    Ok(format!(in alloc; "{name} {capacity} ({length}) {page}.{slot} {owner}")?)
}

// The slots of a page, in order.
fn picture(alloc: Global, page: &Page) -> Result<String, Fail> {
    let mut text = String::new(alloc);
    for i in 0..page.slot_count() {
        if i > 0 {
            text.push_str(", ")?;
        }
        text.push_str(slot_text(alloc, page.slot(i))?.as_str())?;
    }
    Ok(text)
}

// Sets slots, and shows what the page is then. An Over area gets the second row, others the first.
fn set_each(
    rt: &impl Abort,
    alloc: Global,
    page: &mut Page,
    rows: &[Row; 2],
    steps: &[(u16, SlotOp, &str)],
) -> Result<(), Fail> {
    let [first, second] = rows;
    for (i, (slot, op, want)) in steps.iter().enumerate() {
        let brought = match op {
            SlotOp::Over { .. } => second,
            _ => first,
        };
        let is_set = set(page, *slot, *op, Some(brought), i as u64).is_ok();
        assert!(rt; is_set && page.position().0 == i as u64, "step {i}");
        let got = picture(alloc, page)?;
        assert_eq!(rt; got.as_str(), *want, "step {i}");
    }
    Ok(())
}

#[test]
fn sets_slots(rt: HostRuntime) -> Result<(), Fail> {
    let rows = [row(rt.alloc(), 1, 3)?, row(rt.alloc(), 2, 14)?];
    let mut page = Page::new(rt.alloc(), TableCopy::first(), 9)?;
    let steps = [
        (5, SlotOp::Free, ""),
        (
            2,
            SlotOp::Row { capacity: 50 },
            "Free 0 (0) 0.0 0, Free 0 (0) 0.0 0, Row 50 (29) 0.0 0",
        ),
        (
            0,
            SlotOp::Pointer {
                capacity: 30,
                other: Place { page: 2, slot: 5 },
            },
            "Pointer 30 (0) 2.5 0, Free 0 (0) 0.0 0, Row 50 (29) 0.0 0",
        ),
        (
            1,
            SlotOp::Over {
                capacity: 40,
                other: Place { page: 3, slot: 1 },
            },
            "Pointer 30 (0) 2.5 0, Over 40 (40) 3.1 0, Row 50 (29) 0.0 0",
        ),
        (
            65535,
            SlotOp::Free,
            "Pointer 30 (0) 2.5 0, Over 40 (40) 3.1 0, Row 50 (29) 0.0 0",
        ),
        (
            1,
            SlotOp::DeadOver {
                capacity: 40,
                other: Place { page: 3, slot: 1 },
            },
            "Pointer 30 (0) 2.5 0, DeadOver 40 (0) 3.1 7, Row 50 (29) 0.0 0",
        ),
        (
            2,
            SlotOp::Free,
            "Pointer 30 (0) 2.5 0, DeadOver 40 (0) 3.1 7",
        ),
        (
            0,
            SlotOp::DeadPointer {
                capacity: 30,
                other: Place { page: 2, slot: 5 },
            },
            "DeadPointer 30 (0) 2.5 7, DeadOver 40 (0) 3.1 7",
        ),
        (
            1,
            SlotOp::Row { capacity: 41 },
            "DeadPointer 30 (0) 2.5 7, Row 41 (29) 0.0 0",
        ),
        (0, SlotOp::Free, "Free 0 (0) 0.0 0, Row 41 (29) 0.0 0"),
        (
            2,
            SlotOp::DeadRow { capacity: 0 },
            "Free 0 (0) 0.0 0, Row 41 (29) 0.0 0, DeadRow 0 (0) 0.0 7",
        ),
        (
            1,
            SlotOp::Free,
            "Free 0 (0) 0.0 0, Free 0 (0) 0.0 0, DeadRow 0 (0) 0.0 7",
        ),
        (2, SlotOp::Free, ""),
    ];
    set_each(&rt, rt.alloc(), &mut page, &rows, &steps)
}

// Each part is refused, and the page stays as it was.
fn refuse_each(
    rt: &impl Abort,
    alloc: Global,
    page: &mut Page,
    row: &Row,
    parts: &[(Part, bool)],
) -> Result<(), Fail> {
    for (part, brings) in parts {
        let after = if *brings { Some(row) } else { None };
        let is_refused = page.apply(part, Tran(7), after, Position(5)).is_err();
        assert!(rt; is_refused && page.position().0 == 1, "{part:?}");
        let got = picture(alloc, page)?;
        assert_eq!(rt; got.as_str(), "Row 29 (29) 0.0 0", "{part:?}");
    }
    Ok(())
}

fn part(page: u32, slot: u16, op: SlotOp) -> Part {
    Part { page, slot, op }
}

#[test]
fn refuses_parts(rt: HostRuntime) -> Result<(), Fail> {
    let row = row(rt.alloc(), 1, 3)?;
    let mut page = Page::new(rt.alloc(), TableCopy::second(), 9)?;
    let is_set = set(&mut page, 0, SlotOp::Row { capacity: 29 }, Some(&row), 1).is_ok();
    assert!(rt; is_set);
    let other = Place { page: 1, slot: 1 };
    let short = SlotOp::Over {
        capacity: 28,
        other,
    };
    let over = SlotOp::Over {
        capacity: 29,
        other,
    };
    let parts = [
        (part(8, 1, SlotOp::Free), true),
        (part(8, 1, SlotOp::Row { capacity: 29 }), true),
        (part(10, 1, SlotOp::DeadRow { capacity: 29 }), true),
        (part(9, 1, SlotOp::Row { capacity: 28 }), true),
        (part(9, 0, SlotOp::Row { capacity: 28 }), true),
        (part(9, 1, short), true),
        (part(9, 1, SlotOp::Row { capacity: 29 }), false),
        (part(9, 1, over), false),
        (part(9, 1, SlotOp::Row { capacity: 4000 }), true),
        (part(9, 65535, SlotOp::DeadRow { capacity: 0 }), true),
    ];
    refuse_each(&rt, rt.alloc(), &mut page, &row, &parts)
}

// Makes dead areas of capacities in slots, each refused or not, and with so many bytes free after it.
fn fill_each(rt: &impl Abort, page: &mut Page, steps: &[(u16, u16, bool, u16)]) {
    for (slot, capacity, fits, free) in steps {
        let is_set = set(
            page,
            *slot,
            SlotOp::DeadRow {
                capacity: *capacity,
            },
            None,
            2,
        )
        .is_ok();
        assert!(rt;
            is_set == *fits && page.free() == *free,
            "slot {slot} of {capacity}"
        );
    }
}

#[test]
fn fills_to_the_byte(rt: HostRuntime) -> Result<(), Fail> {
    let mut page = Page::new(rt.alloc(), TableCopy::first(), 1)?;
    let steps = [
        (0, 826, true, 3220),
        (1, 826, true, 2376),
        (2, 826, true, 1532),
        (3, 826, true, 688),
        (4, 671, false, 688),
        (5, 653, false, 688),
        (4, 670, true, 0),
        (4, 671, false, 0),
        (5, 0, false, 0),
    ];
    fill_each(&rt, &mut page, &steps);
    Ok(())
}

#[test]
fn has_225_slots(rt: HostRuntime) -> Result<(), Fail> {
    let mut page = Page::new(rt.alloc(), TableCopy::first(), 1)?;
    let steps = [
        (225, 0, false, 4064),
        (224, 15, false, 4064),
        (224, 0, true, 14),
        (225, 0, false, 14),
        (0, 15, false, 14),
        (0, 14, true, 0),
        (223, 1, false, 0),
        (223, 0, true, 0),
    ];
    fill_each(&rt, &mut page, &steps);
    Ok(())
}
