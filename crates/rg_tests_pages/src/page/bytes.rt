// The bytes of a page, written and read.
use rg_base::copy::TableCopy;
use rg_base::part::{Part, SlotOp};
use rg_base::place::Place;
use rg_base::position::Position;
use rg_base::row::Row;
use rg_base::row_bytes::read_row;
use rg_base::tran::Tran;
use rg_page::bytes::fault::PageFault;
use rg_page::page::Page;
use std::alloc::Global;
use std::process::Abort;
use std::test::Fail;

type Bytes = [u8; 4096];

// The row of key 7, clus 5 and cat 3 with a text of three letters: 29 bytes.
fn row(alloc: Global) -> Result<Row, Fail> {
    let mut bytes = Vec::new(alloc);
    for number in [7_u64, 5, 3] {
        bytes.extend_from_slice(&number.to_be_bytes())?;
    }
    bytes.extend_from_slice(&[0, 3])?;
    bytes.extend_from_slice(b"abc")?;
    Ok(read_row(alloc, &bytes)?)
}

// Sets slot i of a page by the record with position 9 of transaction 258.
fn set(page: &mut Page, i: u16, op: SlotOp, row: Option<&Row>) -> bool {
    let part = Part {
        page: page.number(),
        slot: i,
        op,
    };
    page.apply(&part, Tran(258), row, Position(9)).is_ok()
}

// A page with a slot of each kind, of which slot 2 is Free.
fn full_page(rt: &impl Abort, alloc: Global) -> Result<Page, Fail> {
    let other = Place { page: 515, slot: 4 };
    let row = row(alloc)?;
    let mut page = Page::new(alloc, TableCopy::first(), 2)?;
    for (i, op) in [
        (0, SlotOp::Row { capacity: 31 }),
        (
            1,
            SlotOp::Pointer {
                capacity: 26,
                other,
            },
        ),
        (
            3,
            SlotOp::Over {
                capacity: 29,
                other,
            },
        ),
        (4, SlotOp::DeadRow { capacity: 2 }),
        (5, SlotOp::DeadPointer { capacity: 0, other }),
        (6, SlotOp::DeadOver { capacity: 1, other }),
    ] {
        assert!(rt; set(&mut page, i, op, Some(&row)), "slot {i}");
    }
    Ok(page)
}

fn written(page: &Page) -> Bytes {
    let mut bytes = [1; 4096];
    page.write_into(&mut bytes);
    bytes
}

// The bytes with this one at an offset.
fn with_byte(bytes: &Bytes, at: usize, byte: u8) -> Bytes {
    let mut other = *bytes;
    if at < 4096 {
        other[at] = byte;
    }
    other
}

#[test]
fn writes_each_kind(rt: HostRuntime) -> Result<(), Fail> {
    let page = full_page(&rt, rt.alloc())?;
    let bytes = written(&page);
    let parts: [(usize, &[u8]); 20] = [
        (0, b"RGP1"),
        (4, &[1, 0, 0, 7, 0, 0, 0, 2]),
        (12, &[0, 0, 0, 0, 0, 0, 0, 9, 0, 233]),
        (22, &[0; 10]),
        (32, &[1, 0, 0, 31, 0, 29, 0, 0, 0, 0, 0, 0, 0, 0, 0, 0]),
        (48, &[0, 0, 0, 0, 0, 0, 0, 7, 0, 0, 0, 0, 0, 0, 0, 5]),
        (64, &[0, 0, 0, 0, 0, 0, 0, 3, 0, 3]),
        (74, b"abc"),
        (77, &[0, 0]),
        (79, &[2, 0, 0, 26, 0, 0, 0, 0, 0, 0, 0, 0, 2, 3, 0, 4]),
        (95, &[0; 26]),
        (121, &[0; 16]),
        (137, &[3, 0, 0, 29, 0, 29, 0, 0, 0, 0, 0, 0, 2, 3, 0, 4]),
        (179, b"abc"),
        (182, &[4, 0, 0, 2, 0, 0, 0, 0, 1, 2, 0, 0, 0, 0, 0, 0, 0, 0]),
        (200, &[5, 0, 0, 0, 0, 0, 0, 0, 1, 2, 0, 0, 2, 3, 0, 4]),
        (216, &[6, 0, 0, 1, 0, 0, 0, 0, 1, 2, 0, 0, 2, 3, 0, 4, 0]),
        (233, &[0; 3000]),
        (4070, &[0; 12]),
        (
            4082,
            &[0, 216, 0, 200, 0, 182, 0, 137, 0, 121, 0, 79, 0, 32],
        ),
    ];
    for (at, want) in parts {
        let (_, rest) = bytes.split_at(at);
        let (got, _) = rest.split_at(want.len());
        assert_eq!(rt; got, want, "from byte {at}");
    }
    Ok(())
}

#[test]
fn refuses_other_bytes(rt: HostRuntime) -> Result<(), Fail> {
    let page = full_page(&rt, rt.alloc())?;
    let bytes = written(&page);
    for (at, byte) in [
        (0, 83),
        (3, 50),
        (4, 2),
        (5, 1),
        (7, 6),
        (7, 8),
        (11, 3),
        (21, 234),
        (31, 1),
        // A slot's kind, its zero, its capacity, and the length of its row.
        (32, 7),
        (32, 0),
        (33, 1),
        (35, 30),
        (37, 28),
        (37, 32),
        // An owner and a place of a row, and bytes of its area.
        (41, 1),
        (47, 1),
        (73, 4),
        (74, 32),
        (74, 127),
        (78, 1),
        // A length, an owner and an area of a pointer; a Free slot's capacity.
        (84, 1),
        (85, 1),
        (120, 1),
        (124, 1),
        // The place of a dead row, behind the slots, and the directory.
        (197, 1),
        (233, 1),
        (4081, 1),
        (4083, 215),
        (4095, 33),
    ] {
        let other = with_byte(&bytes, at, byte);
        let read = Page::read(rt.alloc(), TableCopy::first(), 2, &other);
        assert!(rt;
            matches!(read, Err(PageFault::NotAPage)),
            "byte {at} is {byte}"
        );
    }
    // The position alone may be another.
    let read = Page::read(
        rt.alloc(),
        TableCopy::first(),
        2,
        &with_byte(&bytes, 19, 10),
    );
    assert!(rt; read.is_ok());
    Ok(())
}

#[test]
fn refuses_a_free_slot_at_the_end(rt: HostRuntime) -> Result<(), Fail> {
    let mut bytes = [0; 4096];
    let page = Page::new(rt.alloc(), TableCopy::first(), 2)?;
    for (count, want) in [(0, true), (1, false)] {
        let (front, _) = bytes.split_at_mut(22);
        front.copy_from_slice(&[
            b'R',
            b'G',
            b'P',
            b'1',
            1,
            0,
            0,
            count,
            0,
            0,
            0,
            2,
            0,
            0,
            0,
            0,
            0,
            0,
            0,
            9,
            0,
            32 + 16 * count,
        ]);
        bytes[4095] = 32 * count;
        let read = Page::read(rt.alloc(), TableCopy::first(), 2, &bytes);
        assert_eq!(rt; read.is_ok(), want, "{count} slots");
    }
    assert_eq!(rt; page.slot_count(), 0);
    Ok(())
}
