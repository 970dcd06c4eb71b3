ghost use Rattle.std.specs.Prelude.{◌≡◌, length, IfOk, OnOk};

use rg_base::copy::TableCopy;
use rg_base::part::{Part, SlotOp};
use rg_base::place::Place;
use rg_base::position::Position;
use rg_base::row::Row;
use rg_base::text::Text;
use rg_base::tran::Tran;
use rg_btree::indexes::indexes::Indexes;
use rg_btree::tree::build;
use rg_layout::side::side;
use rg_page::frames::Frames;
use rg_page::list::ListFrames;
use rg_space::space::Space;
use rg_stmt::layout::{Listing, Spots};
use std::alloc::Global;
use std::process::Abort;
use std::test::Fail;

fn place(page: u32, slot: u16) -> Place
    ensures { result ≡ record { page = page; slot = slot } }
{
    Place { page, slot }
}

fn row(alloc: Global, key: u64, clus: u64) -> Row {
    Row {
        key,
        clus,
        cat: 5,
        text: Text::new(Vec::new(alloc)),
    }
}

// Sets slots of pages that are there, each with the row that it takes, if it takes one.
fn fill(
    rt: &impl Abort,
    frames: &mut ListFrames,
    slots: &[(Place, SlotOp, Option<Row>)],
) -> Result<(), Fail>
    ensures pages { OnOk result
        (length frames.new.pages.items ≡ length frames.old.pages.items) }
    ensures reserved { OnOk result
        (length frames.new.reserved.items ≡ length frames.old.reserved.items) }
{
    for (at, op, row) in slots {
        assert!(rt; 1 <= at.page && at.page <= frames.count());
        let part = Part {
            page: at.page,
            slot: at.slot,
            op: *op,
        };
        frames.set_page(&part, Tran(1), row.as_ref(), Position(1))?;
    }
    Ok(())
}

// Two pages without slots.
fn two_pages(alloc: Global) -> Result<ListFrames, Fail>
    ensures pages { IfOk result (λ frames. length frames.pages.items ≡ 2) }
    ensures reserved { IfOk result (λ frames. length frames.reserved.items ≡ 0) }
{
    let mut frames = ListFrames::new(alloc, TableCopy::first());
    frames.reserve_page()?;
    frames.reserve_page()?;
    frames.add_page();
    frames.add_page();
    Ok(frames)
}

fn spots_text(alloc: Global, spots: &Spots) -> Result<String, Fail> {
    let mut text = String::new(alloc);
    for spot in spots.as_slice() {
        let at = spot.place;
        let line = format!(in alloc; "{}.{} {} {}", at.page, at.slot, spot.key, spot.clus)?;
        text.push_str(line.as_str())?;
        match spot.over {
            None => text.push_str(" HOME\n")?,
            Some(over) => {
                let line = format!(in alloc; " OVER {}.{}\n", over.page, over.slot)?;
                text.push_str(line.as_str())?;
            }
        }
    }
    Ok(text)
}

fn listing_text(alloc: Global, listing: &Listing) -> Result<String, Fail> {
    let mut text = String::new(alloc);
    for (value, at) in listing.as_slice() {
        let entry = format!(in alloc; "{value} {}.{}\n", at.page, at.slot)?;
        text.push_str(entry.as_str())?;
    }
    Ok(text)
}

// What the slots hold: key 3 has moved to page 2, and a row of page 2 was dropped.
fn fill_two(rt: &impl Abort, alloc: Global, frames: &mut ListFrames) -> Result<(), Fail>
    ensures pages { OnOk result
        (length frames.new.pages.items ≡ length frames.old.pages.items) }
    ensures reserved { OnOk result
        (length frames.new.reserved.items ≡ length frames.old.reserved.items) }
{
    let area = SlotOp::Row { capacity: 30 };
    let pointer = SlotOp::Pointer {
        capacity: 30,
        other: place(2, 1),
    };
    let over = SlotOp::Over {
        capacity: 40,
        other: place(1, 1),
    };
    let slots = [
        (place(1, 0), area, Some(row(alloc, 7, 70))),
        (place(1, 1), pointer, None),
        (place(1, 3), area, Some(row(alloc, 9, 20))),
        (place(2, 0), SlotOp::DeadRow { capacity: 50 }, None),
        (place(2, 1), over, Some(row(alloc, 3, 30))),
        (place(2, 2), area, Some(row(alloc, 1, 80))),
    ];
    fill(rt, frames, &slots)
}

// What the indexes list.
fn indexes(alloc: Global) -> Result<Indexes, Fail> {
    let (p, q, r, s) = (place(1, 0), place(1, 1), place(1, 3), place(2, 2));
    Ok(Indexes {
        keys: build(alloc, &[(1, s), (3, q), (7, p), (9, r)])?,
        cluses: build(alloc, &[(20, r), (30, q), (70, p), (80, s)])?,
        cats: build(alloc, &[(5, p), (5, q), (5, r), (5, s)])?,
    })
}

#[test]
fn lays_out_two_pages(rt: HostRuntime) -> Result<(), Fail> {
    let alloc = rt.alloc();
    let mut frames = two_pages(alloc)?;
    fill_two(&rt, alloc, &mut frames)?;
    let mut space = match Space::new(alloc, frames, 2) {
        Ok(space) => space,
        Err((_, fault)) => return Err(fault.into()),
    };
    let got = side(alloc, &mut space, &indexes(alloc)?)?;
    assert_eq!(rt; got.pages, 2);
    let spots = spots_text(alloc, &got.spots)?;
    let want = "1.0 7 70 HOME\n1.1 3 30 OVER 2.1\n1.3 9 20 HOME\n2.2 1 80 HOME\n";
    assert_eq!(rt; spots.as_str(), want);
    for (listing, want) in [
        (&got.keys, "1 2.2\n3 1.1\n7 1.0\n9 1.3\n"),
        (&got.cluses, "20 1.3\n30 1.1\n70 1.0\n80 2.2\n"),
        (&got.cats, "5 1.0\n5 1.1\n5 1.3\n5 2.2\n"),
    ] {
        assert_eq!(rt; listing_text(alloc, listing)?.as_str(), want);
    }
    Ok(())
}

#[test]
fn lays_out_no_pages(rt: HostRuntime) -> Result<(), Fail> {
    let alloc = rt.alloc();
    let mut space = match Space::new(alloc, ListFrames::new(alloc, TableCopy::first()), 2) {
        Ok(space) => space,
        Err((_, fault)) => return Err(fault.into()),
    };
    let got = side(alloc, &mut space, &Indexes::new(alloc)?)?;
    assert_eq!(rt; got.pages, 0);
    assert!(rt; got.spots.as_slice().is_empty());
    assert!(rt; got.keys.as_slice().is_empty());
    Ok(())
}
