ghost use Rattle.std.specs.Prelude.{◌≡◌, true, length, IfOk, OnOk};
ghost use Rattle.rg_undo.specs.Undoing.{AreChanges, is_change};

use rg_base::copy::TableCopy;
use rg_base::part::{Part, Parts, SlotOp};
use rg_base::place::Place;
use rg_base::position::Position;
use rg_base::row::Row;
use rg_base::row_bytes::read_row;
use rg_base::text::Text;
use rg_base::tran::Tran;
use rg_check::page_tests::needed::breach_of;
use rg_check::page_tests::turns::{Outcome, undo_tested};
use rg_check::page_tests::untied::untied;
use rg_page::frames::Frames;
use rg_page::list::ListFrames;
use rg_record::record::{Kind, Record};
use rg_space::space::Space;
use std::alloc::Global;
use std::process::Abort;
use std::test::Fail;

// A slot that is set: its place, what lies there, its owner if it is dead, and the key and `cat` of
// its row if it has one.
type Put = (Place, SlotOp, u32, Option<(u64, u64)>);

fn at(page: u32, slot: u16) -> Place {
    Place { page, slot }
}

fn row(alloc: Global, key: u64, cat: u64) -> Row {
    Row {
        key,
        clus: 1,
        cat,
        text: Text::new(Vec::new(alloc)),
    }
}

fn home(page: u32, slot: u16, key: u64) -> Put {
    (
        at(page, slot),
        SlotOp::Row { capacity: 30 },
        0,
        Some((key, 5)),
    )
}

fn pointer(page: u32, slot: u16, other: Place) -> Put {
    let op = SlotOp::Pointer {
        capacity: 20,
        other,
    };
    (at(page, slot), op, 0, None)
}

fn over(page: u32, slot: u16, other: Place, key: u64) -> Put {
    let op = SlotOp::Over {
        capacity: 40,
        other,
    };
    (at(page, slot), op, 0, Some((key, 5)))
}

fn dead_row(page: u32, slot: u16, owner: u32) -> Put {
    (
        at(page, slot),
        SlotOp::DeadRow { capacity: 30 },
        owner,
        None,
    )
}

fn dead_pointer(page: u32, slot: u16, other: Place, owner: u32) -> Put {
    let op = SlotOp::DeadPointer {
        capacity: 20,
        other,
    };
    (at(page, slot), op, owner, None)
}

fn dead_over(page: u32, slot: u16, other: Place, owner: u32) -> Put {
    let op = SlotOp::DeadOver {
        capacity: 40,
        other,
    };
    (at(page, slot), op, owner, None)
}

// Three pages without slots.
fn three_pages(alloc: Global) -> Result<ListFrames, Fail>
    ensures pages { IfOk result (λ frames. length frames.pages.items ≡ 3) }
    ensures reserved { IfOk result (λ frames. length frames.reserved.items ≡ 0) }
{
    let mut frames = ListFrames::new(alloc, TableCopy::first());
    frames.reserve_page()?;
    frames.reserve_page()?;
    frames.reserve_page()?;
    frames.add_page();
    frames.add_page();
    frames.add_page();
    Ok(frames)
}

// Sets slots of pages that are there.
fn fill(rt: &impl Abort, alloc: Global, frames: &mut ListFrames, puts: &[Put]) -> Result<(), Fail>
    ensures pages { OnOk result
        (length frames.new.pages.items ≡ length frames.old.pages.items) }
    ensures reserved { OnOk result
        (length frames.new.reserved.items ≡ length frames.old.reserved.items) }
{
    for (place, op, owner, keys) in puts {
        assert!(rt; 1 <= place.page && place.page <= frames.count());
        let part = Part {
            page: place.page,
            slot: place.slot,
            op: *op,
        };
        let after = match keys {
            None => None,
            Some((key, cat)) => Some(row(alloc, *key, *cat)),
        };
        frames.set_page(&part, Tran(*owner), after.as_ref(), Position(9))?;
    }
    Ok(())
}

// The place that `untied` names on three pages with these slots.
fn untied_of(
    rt: &impl Abort,
    alloc: Global,
    puts: &[Put],
    live: &[Tran],
) -> Result<Option<Place>, Fail> {
    let mut frames = three_pages(alloc)?;
    fill(rt, alloc, &mut frames, puts)?;
    let mut space = match Space::new(alloc, frames, 3) {
        Ok(space) => space,
        Err((_, fault)) => return Err(fault.into()),
    };
    Ok(untied(&mut space, live)?)
}

// A row of so many bytes, 26 at least.
fn row_of_size(alloc: Global, size: Option<u16>) -> Result<Option<Row>, Fail> {
    let Some(size) = size else {
        return Ok(None);
    };
    let letters = size.saturating_sub(26);
    let mut bytes = Vec::new(alloc);
    bytes.extend_from_slice(&[0; 24])?;
    bytes.extend_from_slice(&letters.to_be_bytes())?;
    for _ in 0..letters {
        bytes.push(b'x')?;
    }
    Ok(Some(read_row(alloc, &bytes)?))
}

// The place that breaks what the undo of a Change needs, on three pages with these slots. The row
// before, if there was one, has so many bytes.
fn breach(
    rt: &impl Abort,
    alloc: Global,
    puts: &[Put],
    before: Option<u16>,
    parts: &[Part],
) -> Result<Option<Place>, Fail> {
    let mut frames = three_pages(alloc)?;
    fill(rt, alloc, &mut frames, puts)?;
    let mut space = match Space::new(alloc, frames, 3) {
        Ok(space) => space,
        Err((_, fault)) => return Err(fault.into()),
    };
    let entry = Record {
        position: Position(1),
        tran: Tran(5),
        back: Position(0),
        kind: Kind::Change {
            home: at(1, 1),
            before: row_of_size(alloc, before)?,
            after: None,
            parts: Parts::new(parts.to_vec(alloc)?),
        },
    };
    Ok(breach_of(&mut space, &entry)?)
}

// A Change of the home in this slot of page 1, at home, where the row before had this key.
fn change_at(alloc: Global, slot: u16, key: Option<u64>) -> Result<Record, Fail>
    ensures { IfOk result (λ entry. is_change entry.kind ≡ true) }
{
    let part = Part {
        page: 1,
        slot,
        op: SlotOp::Row { capacity: 30 },
    };
    let before = match key {
        None => None,
        Some(key) => Some(row(alloc, key, 5)),
    };
    Ok(Record {
        position: Position(1),
        tran: Tran(5),
        back: Position(0),
        kind: Kind::Change {
            home: at(1, slot),
            before,
            after: None,
            parts: Parts::new([part].to_vec(alloc)?),
        },
    })
}

fn changes_of(alloc: Global, changes: &[(u16, Option<u64>)]) -> Result<Vec<Record>, Fail>
    ensures { IfOk result (λ entries. AreChanges entries.items) }
{
    let mut entries = Vec::new(alloc);
    for (slot, key) in changes {
        let entry = change_at(alloc, *slot, *key)?;
        entries.push(entry)?;
    }
    Ok(entries)
}

// The position and the back of an undo, its home, and the key of its row.
fn undo_text(alloc: Global, undo: &Record) -> Result<String, Fail> {
    let text = match &undo.kind {
        Kind::Undo {
            home,
            after: Some(row),
            ..
        } => format!(in alloc; "{}.{} {}", home.page, home.slot, row.key)?,
        Kind::Undo { home, .. } => format!(in alloc; "{}.{} none", home.page, home.slot)?,
        _ => format!(in alloc; "no undo")?,
    };
    Ok(format!(in alloc; "{} {}, {text}\n", undo.position.0, undo.back.0)?)
}

fn outcome_text(alloc: Global, outcome: &Outcome) -> Result<String, Fail> {
    let mut text = String::new(alloc);
    match outcome {
        Outcome::Breach { place } => {
            let line = format!(in alloc; "breach {}.{}", place.page, place.slot)?;
            text.push_str(line.as_str())?;
        }
        Outcome::Undone { undos } => {
            for undo in undos {
                text.push_str(undo_text(alloc, undo)?.as_str())?;
            }
        }
    }
    Ok(text)
}

// What the turns of these Changes do, the latest first, on three pages with these slots.
fn turns_text(
    rt: &impl Abort,
    alloc: Global,
    puts: &[Put],
    changes: &[(u16, Option<u64>)],
) -> Result<String, Fail> {
    let mut frames = three_pages(alloc)?;
    fill(rt, alloc, &mut frames, puts)?;
    let mut space = match Space::new(alloc, frames, 3) {
        Ok(space) => space,
        Err((_, fault)) => return Err(fault.into()),
    };
    let entries = changes_of(alloc, changes)?;
    assert!(rt; entries.len() <= 10);
    let outcome = undo_tested(alloc, &mut space, entries, Position(9), Position(8))?;
    outcome_text(alloc, &outcome)
}

// Slots, the transactions that are open, and the place that `untied` names.
type Untied<'a> = (&'a [Put], &'a [Tran], Option<Place>);

fn each_untied(rt: &impl Abort, alloc: Global, cases: &[Untied<'_>]) -> Result<(), Fail> {
    for (i, (puts, live, want)) in cases.iter().enumerate() {
        assert_eq!(rt; untied_of(rt, alloc, puts, live)?, *want, "case {i}");
    }
    Ok(())
}

#[test]
fn what_a_slot_names_names_it(rt: HostRuntime) -> Result<(), Fail> {
    let live = [Tran(4), Tran(5)];
    let whole = [
        home(1, 0, 7),
        pointer(1, 1, at(2, 0)),
        over(2, 0, at(1, 1), 3),
        dead_row(1, 2, 5),
        dead_pointer(1, 3, at(2, 1), 5),
        dead_over(2, 1, at(1, 3), 6),
        dead_pointer(1, 4, at(9, 9), 6),
        dead_over(2, 2, at(9, 9), 5),
        dead_pointer(3, 0, at(3, 1), 4),
        over(3, 1, at(3, 0), 8),
        pointer(3, 2, at(3, 1)),
    ];
    // The Over area at 3.1 is named by the Pointer at 3.2, but names the dead home at 3.0.
    let cases: [Untied<'_>; 3] = [
        (&whole[..9], &live, Some(at(3, 0))),
        (&whole[..8], &live, None),
        (&whole, &live, Some(at(3, 1))),
    ];
    each_untied(&rt, rt.alloc(), &cases)
}

#[test]
fn pointers_and_over_areas_name_each_other(rt: HostRuntime) -> Result<(), Fail> {
    let cases: [Untied<'_>; 7] = [
        // A Pointer to a Free slot, past the last page, to another's area, and to a row.
        (&[pointer(1, 1, at(2, 0))], &[], Some(at(1, 1))),
        (&[pointer(2, 1, at(4, 0))], &[], Some(at(2, 1))),
        (
            &[pointer(1, 1, at(2, 0)), over(2, 0, at(1, 2), 3)],
            &[],
            Some(at(1, 1)),
        ),
        (
            &[home(1, 0, 7), pointer(1, 1, at(1, 0))],
            &[],
            Some(at(1, 1)),
        ),
        // An Over area that names a row, and one that names another's Pointer. The least is named.
        (
            &[home(1, 0, 7), over(2, 0, at(1, 0), 3)],
            &[],
            Some(at(2, 0)),
        ),
        (
            &[
                pointer(1, 1, at(2, 1)),
                over(2, 0, at(1, 1), 3),
                over(2, 1, at(1, 1), 3),
                over(2, 3, at(1, 1), 3),
            ],
            &[],
            Some(at(2, 0)),
        ),
        // The last slot of the last page.
        (
            &[home(1, 0, 7), home(3, 0, 8), over(3, 2, at(1, 0), 3)],
            &[],
            Some(at(3, 2)),
        ),
    ];
    each_untied(&rt, rt.alloc(), &cases)
}

#[test]
fn dead_homes_of_open_transactions_are_tested(rt: HostRuntime) -> Result<(), Fail> {
    let cases: [Untied<'_>; 4] = [
        (
            &[dead_pointer(1, 1, at(2, 0), 5)],
            &[Tran(4), Tran(5)],
            Some(at(1, 1)),
        ),
        (
            &[dead_pointer(1, 1, at(2, 0), 5)],
            &[Tran(4), Tran(6)],
            None,
        ),
        (
            &[
                dead_pointer(1, 1, at(2, 0), 5),
                dead_over(2, 0, at(1, 2), 5),
            ],
            &[Tran(5)],
            Some(at(1, 1)),
        ),
        (
            &[
                dead_pointer(1, 1, at(2, 0), 5),
                dead_over(2, 0, at(1, 1), 9),
            ],
            &[Tran(5)],
            None,
        ),
    ];
    each_untied(&rt, rt.alloc(), &cases)
}

// Slots, the bytes of the row before, the parts of the Change, and the place that breaks what its
// undo needs.
type Needed<'a> = (&'a [Put], Option<u16>, &'a [Part], Option<Place>);

fn each_breach(rt: &impl Abort, alloc: Global, cases: &[Needed<'_>]) -> Result<(), Fail> {
    for (i, (puts, before, parts, want)) in cases.iter().enumerate() {
        assert_eq!(rt; breach(rt, alloc, puts, *before, parts)?, *want, "case {i}");
    }
    Ok(())
}

#[test]
fn what_the_undo_of_a_change_needs(rt: HostRuntime) -> Result<(), Fail> {
    let parts = [
        Part {
            page: 1,
            slot: 1,
            op: SlotOp::Row { capacity: 20 },
        },
        Part {
            page: 2,
            slot: 0,
            op: SlotOp::DeadOver {
                capacity: 40,
                other: at(1, 1),
            },
        },
    ];
    let area = Some(at(2, 0));
    let both = [dead_row(1, 1, 5), dead_over(2, 0, at(1, 1), 5)];
    let strange = [dead_row(1, 1, 5), dead_over(2, 0, at(1, 2), 5)];
    let cases: [Needed<'_>; 9] = [
        // The row before fits the home, which may be dead.
        (&both[..1], Some(30), &[], None),
        (&both[..1], Some(31), &[], Some(at(1, 1))),
        (&[], Some(26), &[], Some(at(1, 1))),
        // Or it fits the Over area that it had, which may be dead and has to name the home.
        (&both, Some(40), &parts, None),
        (&both, Some(41), &parts, area),
        (
            &[pointer(1, 1, at(2, 0)), over(2, 0, at(1, 1), 5)],
            Some(40),
            &parts,
            None,
        ),
        (&strange, Some(40), &parts, area),
        (&strange[1..], Some(40), &parts, Some(at(1, 1))),
        (&strange[..1], Some(40), &parts, area),
    ];
    each_breach(&rt, rt.alloc(), &cases)
}

// Slots, Changes at their homes, and what the turns of the Changes come to.
type Turns<'a> = (&'a [Put], &'a [(u16, Option<u64>)], &'a str);

fn each_turns(rt: &impl Abort, alloc: Global, cases: &[Turns<'_>]) -> Result<(), Fail> {
    for (i, (puts, changes, want)) in cases.iter().enumerate() {
        let got = turns_text(rt, alloc, puts, changes)?;
        assert_eq!(rt; got.as_str(), *want, "case {i}");
    }
    Ok(())
}

#[test]
fn each_change_is_tested_at_its_turn(rt: HostRuntime) -> Result<(), Fail> {
    let there = [home(1, 1, 7)];
    let dead = [dead_row(1, 1, 5)];
    let undone = "9 8, 1.1 3\n10 9, 1.1 none\n";
    let cases: [Turns<'_>; 6] = [
        (&there, &[(1, Some(3)), (1, None)], undone),
        // The row of an insert is there once the later drop is undone, and not before.
        (&dead, &[(1, Some(3)), (1, None)], undone),
        (&dead, &[(1, None), (1, Some(3))], "breach 1.1"),
        (&there, &[(1, None), (1, None)], "breach 1.1"),
        (
            &there,
            &[(1, Some(3)), (2, Some(4)), (3, None)],
            "breach 1.2",
        ),
        (&there, &[], ""),
    ];
    each_turns(&rt, rt.alloc(), &cases)
}
