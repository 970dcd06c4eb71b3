// The undo of a unit, all at once, over frames that give no page up.
//
// 1. The memory for the records, and for what they make of rows, is taken before the first Change
//    is undone.
// 2. Afterwards each home that the unit has written has the row that it had before, and no other
//    row has changed.
ghost use Rattle.std.specs.Prelude.{◌≡◌, ◌≤◌, ◌<◌, ◌+◌, ◌^◌, ◌++◌, ◌∷◌, [], true, length, IfOk};
ghost use Rattle.std.specs.Prelude.{IfErr, OnOk, vec_len, vec_capacity};
ghost use Rattle.rg_page.specs.Content.{slots_of};
ghost use Rattle.rg_page.specs.Seen.{Keeps};
ghost use Rattle.rg_space.specs.Space.{InStep, frames_of, summaries_of, capacity_in, undos_in};
ghost use Rattle.rg_space.specs.Took.{HasRisen, IsRisen};
ghost use Rattle.rg_undo.specs.Undoing.{AreChanges, undo_record, CanUndoChange, UndidChange};
ghost use Rattle.rg_undo.specs.Undoing.{IfFirst, later_of};
ghost use Rattle.rg_undo.specs.Unit.{undo_records, change_back, changes_back, CanUndoUnit};
ghost use Rattle.rg_undo.specs.Unit.{UndidUnit};

use crate::work::UndoWork;
use rg_base::change::Change;
use rg_base::no_memory::NoMemory;
use rg_base::place::Place;
use rg_base::position::Position;
use rg_base::row::copy_row;
use rg_page::areas::push_within;
use rg_page::frames::Frames;
use rg_record::record::{Kind, Record};
use rg_space::fault::SpaceFault;
use rg_space::space::Space;
use std::alloc::Global;

const NOWHERE: Place = Place { page: 0, slot: 0 };

/// What the undo of a unit has made: its records, and what each makes of a row, both in the order
/// of the undo.
#[derive(Debug, Drop)]
pub struct UnitUndo {
    pub records: Vec<Record>,
    pub changes: Vec<Change>,
}

// What the undo of a Change, at this position, makes of its row.
fn change_back(alloc: Global, entry: &Record, position: Position) -> Result<Change, NoMemory>
    ensures { IfOk result (λ change. change ≡ change_back position.0 entry.now) }
{
    match &entry.kind {
        Kind::Change { home, before, .. } => Ok(Change {
            position,
            home: *home,
            after: copy_row(alloc, before.as_ref())?,
        }),
        _ => Ok(Change {
            position,
            home: NOWHERE,
            after: None,
        }),
    }
}

/// What the undo of these Changes makes of rows, the latest first, where the positions of its
/// records count up from this one: each home has the row before again, or none.
pub fn changes_back(
    alloc: Global,
    entries: &[Record],
    position: Position,
) -> Result<Vec<Change>, NoMemory>
    requires { position.0 + length entries.now < 2 ^ 64 }
    ensures { IfOk result (λ changes. changes.items ≡ changes_back position.0 entries.now) }
{
    let mut changes = Vec::new(alloc);
    let mut at = position.0;
    for entry in entries {
        let change = change_back(alloc, entry, Position(at))?;
        changes.push(change)?;
        at += 1;
    }
    Ok(changes)
}

// Undoes the latest Change, and keeps the record of that.
fn undo_latest<F: Frames>(
    work: &mut UndoWork,
    space: &mut Space<F>,
    records: &mut Vec<Record>,
    position: Position,
    back: Position,
) -> Result<(), SpaceFault>
    requires some { 1 ≤ length work.old }
    requires free { vec_len records.old < vec_capacity records.old }
    requires spare { 5 ≤ (F.seen (frames_of space.old)).spare }
    requires step { InStep (F.seen (frames_of space.old)) (summaries_of space.old)
        (capacity_in space.old) }
    requires room { length work.old ≤ undos_in space.old }
    ensures left { work.new ≡ later_of work.old }
    ensures more { OnOk result (vec_len records.new ≡ vec_len records.old + 1) }
    ensures free { vec_capacity records.old ≤ vec_capacity records.new }
    ensures undo { (F.seen (frames_of space.new)).sure ≡ true
        → IfFirst work.old (λ entry.
        CanUndoChange (F.seen (frames_of space.old)) (summaries_of space.old) entry
        → OnOk result (records.new.items ≡ records.old.items
        ++ undo_record position.0 back.0 (slots_of (F.seen (frames_of space.old)).pages) entry
        ∷ [])) }
    ensures undone { (F.seen (frames_of space.new)).sure ≡ true
        → IfFirst work.old (λ entry.
        CanUndoChange (F.seen (frames_of space.old)) (summaries_of space.old) entry
        → OnOk result (UndidChange position.0 back.0 (F.seen (frames_of space.old))
        (F.seen (frames_of space.new)) (summaries_of space.new) entry)) }
    ensures step { InStep (F.seen (frames_of space.new)) (summaries_of space.new)
        (capacity_in space.new) }
    ensures capacity { capacity_in space.new ≡ capacity_in space.old }
    ensures room { length work.new ≤ undos_in space.new }
    ensures keeps { Keeps (F.seen (frames_of space.old)) (F.seen (frames_of space.new)) }
    ensures forced { (F.seen (frames_of space.new)).forced
        ≡ (F.seen (frames_of space.old)).forced }
    ensures idle { position.0 ≤ (F.seen (frames_of space.old)).forced
        → (F.seen (frames_of space.old)).idle ≤ (F.seen (frames_of space.new)).idle }
    ensures spare { (F.seen (frames_of space.new)).spare ≡ (F.seen (frames_of space.new)).idle }
    ensures device { IfErr result (λ fault. IsRisen fault (F.seen (frames_of space.old))
        (F.seen (frames_of space.new))) }
{
    match work.next(space, position, back)? {
        Some(entry) => {
            push_within(records, entry);
            Ok(())
        }
        None => unreachable!(),
    }
}

/// Undoes these Changes of a unit, the latest first. The positions of its records count up from
/// this one, and `back` is the position of the unit's last record. Out of memory leaves the pages
/// as they are; after a Device the caller has to open the volume again.
pub fn undo_unit<F: Frames>(
    alloc: Global,
    space: &mut Space<F>,
    changes: Vec<Record>,
    position: Position,
    back: Position,
) -> Result<UnitUndo, SpaceFault>
    requires changes { AreChanges changes.items }
    requires spare { 5 ≤ (F.seen (frames_of space.old)).spare }
    requires step { InStep (F.seen (frames_of space.old)) (summaries_of space.old)
        (capacity_in space.old) }
    requires few { position.0 + length changes.items < 2 ^ 64 }
    // So each page that it changes stays idle. Where that is not so, the caller takes the steps of
    // `UndoWork` itself, and forces the log between two of them.
    requires forced { position.0 + length changes.items ≤ (F.seen (frames_of space.old)).forced }
    ensures records { IfOk result (λ undo. (F.seen (frames_of space.new)).sure ≡ true
        → CanUndoUnit (F.seen (frames_of space.old)) (summaries_of space.old) changes.items
        → undo.records.items ≡ undo_records position.0 back.0
        (slots_of (F.seen (frames_of space.old)).pages) changes.items) }
    ensures changes { IfOk result (λ undo.
        undo.changes.items ≡ changes_back position.0 changes.items) }
    ensures undone { OnOk result ((F.seen (frames_of space.new)).sure ≡ true
        → CanUndoUnit (F.seen (frames_of space.old)) (summaries_of space.old) changes.items
        → UndidUnit position.0 back.0 (F.seen (frames_of space.old))
        (F.seen (frames_of space.new)) (summaries_of space.new) changes.items) }
    ensures step { InStep (F.seen (frames_of space.new)) (summaries_of space.new)
        (capacity_in space.new) }
    ensures capacity { capacity_in space.new ≡ capacity_in space.old }
    ensures keeps { Keeps (F.seen (frames_of space.old)) (F.seen (frames_of space.new)) }
    ensures forced { (F.seen (frames_of space.new)).forced
        ≡ (F.seen (frames_of space.old)).forced }
    ensures idle { (F.seen (frames_of space.old)).idle ≤ (F.seen (frames_of space.new)).idle }
    ensures spare { OnOk result (5 ≤ (F.seen (frames_of space.new)).spare) }
    ensures cause { IfErr result (λ fault. HasRisen fault (F.seen (frames_of space.old))
        (F.seen (frames_of space.new))) }
{
    let Ok(rows) = changes_back(alloc, changes.as_slice(), position) else {
        return Err(SpaceFault::NoMemory);
    };
    let Ok(mut records) = Vec::with_capacity(alloc, changes.len()) else {
        return Err(SpaceFault::NoMemory);
    };
    let Ok(mut work) = UndoWork::new(space, changes) else {
        return Err(SpaceFault::NoMemory);
    };
    let mut at = position.0;
    let mut back = back;
    while !work.is_empty() {
        undo_latest(&mut work, space, &mut records, Position(at), back)?;
        back = Position(at);
        at += 1;
    }
    Ok(UnitUndo {
        records,
        changes: rows,
    })
}
