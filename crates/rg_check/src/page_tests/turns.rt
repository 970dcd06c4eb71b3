// Changes of an open unit, undone at an opening.
//
// 1. The latest Change is undone first. Each is tested at its turn, on the pages as undone so far.
// 2. The first Change that lacks what its undo needs is answered by its place, and no later one is
//    undone. The space is then to be dropped, as after a fault.
// 3. Each Change that is undone has a record for it, which the caller puts into the log.
ghost use Rattle.std.specs.Prelude.{◌≡◌, ◌≤◌, ◌<◌, ◌+◌, ◌^◌, true, length, IfOk, IfErr, OnOk};
ghost use Rattle.std.specs.Prelude.{IfSome};
ghost use Rattle.rg_page.specs.Seen.{Keeps};
ghost use Rattle.rg_space.specs.Space.{InStep, frames_of, summaries_of, capacity_in, undos_in};
ghost use Rattle.rg_space.specs.Took.{HasRisen};
ghost use Rattle.rg_undo.specs.Undoing.{AreChanges, is_change, later_of};
ghost use Rattle.rg_check.specs.PageTests.Turns.{IsProper, OutcomeIs, TurnIs, first_of};

use crate::page_tests::needed::breach_of;
use rg_base::place::Place;
use rg_base::position::Position;
use rg_page::frames::Frames;
use rg_record::record::Record;
use rg_space::fault::SpaceFault;
use rg_space::space::Space;
use rg_undo::one::undo_one;
use std::alloc::Global;
use std::marker::Model;

/// What a turn does: a Change is undone, by a record; or it breaks what its undo needs, at a place.
#[derive(Debug, Drop)]
pub enum Turn {
    Undone { undo: Record },
    Breach { place: Place },
}

/// What all turns do: all Changes are undone, by records in the order of the undo; or one of them
/// breaks what its undo needs, at a place.
#[derive(Debug, Drop)]
pub enum Outcome {
    Undone { undos: Vec<Record> },
    Breach { place: Place },
}

// The Changes that have not had their turn. They are seen as a list, the latest first.
#[derive(Drop)]
struct Waiting {
    // The latest is the last, so that it can be taken out.
    changes: Vec<Record>,
}

impl Model for Waiting {
    ghost use Rattle.std.specs.Prelude.{List, reverse};
    ghost use Rattle.rg_record.specs.declared.record.Record.{Record};
    ghost use Rattle.rg_undo.specs.Undoing.{AreChanges};

    ghost Value = { List Record };

    ghost view = { λ w. reverse w.changes.items };

    ghost invariant = { λ w. AreChanges w.changes.items };
}

impl Waiting {
    fn new(changes: Vec<Record>) -> Waiting
        requires { AreChanges changes.items }
        ensures { result ≡ changes.items }
    {
        let mut changes = changes;
        changes.reverse();
        Waiting { changes }
    }

    // Takes the latest one out.
    fn take(&mut self) -> Option<Record>
        ensures first { result ≡ first_of self.old }
        ensures left { self.new ≡ later_of self.old }
        ensures change { IfSome result (λ entry. is_change entry.kind ≡ true) }
    {
        self.changes.pop()
    }
}

/// Tests whether a Change has what its undo needs, and undoes it. Its record is the one at this
/// position. All pages are let go.
pub fn take_turn<F: Frames>(
    space: &mut Space<F>,
    entry: Record,
    position: Position,
    back: Position,
) -> Result<Turn, SpaceFault>
    requires change { is_change entry.kind ≡ true }
    requires spare { 5 ≤ (F.seen (frames_of space.old)).spare }
    requires step { InStep (F.seen (frames_of space.old)) (summaries_of space.old)
        (capacity_in space.old) }
    ensures turn { IfOk result (λ turn. (F.seen (frames_of space.new)).sure ≡ true
        → IsProper (F.seen (frames_of space.old)) (summaries_of space.old)
        → TurnIs position.0 back.0 (F.seen (frames_of space.old))
        (F.seen (frames_of space.new)) (summaries_of space.new) entry turn) }
    ensures step { InStep (F.seen (frames_of space.new)) (summaries_of space.new)
        (capacity_in space.new) }
    ensures capacity { capacity_in space.new ≡ capacity_in space.old }
    ensures undos { undos_in space.old ≤ undos_in space.new }
    ensures keeps { Keeps (F.seen (frames_of space.old)) (F.seen (frames_of space.new)) }
    ensures forced { (F.seen (frames_of space.new)).forced
        ≡ (F.seen (frames_of space.old)).forced }
    ensures idle { position.0 ≤ (F.seen (frames_of space.old)).forced
        → (F.seen (frames_of space.old)).idle ≤ (F.seen (frames_of space.new)).idle }
    ensures spare { OnOk result ((F.seen (frames_of space.new)).spare
        ≡ (F.seen (frames_of space.new)).idle) }
    ensures cause { IfErr result (λ fault. HasRisen fault (F.seen (frames_of space.old))
        (F.seen (frames_of space.new))) }
{
    match breach_of(space, &entry) {
        Err(fault) => return Err(fault),
        Ok(Some(place)) => return Ok(Turn::Breach { place }),
        Ok(None) => {}
    }
    match space.reserve_undo(1) {
        Err(_) => return Err(SpaceFault::NoMemory),
        Ok(()) => {}
    }
    let undo = undo_one(space, entry, position, back);
    space.let_go();
    match undo {
        Ok(undo) => Ok(Turn::Undone { undo }),
        Err(fault) => Err(fault),
    }
}

/// Undoes these Changes, the latest first, each tested at its turn. The positions of their records
/// count up from this one, and `back` is the position of the unit's last record. Where one breaks
/// what its undo needs, or after a fault, the caller has to drop the space.
pub fn undo_tested<F: Frames>(
    alloc: Global,
    space: &mut Space<F>,
    changes: Vec<Record>,
    position: Position,
    back: Position,
) -> Result<Outcome, SpaceFault>
    requires changes { AreChanges changes.items }
    requires spare { 5 ≤ (F.seen (frames_of space.old)).spare }
    requires step { InStep (F.seen (frames_of space.old)) (summaries_of space.old)
        (capacity_in space.old) }
    requires few { position.0 + length changes.items < 2 ^ 64 }
    // So each page that it changes stays idle.
    requires forced { position.0 + length changes.items ≤ (F.seen (frames_of space.old)).forced }
    ensures outcome { IfOk result (λ outcome. (F.seen (frames_of space.new)).sure ≡ true
        → IsProper (F.seen (frames_of space.old)) (summaries_of space.old)
        → OutcomeIs position.0 back.0 (F.seen (frames_of space.old))
        (F.seen (frames_of space.new)) (summaries_of space.new) changes.items outcome) }
    ensures step { InStep (F.seen (frames_of space.new)) (summaries_of space.new)
        (capacity_in space.new) }
    ensures capacity { capacity_in space.new ≡ capacity_in space.old }
    ensures keeps { Keeps (F.seen (frames_of space.old)) (F.seen (frames_of space.new)) }
    ensures forced { (F.seen (frames_of space.new)).forced
        ≡ (F.seen (frames_of space.old)).forced }
    ensures idle { (F.seen (frames_of space.old)).idle ≤ (F.seen (frames_of space.new)).idle }
    ensures spare { OnOk result (5 ≤ (F.seen (frames_of space.new)).spare) }
    ensures cause { IfErr result (λ fault. HasRisen fault (F.seen (frames_of space.old))
        (F.seen (frames_of space.new))) }
{
    let mut waiting = Waiting::new(changes);
    let mut undos = Vec::new(alloc);
    let mut at = position.0;
    let mut back = back;
    while let Some(entry) = waiting.take() {
        match take_turn(space, entry, Position(at), back)? {
            Turn::Breach { place } => return Ok(Outcome::Breach { place }),
            Turn::Undone { undo } => match undos.push(undo) {
                Ok(()) => {}
                Err(_) => return Err(SpaceFault::NoMemory),
            },
        }
        back = Position(at);
        at += 1;
    }
    Ok(Outcome::Undone { undos })
}
