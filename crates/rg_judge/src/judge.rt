// The judge: the first entry of a trace that is not legal.
// (1) Each entry is allowed after those before it: from entry to entry the judge keeps all states
//     that are possible, and an entry after which none is left is refused.
// (2) Sessions are numbered from 1 to 99. The number of volume calls never falls.
// (3) An operator's answer is there if and only if the entry asks the operator.
ghost use Rattle.std.specs.Prelude.{◌≡◌, ◌++◌, IfOk, OnOk, List, is_some, map, true, false, Some};
ghost use Rattle.std.specs.Prelude.{◌↔◌, ℕ, None};
ghost use Rattle.std.specs.List.{flat_map};
ghost use Rattle.std.specs.Option.{option_map};
ghost use Rattle.rg_judge.specs.Refused.{IsFirstRefused, IsJudged, IsSound, is_nil};
ghost use Rattle.rg_judge.specs.Refused.{states_begun};
ghost use Rattle.rg_judge.specs.StateOf.{state_of};
ghost use Rattle.rg_rules.specs.Tally.Tallied.{IsTallied};
ghost use Rattle.rg_model.specs.Legal.{IsActor, Legal, asks};
ghost use Rattle.rg_model.specs.Possible.{one_state, states_after, states_before};
ghost use Rattle.rg_stmt.specs.declared.event.Entry as entries;

use crate::next::judge_entry;
use crate::opened::rest;
use crate::possibility::Possibility;
use crate::table::cat_table::CatTable;
use rg_base::no_memory::NoMemory;
use rg_base::note::note;
use rg_base::table::Table;
use rg_model::plain::walks::copy_table;
use rg_rules::tally::tally::Tally;
use rg_stmt::event::{Actor, Entry, Event};
use std::alloc::Global;

// Whoever makes an entry has a number that a session can have, if it is a session.
fn is_actor(actor: Actor) -> bool
    ensures yes { result ≡ true → IsActor actor }
    ensures no { result ≡ false → IsActor actor → ⊥ }
{
    match actor {
        Actor::Session(session) => 1 <= session.0 && session.0 <= 99,
        Actor::System | Actor::Utility => true,
    }
}

// The operator is asked in each step that finds a utility running and the engine not down.
fn asks(event: &Event) -> bool
    ensures { result ≡ asks event.now }
{
    matches!(
        event,
        Event::Unload { .. }
            | Event::Reload { .. }
            | Event::Sort(_)
            | Event::Build(_)
            | Event::Log { .. }
            | Event::Wait(_)
            | Event::Granted(_)
            | Event::GiveUp(_)
            | Event::Last { .. }
            | Event::Written { .. }
            | Event::Switched { .. }
            | Event::Ended
            | Event::Stop(_)
    )
}

// The actor may act, the calls don't fall, and an answer is there if and only if one is asked.
fn is_sound(calls: u64, entry: &Entry) -> bool
    ensures yes { result ≡ true → IsSound calls entry.now }
    ensures no { result ≡ false → IsSound calls entry.now → ⊥ }
{
    if !is_actor(entry.actor) {
        return false;
    }
    if entry.calls < calls {
        return false;
    }
    entry.answer.is_some() == asks(&entry.event)
}

// Entry 0 opens the table at copy 1 or 2.
fn begin(alloc: Global, start: &Table, event: &Event) -> Result<Vec<Possibility>, NoMemory>
    ensures { IfOk result (λ states. map state_of states.items
        ≡ states_before start.now event.now) }
{
    let mut states = Vec::new(alloc);
    match event {
        Event::Opened { copy, .. } => {
            // That its number is 1 or 2.
            note(&copy.number());
            let table = CatTable::new(alloc, copy_table(alloc, start)?)?;
            states.push(rest(alloc, table, *copy)?)?;
            Ok(states)
        }
        _ => Ok(states),
    }
}

// The states before the first entry.
fn begin_trace(alloc: Global, start: &Table, trace: &[Entry]) -> Result<Vec<Possibility>, NoMemory>
    ensures { IfOk result (λ states. map state_of states.items
        ≡ states_begun start.now trace.now) }
{
    match trace {
        [] => Ok(Vec::new(alloc)),
        [first, ..] => begin(alloc, start, &first.event),
    }
}

fn push_state(states: &mut Vec<Possibility>, state: Option<Possibility>) -> Result<(), NoMemory>
    ensures { OnOk result (map state_of states.new.items
        ≡ map state_of states.old.items ++ one_state (option_map state_of state)) }
{
    if let Some(st) = state {
        states.push(st)?;
    }
    Ok(())
}

// The states after an entry.
fn advance(
    alloc: Global,
    states: Vec<Possibility>,
    tally: &Tally,
    entry: &Entry,
) -> Result<Vec<Possibility>, NoMemory>
    requires { IsActor entry.now.actor }
    ensures { (past : List entries.Entry) → IsTallied past tally.now → IfOk result (λ after.
        map state_of after.items
        ≡ flat_map (states_after past entry.now.answer entry.now.actor entry.now.event)
        (map state_of states.items)) }
{
    let mut after = Vec::new(alloc);
    let mut left = states.into_iter();
    while let Some(st) = left.next() {
        let (first, second) = judge_entry(
            alloc,
            st,
            tally,
            entry.answer,
            entry.actor,
            &entry.event,
        )?;
        push_state(&mut after, first)?;
        push_state(&mut after, second)?;
    }
    Ok(after)
}

fn is_none_left(states: &[Possibility]) -> bool
    ensures { result ≡ is_nil states.now }
{
    match states {
        [] => true,
        _ => false,
    }
}

// The first entry that is not legal, or none.
fn find_refused(alloc: Global, start: &Table, trace: &[Entry]) -> Result<Option<usize>, NoMemory>
    ensures { IfOk result (λ found. IsJudged start.now trace.now found) }
{
    let mut states = begin_trace(alloc, start, trace)?;
    let mut tally = Tally::new(alloc);
    let mut calls = 0;
    for (at, entry) in trace.iter().enumerate() {
        if !is_sound(calls, entry) {
            return Ok(Some(at));
        }
        states = advance(alloc, states, &tally, entry)?;
        if is_none_left(states.as_slice()) {
            return Ok(Some(at));
        }
        tally.add(alloc, entry.actor, &entry.event)?;
        calls = entry.calls;
    }
    Ok(None)
}

/// The first entry of a trace from the table `start` that is not legal, or none where the trace is
/// legal. It takes memory for the states and for what is kept of the entries so far.
pub fn judge(alloc: Global, start: &Table, trace: &[Entry]) -> Result<Option<usize>, NoMemory>
    ensures legal { IfOk result (λ found. (found ≡ None) ↔ Legal start.now trace.now) }
    ensures refused { (i : ℕ)
        → IfOk result (λ found. (found ≡ Some i) ↔ IsFirstRefused start.now trace.now i) }
{
    let found = find_refused(alloc, start, trace)?;
    Ok(found)
}
