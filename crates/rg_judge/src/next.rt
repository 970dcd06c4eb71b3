// What each event makes of a state.
// (1) A session's event is a statement. Openings, flushes and layouts are the system's. The
//     utility's are its starts and its steps.
// (2) An event whose actor is not its own allows nothing.
ghost use Rattle.std.specs.Prelude.{◌≡◌, ◌++◌, IfOk, List, Option};
ghost use Rattle.std.specs.Option.{option_map};
ghost use Rattle.rg_judge.specs.StateOf.{state_of};
ghost use Rattle.rg_rules.specs.Tally.Tallied.{IsTallied};
ghost use Rattle.rg_model.specs.Legal.{IsActor};
ghost use Rattle.rg_model.specs.Possible.{next_state, one_state, state_shown, state_started};
ghost use Rattle.rg_model.specs.Possible.{states_after};
ghost use Rattle.rg_base.specs.declared.control.Answer.{Answer};
ghost use Rattle.rg_stmt.specs.declared.event.Entry.{Entry};

use crate::layouts::layout::is_right_side;
use crate::opened::judge_opened;
use crate::possibility::{Possibility, if_allowed};
use crate::said::judge_said;
use crate::step::judge_step;
use crate::turn::progress::Progress;
use rg_base::control::Answer;
use rg_base::copy::TableCopy;
use rg_base::no_memory::NoMemory;
use rg_base::options::Options;
use rg_rules::tally::tally::Tally;
use rg_stmt::event::{Actor, Event};
use rg_stmt::layout::Side;
use std::alloc::Global;

// The layout of the current copy, while the engine is up.
fn judge_shown(
    alloc: Global,
    st: Possibility,
    copy: TableCopy,
    side: &Side,
) -> Result<Option<Possibility>, NoMemory>
    ensures { IfOk result (λ next. option_map state_of next
        ≡ state_shown (state_of st) copy side.now) }
{
    if st.down || copy != st.copy {
        return Ok(None);
    }
    let right = is_right_side(alloc, st.rows.table().rows(), side)?;
    Ok(if_allowed(right, st))
}

// A utility starts where none runs, over the current copy.
fn judge_started(
    mut st: Possibility,
    options: Options,
    copy: TableCopy,
    pages: u32,
) -> Option<Possibility>
    ensures { option_map state_of result ≡ state_started (state_of st) options copy pages }
{
    let allowed = !st.down && (st.utility.is_none() && copy == st.copy);
    st.utility = Some(Progress {
        options,
        pages: u64::from(pages),
        copied: 0,
        unloaded: 0,
        reloaded: 0,
        filled: 0,
        sorted: 0,
        built: 0,
        iteration: 0,
        target: 0,
        done: 0,
        size: 0,
        asked: 0,
        gave_up: None,
        message: None,
        failed: 0,
        shadow: 0,
        last: false,
        written: false,
        switched: false,
    });
    if_allowed(allowed, st)
}

// An event of the system, but for an opening.
fn next_of_system(
    alloc: Global,
    st: Possibility,
    event: &Event,
) -> Result<Option<Possibility>, NoMemory>
    ensures { (past : List Entry) (answer : Option Answer) → IfOk result (λ next.
        option_map state_of next
        ≡ next_state past answer Actor.System event.now (state_of st)) }
{
    let down = st.down;
    match event {
        Event::Flush { .. }
        | Event::Clean
        | Event::FlushDevice
        | Event::FlushNoMemory
        | Event::LayoutDevice
        | Event::LayoutNoMemory => Ok(if_allowed(!down, st)),
        Event::FlushDown | Event::LayoutDown => Ok(if_allowed(down, st)),
        Event::Layout { copy, side } => judge_shown(alloc, st, *copy, side),
        _ => Ok(None),
    }
}

// An event of the utility.
fn next_of_utility(
    alloc: Global,
    st: Possibility,
    tally: &Tally,
    answer: Option<Answer>,
    event: &Event,
) -> Result<Option<Possibility>, NoMemory>
    ensures { (past : List Entry) → IsTallied past tally.now → IfOk result (λ next.
        option_map state_of next
        ≡ next_state past answer Actor.Utility event.now (state_of st)) }
{
    let down = st.down;
    let runs = st.utility.is_some();
    match event {
        Event::Started {
            options,
            copy,
            pages,
        } => Ok(judge_started(st, *options, *copy, *pages)),
        Event::Active => Ok(if_allowed(!down && runs, st)),
        Event::StartLogFull { .. } | Event::StartNoMemory | Event::Idle => {
            Ok(if_allowed(!down && !runs, st))
        }
        Event::StartDown | Event::StepDown => Ok(if_allowed(down, st)),
        _ => judge_step(alloc, st, tally, answer, event),
    }
}

// The state after an event, but for an opening.
fn next(
    alloc: Global,
    st: Possibility,
    tally: &Tally,
    answer: Option<Answer>,
    actor: Actor,
    event: &Event,
) -> Result<Option<Possibility>, NoMemory>
    requires { IsActor actor }
    ensures { (past : List Entry) → IsTallied past tally.now → IfOk result (λ next.
        option_map state_of next ≡ next_state past answer actor event.now (state_of st)) }
{
    match actor {
        Actor::Session(session) => match event {
            Event::Said { stmt, reply } => judge_said(alloc, st, session, stmt, reply),
            _ => Ok(None),
        },
        Actor::System => next_of_system(alloc, st, event),
        Actor::Utility => next_of_utility(alloc, st, tally, answer, event),
    }
}

/// The states that an entry allows after a state.
pub fn judge_entry(
    alloc: Global,
    st: Possibility,
    tally: &Tally,
    answer: Option<Answer>,
    actor: Actor,
    event: &Event,
) -> Result<(Option<Possibility>, Option<Possibility>), NoMemory>
    requires { IsActor actor }
    ensures { (past : List Entry) → IsTallied past tally.now → IfOk result (λ two.
        (one_state (option_map state_of two.0) ++ one_state (option_map state_of two.1))
        ≡ states_after past answer actor event.now (state_of st)) }
{
    match (actor, event) {
        (Actor::System, Event::Opened { copy, rows, .. }) => judge_opened(alloc, st, *copy, *rows),
        _ => Ok((next(alloc, st, tally, answer, actor, event)?, None)),
    }
}
