// A step of a utility, and what it leaves.
// (1) A step is of a running utility, while the engine is up, and has the operator's answer.
// (2) A switch goes to the other copy, with as many pages as were written, where it is right.
ghost use Rattle.std.specs.Prelude.{◌≡◌, ◌==◌, ◌-◌, ◌&&◌, IfOk, OnOk, List, Some, true};
ghost use Rattle.std.specs.Prelude.{if◌then◌else◌};
ghost use Rattle.std.specs.Option.{option_map};
ghost use Rattle.rg_judge.specs.StateOf.{state_of};
ghost use Rattle.rg_judge.specs.Turn.UtilityOf.{utility_of};
ghost use Rattle.rg_rules.specs.Tally.Tallied.{IsTallied};
ghost use Rattle.rg_judge.specs.Turn.TurnOf.{turn_seen};
ghost use Rattle.rg_model.specs.Possible.{state_after_step};
ghost use Rattle.rg_model.specs.Layout.{is_right_side};
ghost use Rattle.rg_model.specs.Right.{are_quiet_right, is_packed};
ghost use Rattle.rg_model.specs.Turn.{Switches};
ghost use Rattle.rg_model.specs.Utility.{state_of_turn, state_stepped, stop_utility};
ghost use Rattle.rg_stmt.specs.declared.event.Entry.{Entry};

use crate::drain::{is_unclaimed, set_drain};
use crate::layouts::switch::is_right_switch;
use crate::possibility::{Possibility, if_allowed};
use crate::turn::next_event::turn_of;
use crate::turn::progress::Progress;
use crate::turn::turn::Turn;
use rg_base::control::Answer;
use rg_base::copy::TableCopy;
use rg_base::no_memory::NoMemory;
use rg_base::options::DrainState;
use rg_rules::tally::tally::Tally;
use rg_stmt::event::Event;
use rg_stmt::layout::Sides;
use std::alloc::Global;

// It goes to the other copy, with as many pages as were written.
fn is_other_copy(st: &Possibility, copy: TableCopy, pages: u32, shadow: u32, right: bool) -> bool
    ensures { result ≡ (copy == 3 - st.now.copy && (pages == shadow && right)) }
{
    copy == st.copy.other() && (pages == shadow && right)
}

// The copies are switched, where that is allowed.
fn switch(
    alloc: Global,
    mut st: Possibility,
    tally: &Tally,
    u: Progress,
    copy: TableCopy,
    sides: &Sides,
    progress: Progress,
) -> Result<Option<Possibility>, NoMemory>
    ensures { (past : List Entry) → IsTallied past tally.now
        → IfOk result (λ next. option_map state_of next
        ≡ state_of_turn past (state_of st) (utility_of u)
        (Switches copy sides.now (utility_of progress))) }
{
    let unclaimed = is_unclaimed(&mut st.claims);
    let right = is_right_switch(
        alloc,
        st.rows.table().rows(),
        unclaimed,
        tally,
        &u.options,
        sides,
    )?;
    let allowed = is_other_copy(&st, copy, sides.new.pages, u.shadow, right);
    st.copy = copy;
    st.utility = Some(progress);
    Ok(if_allowed(allowed, st))
}

// The utility is over.
fn stop(mut st: Possibility) -> Possibility
    ensures { state_of result ≡ stop_utility (state_of st) }
{
    st.claims.undrain();
    st.utility = None;
    st
}

// The utility goes on.
fn go_on(mut st: Possibility, u: Progress, drain: DrainState) -> Result<Possibility, NoMemory>
    ensures { IfOk result (λ new. state_of new
        ≡ record (state_of st) { drain = drain; utility = Some (utility_of u) }) }
{
    set_drain(&mut st.claims, drain)?;
    st.utility = Some(u);
    Ok(st)
}

// The switch failed half way.
fn fall(st: Possibility) -> Possibility
    ensures { state_of result
        ≡ record (stop_utility (state_of st)) { down = true; copydoubt = true } }
{
    let mut fallen = stop(st);
    fallen.down = true;
    fallen.copydoubt = true;
    fallen
}

// What a turn leaves.
fn leave_turn(
    alloc: Global,
    st: Possibility,
    tally: &Tally,
    u: Progress,
    turn: Turn,
) -> Result<Option<Possibility>, NoMemory>
    ensures { (past : List Entry) → IsTallied past tally.now
        → IfOk result (λ next. option_map state_of next
        ≡ state_of_turn past (state_of st) (utility_of u) (turn_seen turn.entry)) }
{
    match turn {
        Turn::Runs(v, drain) => Ok(Some(go_on(st, v, drain)?)),
        Turn::Switches {
            copy,
            sides,
            progress,
        } => switch(alloc, st, tally, u, *copy, sides, progress),
        Turn::Stops => Ok(Some(stop(st))),
        Turn::Falls => Ok(Some(fall(st))),
    }
}

// A step of a running utility, while the engine is up.
fn run_step(
    alloc: Global,
    st: Possibility,
    tally: &Tally,
    u: Progress,
    answer: Option<Answer>,
    event: &Event,
) -> Result<Option<Possibility>, NoMemory>
    ensures { (past : List Entry) → IsTallied past tally.now
        → IfOk result (λ next. option_map state_of next
        ≡ state_stepped past answer event.now (state_of st) (utility_of u)) }
{
    let Some(answer) = answer else {
        return Ok(None);
    };
    let blocker = st.claims.holder();
    let drain = st.claims.drain();
    match turn_of(tally.changes, blocker, &answer, u, drain, event)? {
        Some(turn) => leave_turn(alloc, st, tally, u, turn),
        None => Ok(None),
    }
}

/// The state after a step, if it is the running utility's next.
pub fn judge_step(
    alloc: Global,
    st: Possibility,
    tally: &Tally,
    answer: Option<Answer>,
    event: &Event,
) -> Result<Option<Possibility>, NoMemory>
    ensures { (past : List Entry) → IsTallied past tally.now
        → IfOk result (λ next. option_map state_of next
        ≡ state_after_step past answer event.now (state_of st) (state_of st).utility) }
{
    let Some(u) = st.utility else {
        return Ok(None);
    };
    if st.down {
        return Ok(None);
    }
    run_step(alloc, st, tally, u, answer, event)
}
