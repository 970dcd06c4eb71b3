// The event that a step of a running utility makes.
// (1) Before the switch the step first obeys the operator: TERM ends the utility, ALTER changes its
//     options.
// (2) Then its stage decides the one event that it makes.
ghost use Rattle.std.specs.Prelude.{◌≡◌, IfOk};
ghost use Rattle.std.specs.Option.{option_map};
ghost use Rattle.rg_judge.specs.Turn.UtilityOf.{utility_of};
ghost use Rattle.rg_judge.specs.Turn.TurnOf.{turn_seen};
ghost use Rattle.rg_model.specs.Turn.{alter, is_term, step_by_drain, step_of, step_under};
ghost use Rattle.rg_model.specs.Turn.{term_turn};
ghost use Rattle.rg_model.specs.Turn.{turn_at, turn_of};

use crate::turn::copying::{build, reload, sort, unload};
use crate::turn::log::{end, iterate, switch_copies, take_last, verdict_of, wait, write_copy};
use crate::turn::progress::Progress;
use crate::turn::turn::Turn;
use rg_base::control::{Answer, Command};
use rg_base::no_memory::NoMemory;
use rg_base::options::{DrainFor, DrainState, Options};
use rg_base::session::Session;
use rg_base::step::Step;
use rg_base::verdict::StopReason;
use rg_stmt::event::Event;

fn step_under(u: Progress, granted: DrainFor) -> Step
    ensures { result ≡ step_under (utility_of u) granted }
{
    if !u.last {
        return Step::Last;
    }
    if !u.written {
        Step::Write(granted)
    } else {
        Step::Switch
    }
}

fn step_by_drain(u: Progress, drain: DrainState) -> Step
    ensures { result ≡ step_by_drain (utility_of u) drain }
{
    match drain {
        DrainState::Free => Step::Log,
        DrainState::Asked(asked) => Step::Wait(asked),
        DrainState::Granted(granted) => step_under(u, granted),
    }
}

/// The stage of a utility that has not switched.
pub fn step_of(u: Progress, drain: DrainState) -> Step
    ensures { result ≡ step_of (utility_of u) drain }
{
    if u.copied < u.pages {
        return Step::Unload;
    }
    if u.reloaded < u.unloaded {
        return Step::Reload;
    }
    if u.sorted < 3 {
        return Step::Sort;
    }
    if u.built < 3 {
        return Step::Build;
    }
    step_by_drain(u, drain)
}

fn is_term(command: Command) -> bool
    ensures { result ≡ is_term command }
{
    matches!(command, Command::Term)
}

// TERM ends the utility, unless memory ran out first.
fn obey_term(event: &Event) -> Option<Turn>
    ensures { option_map turn_seen result ≡ term_turn event.now }
{
    match event {
        Event::Stop(StopReason::Term) | Event::Stop(StopReason::NoMemory) => Some(Turn::Stops),
        _ => None,
    }
}

// ALTER replaces the options that it names.
fn alter(u: Progress, command: Command) -> Progress
    ensures { utility_of result ≡ alter (utility_of u) command }
{
    match command {
        Command::Alter(a) => Progress {
            options: Options {
                maxro: a.maxro.unwrap_or(u.options.maxro),
                longlog: a.longlog.unwrap_or(u.options.longlog),
                delay: a.delay.unwrap_or(u.options.delay),
                deadline: a.deadline.unwrap_or(u.options.deadline),
                ..u.options
            },
            ..u
        },
        Command::Nothing | Command::Term => u,
    }
}

// The turn of an event at a stage.
fn turn_at<'a>(
    step: Step,
    all: u64,
    blocker: Option<Session>,
    answer: &Answer,
    u: Progress,
    drain: DrainState,
    event: &'a Event,
) -> Result<Option<Turn<'a>>, NoMemory>
    ensures { IfOk result (λ turn. option_map turn_seen turn
        ≡ turn_at step all blocker answer.entry.now (utility_of u) drain event.now) }
{
    match step {
        Step::Unload => unload(u, drain, event),
        Step::Reload => reload(u, drain, event),
        Step::Sort => sort(u, drain, event),
        Step::Build => build(all, u, drain, event),
        Step::Log => iterate(all, answer, u, drain, event),
        Step::Wait(asked) => {
            let verdict = verdict_of(u, blocker, answer);
            wait(all, answer, u, drain, asked, verdict, event)
        }
        Step::Last => take_last(all, u, drain, event),
        Step::Write(granted) => Ok(write_copy(answer, u, drain, granted, event)),
        Step::Switch => Ok(switch_copies(u, event)),
        Step::End => Ok(end(event)),
    }
}

/// The turn of an event of a running utility, or none where the event is not its next. `all` are
/// the changes so far, and `blocker` is the least session that holds a class which the drain
/// covers.
pub fn turn_of<'a>(
    all: u64,
    blocker: Option<Session>,
    answer: &Answer,
    u: Progress,
    drain: DrainState,
    event: &'a Event,
) -> Result<Option<Turn<'a>>, NoMemory>
    ensures { IfOk result (λ turn. option_map turn_seen turn
        ≡ turn_of all blocker answer.entry.now (utility_of u) drain event.now) }
{
    if u.switched {
        return Ok(end(event));
    }
    if is_term(answer.command) {
        return Ok(obey_term(event));
    }
    let v = alter(u, answer.command);
    turn_at(step_of(v, drain), all, blocker, answer, v, drain, event)
}
