// What a step of a running utility leaves, and what may stand in place of its event.
ghost use Rattle.std.specs.Prelude.{◌≡◌, IfOk};
ghost use Rattle.std.specs.Option.{option_map};
ghost use Rattle.rg_judge.specs.Turn.UtilityOf.{utility_of};
ghost use Rattle.rg_judge.specs.Turn.TurnOf.{turn_seen};
ghost use Rattle.rg_model.specs.Turn.{early_stop, next_iteration, space_stop, turn_if};

use crate::turn::progress::Progress;
use rg_base::copy::TableCopy;
use rg_base::no_memory::NoMemory;
use rg_base::options::DrainState;
use rg_base::verdict::StopReason;
use rg_rules::tally::sums::sum;
use rg_stmt::event::Event;
use rg_stmt::layout::Sides;

/// What a step leaves.
#[derive(Drop)]
pub enum Turn<'a> {
    /// The utility with these numbers, under this drain.
    Runs(Progress, DrainState),
    /// The other copy with these layouts, and the utility with these numbers.
    Switches {
        copy: &'a TableCopy,
        sides: &'a Sides,
        progress: Progress,
    },
    /// No utility.
    Stops,
    /// No utility, and the engine is down.
    Falls,
}

/// The turn, where it is allowed.
pub fn turn_if(allowed: bool, turn: Turn) -> Option<Turn>
    ensures { option_map turn_seen result ≡ turn_if allowed (turn_seen turn.entry) }
{
    if allowed { Some(turn) } else { None }
}

/// STOP DEVICE and STOP NOMEMORY may stand in place of any event.
pub fn stop_early(event: &Event) -> Option<Turn>
    ensures { option_map turn_seen result ≡ early_stop event.now }
{
    match event {
        Event::Stop(StopReason::Device) | Event::Stop(StopReason::NoMemory) => Some(Turn::Stops),
        _ => None,
    }
}

/// The same, and STOP NOSPACE.
pub fn stop_space(event: &Event) -> Option<Turn>
    ensures { option_map turn_seen result ≡ space_stop event.now }
{
    match event {
        Event::Stop(StopReason::NoSpace) => Some(Turn::Stops),
        _ => stop_early(event),
    }
}

/// One iteration more, with all changes so far as its target.
pub fn begin_iteration(all: u64, u: Progress) -> Result<Progress, NoMemory>
    ensures { IfOk result (λ v. utility_of v ≡ next_iteration all (utility_of u)) }
{
    Ok(Progress {
        iteration: sum(u.iteration, 1)?,
        target: all,
        size: all.saturating_sub(u.done),
        ..u
    })
}
