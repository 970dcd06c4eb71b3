// The steps over the log, and those under the drain.
// (1) LOG takes up to 64 changes of its iteration. At the end of an iteration a verdict decides.
// (2) A drain that was asked comes to its verdict: the step waits, or the drain is granted or given
//     up, or the utility stops.
// (3) LAST takes up to 64 changes, until none is left, and is made once at least.
// (4) WRITTEN asks the drain for ALL, where only WRITERS are drained.
ghost use Rattle.std.specs.Prelude.{◌≡◌, IfOk, min};
ghost use Rattle.std.specs.Option.{option_map};
ghost use Rattle.rg_judge.specs.Turn.UtilityOf.{utility_of};
ghost use Rattle.rg_judge.specs.Turn.TurnOf.{turn_seen};
ghost use Rattle.rg_model.specs.Turn.{drain_after_write, end_turn, give_up, last_turn, log_turn};
ghost use Rattle.rg_model.specs.Turn.{log_verdict, switch_turn, verdict_turn, wait_turn};
ghost use Rattle.rg_model.specs.Turn.{write_turn};
ghost use Rattle.rg_model.specs.Verdict.{drain_verdict, is_slow};

use crate::turn::named::{same_drain, same_reason, same_verdict};
use crate::turn::progress::Progress;
use crate::turn::turn::{Turn, begin_iteration, stop_early, stop_space, turn_if};
use rg_base::control::Answer;
use rg_base::no_memory::NoMemory;
use rg_base::options::{DrainFor, DrainState};
use rg_base::session::Session;
use rg_base::verdict::{DrainVerdict, StopReason, Verdict};
use rg_rules::drain::decide_drain;
use rg_rules::iteration::decide_iteration;
use rg_rules::numbers::Numbers;
use rg_rules::tally::sums::{sum, sum_small};
use rg_stmt::event::Event;

// The numbers that verdicts look at.
fn numbers_of(u: Progress, left: u64, covered: Option<Session>) -> Numbers
    ensures { result ≡ record {
      left = left;
      size = u.size;
      asked = u.asked;
      gave_up = u.gave_up;
      message = u.message;
      failed = u.failed;
      covered = covered;
    } }
{
    Numbers {
        left,
        size: u.size,
        asked: u.asked,
        gave_up: u.gave_up,
        message: u.message,
        failed: u.failed,
        covered,
    }
}

// MORE, as long as the iteration's target is not reached.
fn log_verdict(left: u64, answer: &Answer, u: Progress) -> Verdict
    ensures { result ≡ log_verdict left answer.entry.now (utility_of u) }
{
    if u.done == u.target {
        return decide_iteration(&u.options, &numbers_of(u, left, None), answer);
    }
    Verdict::More
}

fn is_slow(left: u64, size: u64) -> bool
    ensures { result ≡ is_slow left size }
{
    size <= left && 1 <= left
}

// What a verdict makes of the utility.
fn obey_verdict<'a>(
    all: u64,
    now: u32,
    slow: bool,
    u: Progress,
    drain: DrainState,
    verdict: Verdict,
) -> Result<Turn<'a>, NoMemory>
    ensures { IfOk result (λ turn. turn_seen turn
        ≡ verdict_turn all now slow (utility_of u) drain verdict) }
{
    match verdict {
        Verdict::More => Ok(Turn::Runs(u, drain)),
        Verdict::Next => {
            let kept = if slow {
                u
            } else {
                Progress { message: None, ..u }
            };
            Ok(Turn::Runs(begin_iteration(all, kept)?, drain))
        }
        Verdict::Message => {
            let message = Some(now);
            Ok(Turn::Runs(begin_iteration(all, Progress { message, ..u })?, drain))
        }
        Verdict::Drain(asked) => Ok(Turn::Runs(
            Progress { asked: now, ..u },
            DrainState::Asked(asked),
        )),
        Verdict::Stop(_) => Ok(Turn::Stops),
    }
}

// At most 64 of the changes that are left.
fn share(left: u64) -> u64
    ensures { result ≡ min 64 left }
{
    if left < 64 { left } else { 64 }
}

/// A step of an iteration.
pub fn iterate<'a>(
    all: u64,
    answer: &Answer,
    u: Progress,
    drain: DrainState,
    event: &'a Event,
) -> Result<Option<Turn<'a>>, NoMemory>
    ensures { IfOk result (λ turn. option_map turn_seen turn
        ≡ log_turn all answer.entry.now (utility_of u) drain event.now) }
{
    match event {
        Event::Log {
            iteration,
            took,
            left,
            verdict,
        } => {
            let done = sum(u.done, u64::from(*took))?;
            let next = Progress { done, ..u };
            let slow = is_slow(*left, u.size);
            let turn = obey_verdict(all, answer.now, slow, next, drain, *verdict)?;
            let full = u64::from(*took) == share(u.target.saturating_sub(u.done));
            let right = same_verdict(*verdict, log_verdict(*left, answer, next));
            Ok(turn_if(
                *iteration == u.iteration && (full && (*left == all.saturating_sub(done) && right)),
                turn,
            ))
        }
        _ => Ok(stop_space(event)),
    }
}

// What was caught up and written counts no more.
fn give_up(all: u64, now: u32, u: Progress) -> Result<Progress, NoMemory>
    ensures { IfOk result (λ v. utility_of v ≡ give_up all now (utility_of u)) }
{
    begin_iteration(
        all,
        Progress {
            failed: sum_small(u.failed, 1)?,
            gave_up: Some(now),
            last: false,
            written: false,
            ..u
        },
    )
}

/// What becomes of the drain that was asked, where `blocker` is the least session that holds a
/// class which the drain covers.
pub fn verdict_of(u: Progress, blocker: Option<Session>, answer: &Answer) -> DrainVerdict
    ensures { let said = answer.entry.now in result
        ≡ drain_verdict u.options u.asked u.failed blocker said.now said.estimate }
{
    decide_drain(&u.options, &numbers_of(u, 0, blocker), answer)
}

/// A step that looks at the drain that was asked.
pub fn wait<'a>(
    all: u64,
    answer: &Answer,
    u: Progress,
    drain: DrainState,
    asked: DrainFor,
    verdict: DrainVerdict,
    event: &'a Event,
) -> Result<Option<Turn<'a>>, NoMemory>
    ensures { IfOk result (λ turn. option_map turn_seen turn
        ≡ wait_turn all answer.entry.now (utility_of u) drain asked verdict event.now) }
{
    match (verdict, event) {
        (DrainVerdict::Wait(session), Event::Wait(named)) => {
            Ok(turn_if(named.0 == session.0, Turn::Runs(u, drain)))
        }
        (DrainVerdict::Granted, Event::Granted(named)) => Ok(turn_if(
            same_drain(*named, asked),
            Turn::Runs(u, DrainState::Granted(asked)),
        )),
        (DrainVerdict::GiveUp, Event::GiveUp(count)) => {
            let next = give_up(all, answer.now, u)?;
            let failed = sum_small(u.failed, 1)?;
            Ok(turn_if(*count == failed, Turn::Runs(next, DrainState::Free)))
        }
        (DrainVerdict::Stop(reason), Event::Stop(named)) => {
            if same_reason(*named, reason) {
                return Ok(Some(Turn::Stops));
            }
            Ok(stop_early(event))
        }
        _ => Ok(stop_early(event)),
    }
}

/// A step that takes changes under the drain.
pub fn take_last<'a>(
    all: u64,
    u: Progress,
    drain: DrainState,
    event: &'a Event,
) -> Result<Option<Turn<'a>>, NoMemory>
    ensures { IfOk result (λ turn. option_map turn_seen turn
        ≡ last_turn all (utility_of u) drain event.now) }
{
    match event {
        Event::Last { took, left } => {
            let done = sum(u.done, u64::from(*took))?;
            Ok(turn_if(
                u64::from(*took) == share(all.saturating_sub(u.done))
                    && *left == all.saturating_sub(done),
                Turn::Runs(
                    Progress {
                        target: all,
                        done,
                        last: *left == 0,
                        ..u
                    },
                    drain,
                ),
            ))
        }
        _ => Ok(stop_space(event)),
    }
}

// Under WRITERS the drain for ALL is asked with it.
fn drain_more<'a>(now: u32, u: Progress, drain: DrainState, granted: DrainFor) -> Turn<'a>
    ensures { turn_seen result ≡ drain_after_write now (utility_of u) drain granted }
{
    match granted {
        DrainFor::Writers => Turn::Runs(
            Progress { asked: now, ..u },
            DrainState::Asked(DrainFor::All),
        ),
        DrainFor::All => Turn::Runs(u, drain),
    }
}

/// A step that writes the new copy.
pub fn write_copy<'a>(
    answer: &Answer,
    u: Progress,
    drain: DrainState,
    granted: DrainFor,
    event: &'a Event,
) -> Option<Turn<'a>>
    ensures { option_map turn_seen result
        ≡ write_turn answer.entry.now (utility_of u) drain granted event.now }
{
    match event {
        Event::Written { pages } => {
            let next = Progress {
                written: true,
                shadow: *pages,
                ..u
            };
            Some(drain_more(answer.now, next, drain, granted))
        }
        _ => stop_early(event),
    }
}

/// A step that switches the copies.
pub fn switch_copies<'a>(u: Progress, event: &'a Event) -> Option<Turn<'a>>
    ensures { option_map turn_seen result ≡ switch_turn (utility_of u) event.now }
{
    match event {
        Event::Switched { copy, sides } => Some(Turn::Switches {
            copy,
            sides,
            progress: Progress {
                switched: true,
                ..u
            },
        }),
        Event::Stop(StopReason::Device) => Some(Turn::Falls),
        _ => stop_early(event),
    }
}

/// A step that ends the utility.
pub fn end(event: &Event) -> Option<Turn>
    ensures { option_map turn_seen result ≡ end_turn event.now }
{
    match event {
        Event::Ended => Some(Turn::Stops),
        _ => stop_early(event),
    }
}
