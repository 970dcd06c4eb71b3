// What the steps after the last BUILD leave of a utility's numbers.
//
// 1. LOG takes changes. At the end of an iteration its verdict stands in the entry: the next
//    iteration begins, or the drain is asked, or the utility is over. A message that the log
//    doesn't grow shorter stands until an iteration ends at which it does.
// 2. A drain that was asked waits, or is granted, or is given up. GIVEUP counts a failed try, frees
//    the drain and begins the next iteration; what was caught up and written counts no more.
// 3. LAST takes changes up to the last one there is, and says whether one is left.
// 4. WRITTEN under the drain for WRITERS asks the drain for ALL.
// 5. SWITCHED frees the drain.
// 6. A STOP in their place ends the utility.
ghost use Rattle.std.specs.Prelude.{◌≡◌, ◌+◌, ◌≤◌, ℕ, is_some, Option, Some, true};
ghost use Rattle.rg_base.specs.declared.options.DrainState.TheVariants as drains;
ghost use Rattle.rg_base.specs.declared.session.Session.{Session as SessionOf};
ghost use Rattle.rg_model.specs.Turn.{Turn, give_up, last_turn, log_turn, switch_turn};
ghost use Rattle.rg_model.specs.Turn.{verdict_turn, wait_turn, write_turn};
ghost use Rattle.rg_model.specs.Verdict.{drain_verdict, is_slow};
ghost use Rattle.rg_rules.specs.Stage.NumbersOf.{numbers_of};
ghost use Rattle.rg_rules.specs.Stage.Followed.{Followed, KeepsLines};
ghost use Rattle.rg_rules.specs.Stage.Bounded.{Bounded, KeepsBounds, SomeBounded};

use crate::stage::copying::iterate;
use rg_base::control::Answer;
use rg_base::options::{DrainFor, DrainState};
use rg_base::verdict::Verdict;
use rg_feed::fold::item::Stage;
use rg_stmt::event::Event;

// The log doesn't grow shorter.
fn is_slow(left: u64, size: u64) -> bool
    ensures { result ≡ is_slow left size }
{
    left >= size && left > 0
}

// What a verdict makes of the utility, with the changes taken.
fn obey_verdict(
    stage: &Stage,
    answer: &Answer,
    all: u64,
    slow: bool,
    verdict: Verdict,
) -> Option<Stage>
    requires bounded { SomeBounded all stage.now }
    ensures followed { Followed
        (verdict_turn all answer.entry.now.now slow (numbers_of stage.entry.now)
        stage.entry.now.drain verdict) result }
    ensures bounded { KeepsBounds all stage.entry.now result }
    ensures lines { KeepsLines stage.entry.now result }
{
    let mut stage = *stage;
    match verdict {
        Verdict::More => Some(stage),
        Verdict::Next => {
            if !slow {
                stage.message = None;
            }
            Some(iterate(&stage, all))
        }
        Verdict::Message => {
            stage.message = Some(answer.now);
            Some(iterate(&stage, all))
        }
        Verdict::Drain(drain) => {
            stage.asked = answer.now;
            stage.drain = DrainState::Asked(drain);
            Some(stage)
        }
        Verdict::Stop(_) => None,
    }
}

/// The stage after a step that takes changes in an iteration.
pub(crate) fn log(stage: &Stage, answer: &Answer, all: u64, event: &Event) -> Option<Stage>
    requires bounded { SomeBounded all stage.now }
    requires next { is_some
        (log_turn all answer.now (numbers_of stage.now) stage.now.drain event.now) ≡ true }
    ensures followed { (turn : Turn)
        → log_turn all answer.entry.now (numbers_of stage.entry.now) stage.entry.now.drain
        event.entry.now ≡ Some turn
        → Followed turn result }
    ensures bounded { KeepsBounds all stage.entry.now result }
    ensures lines { KeepsLines stage.entry.now result }
{
    let mut stage = *stage;
    match event {
        Event::Log {
            took,
            left,
            verdict,
            ..
        } => {
            let slow = is_slow(*left, stage.size);
            stage.done += u64::from(*took);
            obey_verdict(&stage, answer, all, slow, *verdict)
        }
        _ => None,
    }
}

// The drain was given up.
fn give_up(stage: &Stage, all: u64, now: u32) -> Stage
    requires bounded { SomeBounded all stage.now }
    requires failed { stage.now.failed + 1 ≤ stage.now.options.retry }
    ensures numbers { numbers_of result ≡ give_up all now (numbers_of stage.now) }
    ensures drain { result.drain ≡ drains.Free }
    ensures bounded { (entries : ℕ)
        → Bounded all entries stage.now → Bounded all (entries + 1) result }
    ensures running { result.running ≡ stage.now.running }
    ensures lines { result.lines ≡ stage.now.lines }
{
    // No more than 255.
    let _retry = stage.options.retry;
    let mut stage = *stage;
    stage.failed += 1;
    stage.gave_up = Some(now);
    stage.last = false;
    stage.written = false;
    stage.drain = DrainState::Free;
    iterate(&stage, all)
}

/// The stage after a step that looks at the drain that was asked.
pub(crate) fn wait(
    stage: &Stage,
    answer: &Answer,
    all: u64,
    asked: DrainFor,
    event: &Event,
) -> Option<Stage>
    requires bounded { SomeBounded all stage.now }
    requires next { (covered : Option SessionOf) × (is_some
        (wait_turn all answer.now (numbers_of stage.now) stage.now.drain asked
        (drain_verdict stage.now.options stage.now.asked stage.now.failed covered
        answer.now.now answer.now.estimate)
        event.now) ≡ true) }
    ensures followed { (covered : Option SessionOf) (turn : Turn)
        → wait_turn all answer.entry.now (numbers_of stage.entry.now) stage.entry.now.drain asked
        (drain_verdict stage.entry.now.options stage.entry.now.asked stage.entry.now.failed covered
        answer.entry.now.now answer.entry.now.estimate)
        event.entry.now ≡ Some turn
        → Followed turn result }
    ensures bounded { KeepsBounds all stage.entry.now result }
    ensures lines { KeepsLines stage.entry.now result }
{
    let mut stage = *stage;
    match event {
        Event::Wait(_) => Some(stage),
        Event::Granted(drain) => {
            stage.drain = DrainState::Granted(*drain);
            Some(stage)
        }
        Event::GiveUp(_) => Some(give_up(&stage, all, answer.now)),
        _ => None,
    }
}

/// The stage after a step that takes changes under the drain.
pub(crate) fn last(stage: &Stage, all: u64, event: &Event) -> Option<Stage>
    requires bounded { SomeBounded all stage.now }
    requires next { is_some
        (last_turn all (numbers_of stage.now) stage.now.drain event.now) ≡ true }
    ensures followed { (turn : Turn)
        → last_turn all (numbers_of stage.now) stage.now.drain event.now ≡ Some turn
        → Followed turn result }
    ensures bounded { KeepsBounds all stage.now result }
    ensures lines { KeepsLines stage.now result }
{
    let mut stage = *stage;
    match event {
        Event::Last { took, left } => {
            stage.target = all;
            stage.done += u64::from(*took);
            stage.last = *left == 0;
            Some(stage)
        }
        _ => None,
    }
}

/// The stage after a step that writes the new copy.
pub(crate) fn write(
    stage: &Stage,
    answer: &Answer,
    granted: DrainFor,
    event: &Event,
) -> Option<Stage>
    requires granted { stage.now.drain ≡ drains.Granted granted }
    ensures followed { (turn : Turn)
        → write_turn answer.entry.now (numbers_of stage.entry.now) stage.entry.now.drain granted
        event.entry.now ≡ Some turn
        → Followed turn result }
    ensures bounded { (all : ℕ) → KeepsBounds all stage.entry.now result }
    ensures lines { KeepsLines stage.entry.now result }
{
    let mut stage = *stage;
    match (event, granted) {
        (Event::Written { pages }, DrainFor::Writers) => {
            stage.written = true;
            stage.shadow = *pages;
            stage.asked = answer.now;
            stage.drain = DrainState::Asked(DrainFor::All);
            Some(stage)
        }
        (Event::Written { pages }, DrainFor::All) => {
            stage.written = true;
            stage.shadow = *pages;
            Some(stage)
        }
        _ => None,
    }
}

/// The stage after a step that switches the copies.
pub(crate) fn switch(stage: &Stage, event: &Event) -> Option<Stage>
    ensures followed { (turn : Turn)
        → switch_turn (numbers_of stage.now) event.now ≡ Some turn
        → Followed turn result }
    ensures bounded { (all : ℕ) → KeepsBounds all stage.now result }
    ensures lines { KeepsLines stage.now result }
{
    let mut stage = *stage;
    match event {
        Event::Switched { .. } => {
            stage.switched = true;
            stage.drain = DrainState::Free;
            Some(stage)
        }
        _ => None,
    }
}
