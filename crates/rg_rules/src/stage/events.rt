// The event of the utility's next step, where it is known what the step did.
//
// 1. A part of an iteration is at most 64 changes. Before the iteration's end its verdict is MORE;
//    at the end a verdict decides what follows.
// 2. A drain that was asked waits for the least session that holds a class that it covers, or is
//    granted, or is given up, or the utility stops.
// 3. A part of the last iteration is at most 64 of all changes that are left.
ghost use Rattle.std.specs.Prelude.{◌≡◌, ◌+◌, ◌-◌, ◌<◌, ◌≤◌, ℕ, is_some, min, None, Option, true};
ghost use Rattle.rg_base.specs.declared.control.Answer.{Answer as AnswerOf};
ghost use Rattle.rg_base.specs.declared.session.Session.{Session as SessionOf};
ghost use Rattle.rg_base.specs.declared.step.Step.TheVariants as steps;
ghost use Rattle.rg_model.specs.Turn.{nth_which, log_verdict, turn_at};
ghost use Rattle.rg_stmt.specs.declared.event.Event.TheVariants as events;
ghost use Rattle.rg_model.specs.Verdict.{drain_verdict};
ghost use Rattle.rg_rules.specs.Stage.Events.{drain_event};
ghost use Rattle.rg_rules.specs.Stage.NumbersOf.{numbers_of};

use crate::drain::decide_drain;
use crate::iteration::decide_iteration;
use crate::numbers::Numbers;
use rg_base::control::Answer;
use rg_base::options::DrainFor;
use rg_base::session::Session;
use rg_base::verdict::{DrainVerdict, Verdict};
use rg_base::which::Which;
use rg_feed::fold::item::Stage;
use rg_stmt::event::Event;

/// The page that is copied next.
pub fn next_page(stage: &Stage) -> u32
    requires { stage.now.copied < stage.now.pages }
    ensures { result ≡ stage.now.copied + 1 }
{
    let stage = *stage;
    stage.copied + 1
}

fn nth_which(n: u8) -> Which
    ensures { result ≡ nth_which n }
{
    match n {
        0 => Which::Key,
        1 => Which::Clus,
        _ => Which::Cat,
    }
}

/// A list is sorted.
pub fn sort_event(stage: &Stage) -> Event
    ensures event { result ≡ events.Sort (nth_which stage.now.sorted) }
    ensures next { (all : ℕ) (covered : Option SessionOf) (answer : AnswerOf) → is_some
        (turn_at steps.Sort all covered answer (numbers_of stage.now) stage.now.drain result)
        ≡ true }
{
    Event::Sort(nth_which(stage.sorted))
}

/// An index is built.
pub fn build_event(stage: &Stage) -> Event
    ensures event { result ≡ events.Build (nth_which stage.now.built) }
    ensures next { (all : ℕ) (covered : Option SessionOf) (answer : AnswerOf) → is_some
        (turn_at steps.Build all covered answer (numbers_of stage.now) stage.now.drain result)
        ≡ true }
{
    Event::Build(nth_which(stage.built))
}

// At most 64 changes.
fn batch(left: u64) -> u8
    ensures { result ≡ min 64 left }
{
    if left < 64 { left as u8 } else { 64 }
}

/// How many changes the next part of the iteration takes.
pub fn log_batch(stage: &Stage) -> u8
    ensures { result ≡ min 64 (stage.now.target - stage.now.done) }
{
    batch(stage.target.saturating_sub(stage.done))
}

/// How many changes the next part of the last iteration takes, where `all` are the changes so far.
pub fn last_batch(stage: &Stage, all: u64) -> u8
    ensures { result ≡ min 64 (all - stage.now.done) }
{
    batch(all.saturating_sub(stage.done))
}

// What the decisions look at.
fn numbers(stage: &Stage, left: u64, covered: Option<Session>) -> Numbers
    ensures { result ≡ record {
      left = left;
      size = stage.now.size;
      asked = stage.now.asked;
      gave_up = stage.now.gave_up;
      message = stage.now.message;
      failed = stage.now.failed;
      covered = covered;
    } }
{
    Numbers {
        left,
        size: stage.size,
        asked: stage.asked,
        gave_up: stage.gave_up,
        message: stage.message,
        failed: stage.failed,
        covered,
    }
}

// What comes after a part of an iteration that leaves so many changes.
fn verdict_of(stage: &Stage, left: u64, done: u64, answer: &Answer) -> Verdict
    ensures { result
        ≡ log_verdict left answer.entry.now (record (numbers_of stage.entry.now) { done = done }) }
{
    if done == stage.target {
        decide_iteration(&stage.options, &numbers(stage, left, None), answer)
    } else {
        Verdict::More
    }
}

/// So many changes were taken in an iteration, where `all` are the changes so far.
pub fn log_event(stage: &Stage, all: u64, took: u8, answer: &Answer) -> Event
    requires took { took ≡ min 64 (stage.now.target - stage.now.done) }
    requires done { stage.now.done ≤ stage.now.target }
    requires target { stage.now.target ≤ all }
    ensures event { let left = all - (stage.entry.now.done + took) in result
        ≡ events.Log stage.entry.now.iteration took left
        (log_verdict left answer.entry.now
        (record (numbers_of stage.entry.now) { done = stage.entry.now.done + took })) }
    ensures next { (covered : Option SessionOf) → is_some
        (turn_at steps.Log all covered answer.entry.now (numbers_of stage.entry.now)
        stage.entry.now.drain result) ≡ true }
{
    let done = stage.done + u64::from(took);
    let left = all - done;
    Event::Log {
        iteration: stage.iteration,
        took,
        left,
        verdict: verdict_of(stage, left, done, answer),
    }
}

/// The drain that was asked is looked at; `holder` is the least session that holds a class that it
/// covers.
pub fn wait_event(stage: &Stage, asked: DrainFor, holder: Option<Session>, answer: &Answer) -> Event
    ensures event { let u = numbers_of stage.entry.now in result ≡ drain_event asked u.failed
        (drain_verdict u.options u.asked u.failed holder answer.entry.now.now
        answer.entry.now.estimate) }
    ensures next { (all : ℕ) → is_some
        (turn_at (steps.Wait asked) all holder answer.entry.now (numbers_of stage.entry.now)
        stage.entry.now.drain result) ≡ true }
{
    // No more than 255, and a try is given up only below it.
    let _retry = stage.options.retry;
    match decide_drain(&stage.options, &numbers(stage, 0, holder), answer) {
        DrainVerdict::Wait(session) => Event::Wait(session),
        DrainVerdict::Granted => Event::Granted(asked),
        DrainVerdict::GiveUp => Event::GiveUp(stage.failed + 1),
        DrainVerdict::Stop(reason) => Event::Stop(reason),
    }
}

/// So many changes were taken under the drain, where `all` are the changes so far.
pub fn last_event(stage: &Stage, all: u64, took: u8) -> Event
    requires took { took ≡ min 64 (all - stage.now.done) }
    requires done { stage.now.done ≤ all }
    ensures event { result ≡ events.Last took (all - (stage.now.done + took)) }
    ensures next { (covered : Option SessionOf) (answer : AnswerOf) → is_some
        (turn_at steps.Last all covered answer (numbers_of stage.now) stage.now.drain result)
        ≡ true }
{
    let done = stage.done + u64::from(took);
    Event::Last {
        took,
        left: all - done,
    }
}
