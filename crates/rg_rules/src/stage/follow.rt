// How an entry of the utility changes its numbers.
//
// 1. The entry that comes after the switch is the last.
// 2. Before the switch the operator is obeyed first: TERM ends the utility, and ALTER changes the
//    options that this entry is made by.
// 3. Then the step that the numbers name decides what the entry leaves.
ghost use Rattle.std.specs.Prelude.{◌≡◌, is_some, Option, Some, true};
ghost use Rattle.rg_base.specs.declared.session.Session.{Session as SessionOf};
ghost use Rattle.rg_model.specs.Turn.{Turn, step_of, turn_at, turn_of};
ghost use Rattle.rg_rules.specs.Stage.NumbersOf.{numbers_of};
ghost use Rattle.rg_rules.specs.Stage.Followed.{Followed, KeepsLines};
ghost use Rattle.rg_rules.specs.Stage.Bounded.{KeepsBounds, SomeBounded};

use crate::stage::copying::{build, reload, sort, unload};
use crate::stage::log::{last, log, switch, wait, write};
use crate::stage::step::{is_terminated, step_for, with_alter};
use rg_base::control::Answer;
use rg_base::step::Step;
use rg_feed::fold::item::Stage;
use rg_stmt::event::Event;

// The stage after an entry of the step that the numbers name.
fn follow_step(stage: &Stage, answer: &Answer, all: u64, event: &Event) -> Option<Stage>
    requires bounded { SomeBounded all stage.now }
    requires next { (covered : Option SessionOf) × (is_some
        (turn_at (step_of (numbers_of stage.now) stage.now.drain) all covered answer.now
        (numbers_of stage.now) stage.now.drain event.now) ≡ true) }
    ensures followed { (covered : Option SessionOf) (turn : Turn)
        → turn_at (step_of (numbers_of stage.entry.now) stage.entry.now.drain) all covered
        answer.entry.now (numbers_of stage.entry.now) stage.entry.now.drain event.entry.now
        ≡ Some turn
        → Followed turn result }
    ensures bounded { KeepsBounds all stage.entry.now result }
    ensures lines { KeepsLines stage.entry.now result }
{
    match step_for(stage) {
        Step::Unload => unload(stage, all, event),
        Step::Reload => reload(stage, all, event),
        Step::Sort => sort(stage, all, event),
        Step::Build => build(stage, all, event),
        Step::Log => log(stage, answer, all, event),
        Step::Wait(asked) => wait(stage, answer, all, asked, event),
        Step::Last => last(stage, all, event),
        Step::Write(granted) => write(stage, answer, granted, event),
        Step::Switch => switch(stage, event),
        Step::End => None,
    }
}

/// The stage after an entry of the utility with this event and the operator's answer, or `None`
/// where the utility is over with it. `all` are the changes so far. The event must be the
/// utility's next, with some session or none in the drain's way.
pub fn next_stage(stage: &Stage, answer: &Answer, all: u64, event: &Event) -> Option<Stage>
    requires bounded { SomeBounded all stage.now }
    requires next { (covered : Option SessionOf) × (is_some
        (turn_of all covered answer.now (numbers_of stage.now) stage.now.drain event.now)
        ≡ true) }
    ensures followed { (covered : Option SessionOf) (turn : Turn)
        → turn_of all covered answer.entry.now (numbers_of stage.entry.now)
        stage.entry.now.drain event.entry.now ≡ Some turn
        → Followed turn result }
    ensures bounded { KeepsBounds all stage.entry.now result }
    ensures lines { KeepsLines stage.entry.now result }
{
    if stage.switched || is_terminated(&answer.command) {
        return None;
    }
    follow_step(&with_alter(stage, &answer.command), answer, all, event)
}
