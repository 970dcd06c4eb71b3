// What the steps before the first iteration leave of a utility's numbers.
//
// 1. UNLOAD copies one more page with its rows.
// 2. RELOAD fills one more page with some of the rows that were copied.
// 3. SORT and BUILD take one more list or index. The last BUILD begins iteration 1.
// 4. A STOP in their place ends the utility.
ghost use Rattle.std.specs.Prelude.{◌≡◌, ◌+◌, ◌-◌, ◌<◌, ◌≤◌, ◌^◌, is_some, Some, true};
ghost use Rattle.rg_base.specs.declared.step.Step.TheVariants as steps;
ghost use Rattle.rg_model.specs.Turn.{Turn, step_of};
ghost use Rattle.rg_model.specs.Turn.{unload_turn, reload_turn, sort_turn, build_turn};
ghost use Rattle.rg_rules.specs.Stage.NumbersOf.{numbers_of};
ghost use Rattle.rg_rules.specs.Stage.Followed.{Followed, KeepsLines};
ghost use Rattle.rg_rules.specs.Stage.Bounded.{KeepsBounds, SomeBounded};

use rg_feed::fold::item::Stage;
use rg_stmt::event::Event;

/// The stage in the next iteration, which has all changes so far as its target.
pub(crate) fn iterate(stage: &Stage, all: u64) -> Stage
    requires few { stage.now.iteration + 1 < 2 ^ 64 }
    requires done { stage.now.done ≤ all }
    ensures { result ≡ record stage.now {
      iteration = stage.now.iteration + 1;
      target = all;
      size = all - stage.now.done;
    } }
{
    Stage {
        iteration: stage.iteration + 1,
        target: all,
        size: all - stage.done,
        ..*stage
    }
}

/// The stage after a step that copies a page.
pub(crate) fn unload(stage: &Stage, all: u64, event: &Event) -> Option<Stage>
    requires bounded { SomeBounded all stage.now }
    requires step { step_of (numbers_of stage.now) stage.now.drain ≡ steps.Unload }
    requires next { is_some (unload_turn (numbers_of stage.now) stage.now.drain event.now) ≡ true }
    ensures followed { (turn : Turn)
        → unload_turn (numbers_of stage.now) stage.now.drain event.now ≡ Some turn
        → Followed turn result }
    ensures bounded { KeepsBounds all stage.now result }
    ensures lines { KeepsLines stage.now result }
{
    let mut stage = *stage;
    match event {
        Event::Unload { page, rows } => {
            stage.copied = *page;
            stage.unloaded += u64::from(*rows);
            Some(stage)
        }
        _ => None,
    }
}

/// The stage after a step that fills a page.
pub(crate) fn reload(stage: &Stage, all: u64, event: &Event) -> Option<Stage>
    requires bounded { SomeBounded all stage.now }
    requires step { step_of (numbers_of stage.now) stage.now.drain ≡ steps.Reload }
    requires next { is_some (reload_turn (numbers_of stage.now) stage.now.drain event.now) ≡ true }
    ensures followed { (turn : Turn)
        → reload_turn (numbers_of stage.now) stage.now.drain event.now ≡ Some turn
        → Followed turn result }
    ensures bounded { KeepsBounds all stage.now result }
    ensures lines { KeepsLines stage.now result }
{
    let mut stage = *stage;
    match event {
        Event::Reload { page, rows } => {
            // The page is no less than the pages filled.
            let _page = *page;
            stage.filled += 1;
            stage.reloaded += u64::from(*rows);
            Some(stage)
        }
        _ => None,
    }
}

/// The stage after a step that sorts a list.
pub(crate) fn sort(stage: &Stage, all: u64, event: &Event) -> Option<Stage>
    requires bounded { SomeBounded all stage.now }
    requires step { step_of (numbers_of stage.now) stage.now.drain ≡ steps.Sort }
    requires next { is_some (sort_turn (numbers_of stage.now) stage.now.drain event.now) ≡ true }
    ensures followed { (turn : Turn)
        → sort_turn (numbers_of stage.now) stage.now.drain event.now ≡ Some turn
        → Followed turn result }
    ensures bounded { KeepsBounds all stage.now result }
    ensures lines { KeepsLines stage.now result }
{
    let mut stage = *stage;
    match event {
        Event::Sort(_) => {
            stage.sorted += 1;
            Some(stage)
        }
        _ => None,
    }
}

/// The stage after a step that builds an index.
pub(crate) fn build(stage: &Stage, all: u64, event: &Event) -> Option<Stage>
    requires bounded { SomeBounded all stage.now }
    requires step { step_of (numbers_of stage.now) stage.now.drain ≡ steps.Build }
    requires next { is_some
        (build_turn all (numbers_of stage.now) stage.now.drain event.now) ≡ true }
    ensures followed { (turn : Turn)
        → build_turn all (numbers_of stage.now) stage.now.drain event.now ≡ Some turn
        → Followed turn result }
    ensures bounded { KeepsBounds all stage.now result }
    ensures lines { KeepsLines stage.now result }
{
    let mut stage = *stage;
    match event {
        Event::Build(_) if stage.built == 2 => {
            stage.built = 3;
            Some(iterate(&stage, all))
        }
        Event::Build(_) => {
            stage.built += 1;
            Some(stage)
        }
        _ => None,
    }
}
