// What the next step makes.
//
// 1. The pages are copied, then the new copy is filled, then its three lists are sorted, then its
//    three indexes are built. After that the drain decides.
// 2. Without a drain the step takes changes in an iteration. A drain that was asked is looked at.
// 3. Under a drain that is granted the last changes are taken, then the new copy is written, then
//    the copies are switched. Under the drain for WRITERS the drain for ALL is asked between.
ghost use Rattle.std.specs.Prelude.{◌≡◌};
ghost use Rattle.rg_model.specs.Turn.{alter, is_term, step_of};
ghost use Rattle.rg_rules.specs.Stage.NumbersOf.{numbers_of};

use rg_base::control::Command;
use rg_base::options::{DrainState, Options};
use rg_base::step::Step;
use rg_feed::fold::item::Stage;

/// What the next step of a utility makes that has not switched. The operator's ALTER is in the
/// stage already.
pub fn step_for(stage: &Stage) -> Step
    ensures { result ≡ step_of (numbers_of stage.now) stage.now.drain }
{
    if stage.copied < stage.pages {
        return Step::Unload;
    }
    if stage.reloaded < stage.unloaded {
        return Step::Reload;
    }
    if stage.sorted < 3 {
        return Step::Sort;
    }
    if stage.built < 3 {
        return Step::Build;
    }
    match stage.drain {
        DrainState::Free => Step::Log,
        DrainState::Asked(drain) => Step::Wait(drain),
        DrainState::Granted(_) if !stage.last => Step::Last,
        DrainState::Granted(drain) if !stage.written => Step::Write(drain),
        DrainState::Granted(_) => Step::Switch,
    }
}

/// The stage with the operator's ALTER in its options.
pub fn with_alter(stage: &Stage, command: &Command) -> Stage
    ensures numbers { numbers_of result ≡ alter (numbers_of stage.now) command.now }
    ensures rest { result ≡ record stage.now { options = result.options } }
{
    match command {
        Command::Alter(change) => {
            let options = Options {
                maxro: change.maxro.unwrap_or(stage.options.maxro),
                longlog: change.longlog.unwrap_or(stage.options.longlog),
                delay: change.delay.unwrap_or(stage.options.delay),
                deadline: change.deadline.unwrap_or(stage.options.deadline),
                ..stage.options
            };
            Stage { options, ..*stage }
        }
        Command::Nothing | Command::Term => *stage,
    }
}

/// Whether the operator ends the utility.
pub fn is_terminated(command: &Command) -> bool
    ensures { result ≡ is_term command.now }
{
    matches!(command, Command::Term)
}
