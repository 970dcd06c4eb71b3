// The event of a step.
//
// 1. After the switch the utility ends, whatever the operator wants.
// 2. Before it the operator's command comes first: TERM ends the utility, and ALTER changes its
//    options.
// 3. Then the stage decides what the step makes. An event here is one of a list, an index, changes or
//    a drain; the other steps make theirs.
// 4. LOG and LAST take as many changes as they may. Where they cannot be made, for want of room or
//    of memory, the utility stops.
// 5. The steps that copy or fill a page, write the new copy, or switch to it say themselves what
//    became of it.
// 6. RELOAD tells the page that the packer has filled, which is the next one. Where the other copy
//    may not have that, with the empty one that is due after it, the utility stops.
ghost use Rattle.std.specs.Prelude.{◌≡◌, ◌⊎◌, ◌≤◌, false, true, Err, IfSome, IsNone};
ghost use Rattle.rg_model.specs.Turn.{alter, step_of, turn_at, turn_of};
ghost use Rattle.rg_phase.specs.Step.{is_device_stop};
ghost use Rattle.rg_phase.specs.Working.{IsEventOrStop, IsOver, IsWork, MakesStep, is_filling};
ghost use Rattle.rg_phase.specs.Working.{reload_of, takes};
ghost use Rattle.rg_shadow.specs.declared.fault.ShadowFault.TheVariants.{NoSpace};
ghost use Rattle.rg_rules.specs.Stage.NumbersOf.{numbers_of};
ghost use Rattle.rg_laws_utility.specs.TraceStage.Tending.{is_booked, is_plain};

use rg_base::control::Answer;
use rg_base::session::Session;
use rg_base::step::Step;
use rg_base::verdict::StopReason;
use rg_feed::fold::item::Stage;
use rg_reload::fault::ReloadFault;
use rg_reload::packer::Filled;
use rg_rules::stage::events::{
    build_event, last_batch, last_event, log_batch, log_event, sort_event, wait_event,
};
use rg_rules::stage::step::{is_terminated, step_for, with_alter};
use rg_shadow::fault::ShadowFault;
use rg_stmt::event::Event;

// The event of the step that the stage decides, which has the operator's ALTER in it.
fn step_event(stage: &Stage, all: u64, holder: Option<Session>, answer: &Answer) -> Event
    requires done { stage.now.done ≤ stage.now.target }
    requires target { stage.now.target ≤ all }
    requires work { IsWork (step_of (numbers_of stage.now) stage.now.drain) }
    ensures booked { is_booked result ≡ true }
    ensures device { is_device_stop result ≡ false }
    ensures unfilled { is_filling result ≡ false }
    ensures next { let u = numbers_of stage.entry.now in let drain = stage.entry.now.drain in
        is_plain (turn_at (step_of u drain) all holder answer.entry.now u drain result) ≡ true }
{
    match step_for(stage) {
        Step::Sort => sort_event(stage),
        Step::Build => build_event(stage),
        Step::Log => log_event(stage, all, log_batch(stage), answer),
        Step::Wait(asked) => wait_event(stage, asked, holder, answer),
        Step::Last => last_event(stage, all, last_batch(stage, all)),
        Step::Unload | Step::Reload | Step::Write(_) | Step::Switch | Step::End => unreachable!(),
    }
}

/// The event of the next step of a utility, where `all` are the changes so far and `holder` is the
/// least session that is in the drain's way.
pub fn next_event(stage: &Stage, all: u64, holder: Option<Session>, answer: &Answer) -> Event
    requires done { stage.now.done ≤ stage.now.target }
    requires target { stage.now.target ≤ all }
    requires work { IsOver stage.now answer.now ⊎ IsWork (step_of
        (alter (numbers_of stage.now) answer.now.command) stage.now.drain) }
    ensures booked { is_booked result ≡ true }
    ensures device { is_device_stop result ≡ false }
    ensures unfilled { is_filling result ≡ false }
    ensures next { is_plain (turn_of all holder answer.entry.now (numbers_of stage.entry.now)
        stage.entry.now.drain result) ≡ true }
{
    if stage.switched {
        return Event::Ended;
    }
    if is_terminated(&answer.command) {
        return Event::Stop(StopReason::Term);
    }
    step_event(&with_alter(stage, &answer.command), all, holder, answer)
}

/// The step that a utility makes, or none where it has switched or the operator ends it.
pub fn step_now(stage: &Stage, answer: &Answer) -> Option<Step>
    ensures step { IfSome result (MakesStep stage.entry.now answer.entry.now) }
    ensures none { IsNone result → IsOver stage.entry.now answer.entry.now }
{
    if stage.switched || is_terminated(&answer.command) {
        return None;
    }
    Some(step_for(&with_alter(stage, &answer.command)))
}

/// The event, or a stop where what goes with it could not be made: STOP NOSPACE where the new copy
/// has no room for a change, else STOP NOMEMORY.
pub fn or_stop(event: Event, made: Result<(), ShadowFault>) -> Event
    requires space { made ≡ Err NoSpace → takes event ≡ true }
    ensures { IsEventOrStop event made result }
{
    match made {
        Ok(()) => event,
        Err(ShadowFault::NoSpace) => Event::Stop(StopReason::NoSpace),
        Err(ShadowFault::NoMemory) => Event::Stop(StopReason::NoMemory),
    }
}

/// RELOAD of the page that was filled, or the stop where none could be: STOP NOSPACE where the new
/// copy may have no page more, else STOP NOMEMORY.
pub fn reload_event(made: Result<Filled, ReloadFault>) -> Event
    ensures { result ≡ reload_of made }
{
    match made {
        Ok(Filled { page, rows }) => Event::Reload { page, rows },
        Err(ReloadFault::NoSpace { .. }) => Event::Stop(StopReason::NoSpace),
        Err(ReloadFault::NoMemory) => Event::Stop(StopReason::NoMemory),
    }
}
