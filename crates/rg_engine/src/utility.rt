// The utility, as its entries are booked.
//
// 1. One utility runs at a time. From its start on the log holds the bytes of its Switch record,
//    until it is over.
// 2. The event of a step is the utility's next. The stage follows the event, and the drain follows
//    the stage: it is asked, granted or given up with the entry that says so.
// 3. Nothing here touches a row or a record.
ghost use Rattle.std.specs.Prelude.{◌≡◌, Some, true, is_some};
ghost use Rattle.rg_model.specs.Claims.{least_holder};
ghost use Rattle.rg_model.specs.Turn.{turn_of};
ghost use Rattle.rg_rules.specs.Stage.Booked.{drain_kept};
ghost use Rattle.rg_rules.specs.Stage.Bounded.{SomeBounded};
ghost use Rattle.rg_rules.specs.Stage.NumbersOf.{numbers_of};
ghost use Rattle.rg_laws_utility.specs.TraceStage.Tending.{MayDrain, aside_for, is_plain};
ghost use Rattle.rg_model.specs.Utility.{starts_utility};
ghost use Rattle.rg_engine.specs.Utility.{started_count};
ghost use Rattle.rg_engine.specs.Shows.{IsShown};
ghost use Rattle.rg_engine.specs.Utility.{StartIs, StepsOn};

use crate::engine::Engine;
use rg_base::control::Answer;
use rg_base::copy::TableCopy;
use rg_base::options::{DrainState, Options};
use rg_feed::fold::item::Stage;
use rg_log::fault::ReserveFault;
use rg_rules::stage::follow::next_stage;
use rg_rules::stage::start::started;
use rg_rules::tally::changes::Changes;
use rg_stmt::event::Event;

/// The event of a control statement. The utility that it starts has this stage from then on.
pub fn start_utility(
    engine: &mut Engine,
    stage: &mut Option<Stage>,
    options: Options,
    copy: TableCopy,
    down: bool,
) -> Event
    requires free { stage.old ≡ None → engine.old.set_aside ≡ 0 }
    ensures { StartIs down stage.old options copy engine.old result stage.new engine.new }
{
    if down {
        return Event::StartDown;
    }
    if stage.is_some() {
        return Event::Active;
    }
    match engine.put_aside() {
        Ok(()) => {}
        Err(ReserveFault::LogFull { need, left }) => return Event::StartLogFull { need, left },
        Err(ReserveFault::NoMemory) => return Event::StartNoMemory,
    }
    let pages = engine.space.count();
    *stage = Some(started(options, pages));
    Event::Started {
        options,
        copy,
        pages,
    }
}

/// Whether the event says that a utility started.
pub fn is_started(event: &Event) -> bool
    ensures { result ≡ starts_utility event.now }
{
    matches!(event, Event::Started { .. })
}

/// Changes are counted from a start on.
pub fn count_from(changes: &mut Changes, started: bool)
    ensures { changes.new ≡ started_count started changes.old }
{
    if started {
        changes.start();
    }
}

// The drain of a stage. Where no utility runs there is none.
fn drain_of(stage: &Option<Stage>) -> DrainState
    ensures { result ≡ drain_kept stage.now }
{
    match stage {
        Some(stage) => stage.drain,
        None => DrainState::Free,
    }
}

impl Engine {
    // This drain is in force from now on. It is granted only where it was asked, and no session
    // holds a class that it covers.
    fn drain_to(&mut self, drain: DrainState)
        requires { MayDrain self.old.claims.drain
            (least_holder self.old.claims.drain self.old.claims.claims) drain }
        ensures { self.new
            ≡ record self.old { claims = record self.old.claims { drain = drain } } }
    {
        match drain {
            DrainState::Free => self.claims.undrain(),
            DrainState::Asked(what) => self.claims.ask(what),
            DrainState::Granted(_) => {
                if let DrainState::Asked(_) = self.claims.drain() {
                    match self.claims.granted() {
                        Ok(()) => {}
                        Err(_) => unreachable!(),
                    }
                }
            }
        }
    }

    /// A step of the running utility, whose stage this is, that is no switch. The answer is its
    /// stage from then on, or `None` where the utility is over.
    pub fn step_utility(
        &mut self,
        stage: &Stage,
        changes: u64,
        answer: &Answer,
        event: &Event,
    ) -> Option<Stage>
        requires shown { IsShown self.old }
        requires bounded { SomeBounded changes stage.now }
        requires drain { self.old.claims.drain ≡ stage.now.drain }
        requires set_aside { self.old.set_aside ≡ aside_for (Some stage.now) }
        requires next { is_plain (turn_of changes
            (least_holder self.old.claims.drain self.old.claims.claims) answer.now
            (numbers_of stage.now) stage.now.drain event.now) ≡ true }
        ensures { StepsOn self.old stage.entry.now changes answer.entry.now event.entry.now result
            self.new }
    {
        let next = next_stage(stage, answer, changes, event);
        self.drain_to(drain_of(&next));
        if next.is_none() {
            self.give_back_aside();
        }
        next
    }
}
