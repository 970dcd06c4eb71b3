// A step of the utility.
//
// 1. What the desk has sent is received first, and the room for the entry is taken. Where there is
//    none, no entry is made and nobody is asked.
// 2. Where no utility runs, or the desk is down, the entry says so, and nobody is asked either.
// 3. Else the operator is asked once, and told how many changes are left. The entry has the answer.
// 4. What the step makes beside its entry comes between the two. Where that fails, the entry says
//    why the utility stops.
// 5. Pages are copied first. With RELOAD the rows of all copies are packed, in clustering order.
//    Before the first list is sorted the new copy is loaded. In LOG and LAST the next changes are
//    made in it, after those that the stage counts.
// 6. It is written whole, with a sync at the end, before WRITTEN is said, once no change is left.
//    The desk keeps it for the switch. At GIVEUP it is taken back. Under a drain nobody writes, so
//    no change is left then and the log has no record more at the switch.
// 7. An entry tells what was made: RELOAD the rows of its page, SORT and BUILD their index, LOG and
//    LAST how many changes.
// 8. What is made is what the numbers of the utility say. So no step asks for it, and what is made
//    fails for want of memory or space alone.
ghost use Rattle.std.specs.Prelude.{◌≡◌, ◌≤◌, ◌+◌, ℕ, false, true, Some, None, Err, OnErr, OnOk};
ghost use Rattle.std.specs.Prelude.{IfErr, IfOk, length};
ghost use Rattle.rg_base.specs.declared.step.Step.TheVariants as steps;
ghost use Rattle.rg_desk.specs.Desk.{HasDrain, IsTask};
ghost use Rattle.rg_feed.specs.Fold.Fold.{changes, copied_rows, since_begin};
ghost use Rattle.rg_feed.specs.Fold.Lawful.{Lawful};
ghost use Rattle.rg_image.specs.Rules.{copy_capacity};
ghost use Rattle.rg_model.specs.Turn.{nth_which, step_of, turn_of};
ghost use Rattle.rg_outside.specs.Faults.{Rose};
ghost use Rattle.rg_phase.specs.Drafted.{IsDraftOf, IsFullOf, IsPackingOf};
ghost use Rattle.rg_phase.specs.Made.{Drafts, EventMakes, Hears, IsAsMade, IsAt, IsFilled};
ghost use Rattle.rg_phase.specs.Made.{Packs, TaskMakes, Works, after_build, after_reload, after_sort};
ghost use Rattle.rg_phase.specs.Made.{StepMakes, after_back, after_take, after_write, numbers_in};
ghost use Rattle.rg_phase.specs.declared.made.Made.{Made};
ghost use Rattle.rg_phase.specs.Step.{Acts, KeepsWritten, Stepped};
ghost use Rattle.rg_phase.specs.Working.{AreSidesToSwitch, IsDueAt, IsOver, MakesStep, Writes};
ghost use Rattle.rg_phase.specs.Working.{IsIndexed, IsNextPage, IsWork, is_filling, takes};
ghost use Rattle.rg_phase.specs.declared.made.Made.TheVariants.{Nothing};
ghost use Rattle.rg_laws_utility.specs.CopyWeight.Weighed.{weigh_feed};
ghost use Rattle.rg_laws_utility.specs.TraceStage.Tending.{IsForAll, is_booked, is_plain};
ghost use Rattle.rg_base.specs.declared.options.DrainState.{DrainState};
ghost use Rattle.rg_rules.specs.Stage.NumbersOf.{numbers_of};
ghost use Rattle.rg_shadow.specs.declared.drafts.IndexStage.TheVariants.{Sorted, Built};
ghost use Rattle.rg_shadow.specs.declared.fault.ShadowFault.TheVariants.{NoSpace};
ghost use Rattle.rg_base.specs.Copies.{other_of};

use crate::draft::{Draft, Packing};
use crate::made::Made;
use crate::next::{next_event, or_stop, reload_event, step_now};
use rg_base::no_memory::NoMemory;
use rg_base::options::DrainFor;
use rg_base::step::Step;
use rg_base::verdict::StopReason;
use rg_base::which::Which;
use rg_desk::desk::Desk;
use rg_desk::task::Task;
use rg_engine::prepared::PrepareCause;
use rg_feed::inlet::FeedIn;
use rg_outside::counted::Counts;
use rg_outside::operator::Operator;
use rg_reload::fault::ReloadFault;
use rg_reload::packer::Filled;
use rg_rules::stage::events::next_page;
use rg_shadow::fault::ShadowFault;
use rg_stmt::event::Event;
use rg_stmt::layout::Sides;
use std::alloc::Global;
use std::mem;

/// What a utility has made so far.
#[derive(Drop)]
pub struct Reorg {
    pub made: Made,
}

impl Reorg {
    /// A utility that has just started, or none.
    pub fn new() -> Reorg
        ensures { result.made ≡ Nothing }
    {
        Reorg {
            made: Made::Nothing,
        }
    }

    /// What was made is dropped, also what the desk keeps of it. So it is where another utility has
    /// started.
    pub fn forget<V: Counts, O: Operator>(&mut self, desk: &mut Desk<V, O>)
        ensures made { self.new.made ≡ Nothing }
        ensures desk { desk.new ≡ record desk.old { shadow = None } }
    {
        let _ = desk.take_shadow();
        self.made = Made::Nothing;
    }

    /// Makes one entry: that of the next step of the utility, or IDLE where none runs, or DOWN
    /// where the desk is down. What the desk has sent is received first. If there is no memory for
    /// that, or for the entry, the call is refused: nobody was asked, and the desk is as it was.
    pub fn step<V: Counts, O: Operator>(
        &mut self,
        alloc: Global,
        desk: &mut Desk<V, O>,
        inlet: &mut FeedIn,
    ) -> Result<(), NoMemory>
        requires kept { desk.old.kept ≡ None }
        requires ring { desk.old.ring ≡ inlet.old.ring }
        requires works { Works V.seen self.old.made inlet.old desk.old }
        ensures stepped { OnOk result (Stepped V.seen
            O.answers O.last desk.old self.new.made inlet.new.taken desk.new) }
        ensures ring { desk.new.ring ≡ inlet.new.ring }
        ensures works { Works V.seen self.new.made inlet.new desk.new }
        ensures err { OnErr result (desk.new ≡ desk.old) }
    {
        match desk.begin_step(inlet)? {
            None => Ok(()),
            Some(task) => {
                self.act(alloc, desk, inlet, &task);
                Ok(())
            }
        }
    }

    // Makes the entry of a step of the utility that runs.
    fn act<V: Counts, O: Operator>(
        &mut self,
        alloc: Global,
        desk: &mut Desk<V, O>,
        inlet: &mut FeedIn,
        task: &Task,
    )
        requires begun { IsTask V.seen desk.old task.now }
        requires hears { Hears desk.old inlet.old }
        requires works { Works V.seen self.old.made inlet.old desk.old }
        ensures acts { Acts V.seen desk.old task.now.answer self.new.made inlet.new.taken desk.new }
        ensures ring { inlet.new.ring ≡ inlet.old.ring }
        ensures works { Works V.seen self.new.made inlet.new desk.new }
    {
        match step_now(&task.stage, &task.answer) {
            None => end(desk, task),
            Some(Step::Unload) => self.unload(desk, inlet, task),
            Some(Step::Reload) => self.reload(alloc, desk, inlet, task),
            Some(Step::Write(granted)) => self.write(alloc, desk, inlet, task, granted),
            Some(Step::Switch) => self.switch(desk, inlet, task),
            Some(_) => self.work(alloc, desk, inlet, task),
        }
    }

    // Makes the entry of UNLOAD, and sends the copy of the page. Nothing is made yet.
    fn unload<V: Counts, O: Operator>(&self, desk: &mut Desk<V, O>, inlet: &FeedIn, task: &Task)
        requires begun { IsTask V.seen desk.old task.now }
        requires step { MakesStep task.now.stage task.now.answer steps.Unload }
        requires hears { Hears desk.old inlet.now }
        requires works { Works V.seen self.now.made inlet.now desk.old }
        ensures acts { Acts V.seen desk.old task.now.answer self.now.made inlet.now.taken desk.new }
        ensures works { Works V.seen self.now.made inlet.now desk.new }
    {
        let page = next_page(&task.stage);
        match desk.feed_page(page, task.answer) {
            Ok(_) => {}
            Err(_) => desk.book(Event::Stop(StopReason::NoMemory), Some(task.answer)),
        }
    }

    // Makes the entry of RELOAD, and fills the page.
    fn reload<V: Counts, O: Operator>(
        &mut self,
        alloc: Global,
        desk: &mut Desk<V, O>,
        inlet: &mut FeedIn,
        task: &Task,
    )
        requires begun { IsTask V.seen desk.old task.now }
        requires step { MakesStep task.now.stage task.now.answer steps.Reload }
        requires hears { Hears desk.old inlet.old }
        requires works { Works V.seen self.old.made inlet.old desk.old }
        ensures acts { Acts V.seen desk.old task.now.answer self.new.made inlet.new.taken desk.new }
        ensures inlet { inlet.new ≡ inlet.old }
        ensures works { Works V.seen self.new.made inlet.new desk.new }
    {
        let filled = self.fill(alloc, inlet, task);
        let event = reload_event(filled);
        desk.book(event, Some(task.answer));
    }

    // Makes the entry of a step that calls no volume and fills no page.
    fn work<V: Counts, O: Operator>(
        &mut self,
        alloc: Global,
        desk: &mut Desk<V, O>,
        inlet: &mut FeedIn,
        task: &Task,
    )
        requires begun { IsTask V.seen desk.old task.now }
        requires unswitched { task.now.stage.switched ≡ false }
        requires work { IsWork (step_of (numbers_in task.now) task.now.stage.drain) }
        requires hears { Hears desk.old inlet.old }
        requires works { Works V.seen self.old.made inlet.old desk.old }
        ensures acts { Acts V.seen desk.old task.now.answer self.new.made inlet.new.taken desk.new }
        ensures ring { inlet.new.ring ≡ inlet.old.ring }
        ensures works { Works V.seen self.new.made inlet.new desk.new }
    {
        let event = next_event(&task.stage, task.changes, task.holder, &task.answer);
        let made = self.make(alloc, desk, inlet, task, &event);
        desk.book(or_stop(event, made), Some(task.answer));
    }

    // Makes what goes with an event: a list, an index, or changes. At GIVEUP the new copy is taken
    // back.
    fn make<V: Counts, O: Operator>(
        &mut self,
        alloc: Global,
        desk: &mut Desk<V, O>,
        inlet: &mut FeedIn,
        task: &Task,
        event: &Event,
    ) -> Result<(), ShadowFault>
        requires begun { IsTask V.seen desk.old task.now }
        requires unswitched { task.now.stage.switched ≡ false }
        requires booked { is_booked event.now ≡ true }
        requires unfilled { is_filling event.now ≡ false }
        requires next { is_plain (turn_of task.now.changes task.now.holder task.now.answer
            (numbers_of task.now.stage) task.now.stage.drain event.now) ≡ true }
        requires hears { Hears desk.old inlet.old }
        requires made { TaskMakes task.now self.old.made desk.old.shadow inlet.old }
        ensures desk { desk.new ≡ record desk.old { shadow = desk.new.shadow } }
        ensures ring { inlet.new.ring ≡ inlet.old.ring }
        ensures items { inlet.new.items ≡ inlet.old.items }
        ensures made { OnOk result (EventMakes task.now event.now self.new.made desk.new.shadow
            inlet.new) }
        ensures told { OnOk result (IsAsMade self.new.made (Some task.now.stage) inlet.new.taken
            event.now) }
        ensures full { IfErr result (IsFullOf
            (copy_capacity (V.seen desk.old.volume).capacities (other_of desk.old.copy))
            (weigh_feed desk.old.feed)) }
        ensures space { result ≡ Err NoSpace → takes event.now ≡ true }
    {
        match event {
            Event::Sort(which) => {
                self.sort(alloc, inlet, task, *which)?;
                Ok(())
            }
            Event::Build(which) => {
                self.build(inlet, task, *which)?;
                Ok(())
            }
            Event::Log { took, .. } => self.take(alloc, inlet, task, *took),
            Event::Last { took, .. } => self.take(alloc, inlet, task, *took),
            Event::GiveUp(_) => {
                self.take_back(desk, inlet, task);
                Ok(())
            }
            _ => Ok(()),
        }
    }
}

// What is made without a desk. All that it has sent is received.
impl Reorg {
    // What is packed so far: the packer of the rows of all copies, where nothing is made yet. No
    // change was taken.
    fn take_packing(
        &mut self,
        alloc: Global,
        inlet: &FeedIn,
        task: &Task,
    ) -> Result<Packing, NoMemory>
        requires lawful { Lawful (since_begin inlet.now.items) }
        requires made { TaskMakes task.now self.old.made None inlet.now }
        requires copied { (numbers_in task.now).pages ≤ (numbers_in task.now).copied }
        requires unsorted { (numbers_in task.now).sorted ≡ 0 }
        ensures packs { IfOk result (λ p. Packs (numbers_in task.now) task.now.copy
            task.now.capacity p.packer) }
        ensures packing { IfOk result (λ p. IsPackingOf p.options p.packer inlet.now.items
            inlet.now.taken) }
    {
        match mem::replace(&mut self.made, Made::Nothing) {
            Made::Nothing => Packing::begin(alloc, inlet, task),
            Made::Packing(packing) => Ok(packing),
            Made::Drafted(_) => unreachable!(),
            Made::Written(_) => unreachable!(),
        }
    }

    // Fills the next page of the new copy. What is packed is dropped where that fails.
    fn fill(&mut self, alloc: Global, inlet: &FeedIn, task: &Task) -> Result<Filled, ReloadFault>
        requires lawful { Lawful (since_begin inlet.now.items) }
        requires rows { length (copied_rows (since_begin inlet.now.items))
            ≡ (numbers_in task.now).unloaded }
        requires made { TaskMakes task.now self.old.made None inlet.now }
        requires due { IsDueAt steps.Reload (numbers_in task.now) task.now.stage.drain }
        ensures made { IfOk result (λ filled. StepMakes
            (after_reload filled.rows (numbers_in task.now)) task.now.stage.drain task.now.copy
            task.now.capacity self.new.made None inlet.now) }
        ensures filled { IfOk result
            (λ filled. IsFilled task.now.stage.options self.new.made filled.page filled.rows) }
        ensures page { IsNextPage task.now.stage task.now.capacity result }
    {
        let mut packing = self.take_packing(alloc, inlet, task)?;
        let filled = packing.fill()?;
        self.made = Made::Packing(packing);
        Ok(filled)
    }

    // The draft of the new copy, which is loaded before its first list is sorted.
    fn take_draft(&mut self, alloc: Global, inlet: &FeedIn, task: &Task) -> Result<Draft, NoMemory>
        requires lawful { Lawful (since_begin inlet.now.items) }
        requires rows { length (copied_rows (since_begin inlet.now.items))
            ≡ (numbers_in task.now).unloaded }
        requires made { TaskMakes task.now self.old.made None inlet.now }
        requires due { IsDueAt steps.Sort (numbers_in task.now) task.now.stage.drain }
        ensures drafts { IfOk result (λ d. Drafts (numbers_in task.now) task.now.copy
            task.now.capacity d.options d.shadow) }
        ensures draft { IfOk result (λ d. IsDraftOf d.options d.shadow inlet.now.items
            inlet.now.taken) }
    {
        match mem::replace(&mut self.made, Made::Nothing) {
            Made::Nothing => Packing::begin(alloc, inlet, task)?.load(alloc, inlet),
            Made::Packing(packing) => packing.load(alloc, inlet),
            Made::Drafted(draft) => Ok(draft),
            Made::Written(_) => unreachable!(),
        }
    }

    // Sorts a list of the new copy. The draft is dropped where that fails.
    fn sort(
        &mut self,
        alloc: Global,
        inlet: &FeedIn,
        task: &Task,
        which: Which,
    ) -> Result<(), NoMemory>
        requires lawful { Lawful (since_begin inlet.now.items) }
        requires rows { length (copied_rows (since_begin inlet.now.items))
            ≡ (numbers_in task.now).unloaded }
        requires made { TaskMakes task.now self.old.made None inlet.now }
        requires due { IsDueAt steps.Sort (numbers_in task.now) task.now.stage.drain }
        requires which { which ≡ nth_which (numbers_in task.now).sorted }
        ensures made { OnOk result (StepMakes (after_sort (numbers_in task.now))
            task.now.stage.drain task.now.copy task.now.capacity self.new.made None inlet.now) }
        ensures sorted { OnOk result (IsAt which Sorted self.new.made) }
    {
        let mut draft = self.take_draft(alloc, inlet, task)?;
        draft.sort(which)?;
        self.made = Made::Drafted(draft);
        Ok(())
    }

    // Builds an index of the new copy.
    fn build(&mut self, inlet: &FeedIn, task: &Task, which: Which) -> Result<(), NoMemory>
        requires made { TaskMakes task.now self.old.made None inlet.now }
        requires due { IsDueAt steps.Build (numbers_in task.now) task.now.stage.drain }
        requires which { which ≡ nth_which (numbers_in task.now).built }
        ensures made { OnOk result (StepMakes (after_build (numbers_in task.now))
            task.now.stage.drain task.now.copy task.now.capacity self.new.made None inlet.now) }
        ensures built { OnOk result (IsAt which Built self.new.made) }
    {
        match &mut self.made {
            Made::Nothing => unreachable!(),
            Made::Packing(_) => unreachable!(),
            Made::Drafted(draft) => draft.build(which),
            Made::Written(_) => unreachable!(),
        }
    }

    // Makes the next changes in the new copy, exactly so many.
    fn take(
        &mut self,
        alloc: Global,
        inlet: &mut FeedIn,
        task: &Task,
        count: u8,
    ) -> Result<(), ShadowFault>
        requires lawful { Lawful (since_begin inlet.old.items) }
        requires made { TaskMakes task.now self.old.made None inlet.old }
        requires indexed { IsIndexed (numbers_in task.now) }
        requires there { (numbers_in task.now).done + count
            ≤ length (changes (since_begin inlet.old.items)) }
        ensures ring { inlet.new.ring ≡ inlet.old.ring }
        ensures items { inlet.new.items ≡ inlet.old.items }
        ensures made { OnOk result (StepMakes (after_take count (numbers_in task.now))
            task.now.stage.drain task.now.copy task.now.capacity self.new.made None inlet.new) }
        ensures full { IfErr result (IsFullOf task.now.capacity (weigh_feed inlet.old.items)) }
    {
        match &mut self.made {
            Made::Nothing => unreachable!(),
            Made::Packing(_) => unreachable!(),
            Made::Drafted(draft) => draft.take(alloc, inlet, count),
            Made::Written(_) => unreachable!(),
        }
    }
}

// What is made of the new copy that the desk keeps.
impl Reorg {
    // Takes the new copy back from the desk, if it keeps one.
    fn take_back<V: Counts, O: Operator>(
        &mut self,
        desk: &mut Desk<V, O>,
        inlet: &FeedIn,
        task: &Task,
    )
        requires begun { IsTask V.seen desk.old task.now }
        requires indexed { IsIndexed (numbers_in task.now) }
        requires made { TaskMakes task.now self.old.made desk.old.shadow inlet.now }
        ensures desk { desk.new ≡ record desk.old { shadow = None } }
        ensures made { StepMakes (after_back (numbers_in task.now)) task.now.stage.drain
            task.now.copy task.now.capacity self.new.made None inlet.now }
    {
        let Some(shadow) = desk.take_shadow() else {
            return;
        };
        match self.made {
            Made::Written(options) => self.made = Made::Drafted(Draft { shadow, options }),
            _ => unreachable!(),
        }
    }

    // Makes the entry of the step that writes the new copy.
    fn write<V: Counts, O: Operator>(
        &mut self,
        alloc: Global,
        desk: &mut Desk<V, O>,
        inlet: &FeedIn,
        task: &Task,
        granted: DrainFor,
    )
        requires begun { IsTask V.seen desk.old task.now }
        requires step { MakesStep task.now.stage task.now.answer (steps.Write granted) }
        requires hears { Hears desk.old inlet.now }
        requires works { Works V.seen self.old.made inlet.now desk.old }
        ensures acts { Acts V.seen desk.old task.now.answer self.new.made inlet.now.taken desk.new }
        ensures works { Works V.seen self.new.made inlet.now desk.new }
    {
        let event = match self.put(alloc, desk, inlet, task, granted) {
            Ok(pages) => Event::Written { pages },
            Err(PrepareCause::Device) => Event::Stop(StopReason::Device),
            Err(PrepareCause::NoMemory) => Event::Stop(StopReason::NoMemory),
        };
        desk.book(event, Some(task.answer));
    }

    // Writes the new copy, and says how many pages it has. It is dropped where that fails.
    fn put<V: Counts, O: Operator>(
        &mut self,
        alloc: Global,
        desk: &mut Desk<V, O>,
        inlet: &FeedIn,
        task: &Task,
        granted: DrainFor,
    ) -> Result<u32, PrepareCause>
        requires begun { IsTask V.seen desk.old task.now }
        requires hears { Hears desk.old inlet.now }
        requires made { TaskMakes task.now self.old.made desk.old.shadow inlet.now }
        requires due { IsDueAt (steps.Write granted) (numbers_in task.now) task.now.stage.drain }
        ensures writes { Writes V.seen desk.old desk.new }
        ensures kept { IfOk result (λ pages. KeepsWritten V.seen pages desk.new) }
        ensures device { result ≡ Err PrepareCause.Device
            → Rose (V.seen desk.old.volume).faults (V.seen desk.new.volume).faults }
        ensures none { result ≡ Err PrepareCause.NoMemory → desk.new.volume ≡ desk.old.volume }
        ensures made { IfOk result (λ pages. (drain : DrainState) → IsForAll drain
            → StepMakes (after_write pages (numbers_in task.now)) drain task.now.copy
            task.now.capacity self.new.made desk.new.shadow inlet.now) }
    {
        let draft = match mem::replace(&mut self.made, Made::Nothing) {
            Made::Nothing => unreachable!(),
            Made::Packing(_) => unreachable!(),
            Made::Drafted(draft) => draft,
            Made::Written(_) => unreachable!(),
        };
        let pages = draft.count();
        let Draft { shadow, options } = draft;
        match desk.prepare_switch(alloc, shadow) {
            Ok(()) => {
                self.made = Made::Written(options);
                Ok(pages)
            }
            Err(cause) => Err(cause),
        }
    }

    // Makes the entry of the switch.
    fn switch<V: Counts, O: Operator>(&mut self, desk: &mut Desk<V, O>, inlet: &FeedIn, task: &Task)
        requires begun { IsTask V.seen desk.old task.now }
        requires step { MakesStep task.now.stage task.now.answer steps.Switch }
        requires hears { Hears desk.old inlet.now }
        requires works { Works V.seen self.old.made inlet.now desk.old }
        ensures acts { Acts V.seen desk.old task.now.answer self.new.made inlet.now.taken desk.new }
        ensures works { Works V.seen self.new.made inlet.now desk.new }
    {
        match self.sides(desk, inlet, task) {
            Ok(sides) => {
                // The old copy is dropped.
                let _ = desk.commit_switch(sides, task.answer);
                self.made = Made::Nothing;
            }
            Err(_) => desk.book(Event::Stop(StopReason::NoMemory), Some(task.answer)),
        }
    }

    // The layouts of both copies. The new one that was written is caught up with all changes, and
    // the log has no record more since.
    fn sides<V: Counts, O: Operator>(
        &self,
        desk: &mut Desk<V, O>,
        inlet: &FeedIn,
        task: &Task,
    ) -> Result<Sides, NoMemory>
        requires begun { IsTask V.seen desk.old task.now }
        requires drained { HasDrain desk.old }
        requires hears { Hears desk.old inlet.now }
        requires made { TaskMakes task.now self.now.made desk.old.shadow inlet.now }
        requires due { IsDueAt steps.Switch (numbers_in task.now) task.now.stage.drain }
        ensures same { desk.new ≡ desk.old }
        ensures sides { IfOk result (AreSidesToSwitch desk.old task.entry.now.stage) }
    {
        desk.sides()
    }
}

// Makes the entry of a step after the switch, or of one at which the operator ends the utility.
fn end<V: Counts, O: Operator>(desk: &mut Desk<V, O>, task: &Task)
    requires begun { IsTask V.seen desk.old task.now }
    requires over { IsOver task.now.stage task.now.answer }
    ensures acts { (made : Made) (taken : ℕ)
        → Acts V.seen desk.old task.now.answer made taken desk.new }
    ensures feed { desk.new.feed ≡ desk.old.feed }
    ensures over { desk.new.stage ≡ None }
    ensures shadow { desk.new.shadow ≡ None }
{
    let event = next_event(&task.stage, task.changes, task.holder, &task.answer);
    desk.book(event, Some(task.answer));
}
