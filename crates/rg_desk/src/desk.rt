// The table as a deck sees it: each call makes one entry of a legal trace.
//
// 1. The room of an entry is taken first. Where there is none, nothing is done.
// 2. What an entry says was done, and the state that the trace leads to is the one that the pages,
//    the locks and the claims show.
// 3. Once the device has refused a COMMIT the desk is down: nothing more is done, and every
//    statement is answered DOWN.
// 4. A process may die and the table be opened again, with one trace going on. So a desk may begin
//    over the entries of earlier openings. They come before its own, and none is lost where the
//    opening is refused.
// 5. A utility may run. A step of it asks the operator first, and then makes one entry, which has
//    the operator's answer. Its event is the next one of the stage that the desk keeps.
// 6. What a utility needs is sent to it: a Begin at its start, a copy of each page that it copies,
//    and each change of a row since. Whoever has the other end receives it all with `hand_over`.
ghost use Rattle.std.specs.Prelude.{◌≡◌, ◌⊎◌, ◌≤◌, ◌<◌, ◌+◌, ◌++◌, [], ℕ, true, false, OnOk};
ghost use Rattle.std.specs.Prelude.{OnErr, IfOk, IfErr};
ghost use Rattle.std.specs.Prelude.{IfSome, Some, None, drop, length};
ghost use Rattle.rg_home.specs.Pages.{slot_of};
ghost use Rattle.rg_home.specs.Rows.{row_at};
ghost use Rattle.rg_btree.specs.Indexes.Listings.{AreListings};
ghost use Rattle.rg_space.specs.Space.{Agree, InStep, capacity_in, frames_of, summaries_of};
ghost use Rattle.rg_base.specs.Session.{IsSession};
ghost use Rattle.rg_model.specs.Possible.{next_state};
ghost use Rattle.rg_model.specs.State.{State};
ghost use Rattle.rg_stmt.specs.declared.event.Actor.TheVariants as actors;
ghost use Rattle.rg_engine.specs.Answers.{Replies};
ghost use Rattle.rg_log.specs.Kept.{log_pages};
ghost use Rattle.rg_laws_utility.specs.RecordChanges.Changed.{changes_in};
ghost use Rattle.rg_desk.specs.Chronicle.{IsRecorded, system_entry};
ghost use Rattle.rg_desk.specs.Begun.{Begun};
ghost use Rattle.rg_engine.specs.Begins.{CanBegin};
ghost use Rattle.rg_desk.specs.Desk.{EndsDown, EndsWithRows};
ghost use Rattle.rg_engine.specs.Layouts.{IsLayout, ShowsSideOf};
ghost use Rattle.rg_base.specs.Copies.{IsCopy, other_of};
ghost use Rattle.rg_desk.specs.Desk.{LeavesTable, LegalFrom, MadeFlush, MadeLayout, MadeSaid};
ghost use Rattle.rg_desk.specs.Desk.{AreSides, CanCommit, CanPrepare, HasCurrent, HasDrain};
ghost use Rattle.rg_desk.specs.Desk.{IsOtherCopy, MadeFall, MadeSwitch, Prepares, TellsWritten};
ghost use Rattle.rg_engine.specs.Prepared.{shade_kept};
ghost use Rattle.rg_desk.specs.Desk.{written_seen};
ghost use Rattle.rg_engine.specs.Tabled.{EndsWithTable};
ghost use Rattle.rg_image.specs.Rules.{copy_capacity};
ghost use Rattle.rg_outside.specs.Faults.{Rose};
ghost use Rattle.rg_desk.specs.Desk.{Opens, old_records};
ghost use Rattle.rg_engine.specs.Prepared.{while_running};
ghost use Rattle.rg_engine.specs.Flushed.{TellsFlush};
ghost use Rattle.rg_engine.specs.OnVolume.{GoesOnTidy, IsOnVolume};
ghost use Rattle.rg_engine.specs.OnVolume.{LeavesSoundIfTidy, WasAllTidy};
ghost use Rattle.rg_home.specs.Owners.{AllBelow};
ghost use Rattle.rg_outside.specs.Moments.{IfTold};
ghost use Rattle.rg_space.specs.Memory.{list_seen, space_pages};
ghost use Rattle.rg_engine.specs.Engine.{HasPages, ground_of, slots_in};
ghost use Rattle.rg_engine.specs.Shows.{IsShown, Shows};
ghost use Rattle.rg_engine.specs.Volume.{HasCalls, IsCount, LeavesIfTidy};
ghost use Rattle.rg_engine.specs.Wrote.{SameEngine};
ghost use Rattle.rg_desk.specs.Desk.{BeginsStep, CanFeed, FeedIs, MadeCopy};
ghost use Rattle.rg_engine.specs.Sends.{begin_items};
ghost use Rattle.rg_feed.specs.Ends.{Grew, SameReceived, sent_items};
ghost use Rattle.rg_engine.specs.ChangeFeed.Sending.{AddsChanges, items_made};
ghost use Rattle.rg_desk.specs.Desk.{HasCaught, HasTaken, IsAsWritten, IsNextStep, MadeStart};
ghost use Rattle.rg_desk.specs.Desk.{MadeStep, left_to_take};
ghost use Rattle.rg_outside.specs.Told.{AddsAnswer, HandsOver};
ghost use Rattle.rg_rules.specs.Tally.Changed.{no_changes};
ghost use Rattle.rg_laws_utility.specs.TraceStage.Tending.{NextBy, utility_entry};

use crate::chronicle::Chronicle;
use crate::run::Run;
use crate::task::Task;
use rg_base::control::Answer;
use rg_base::copy::TableCopy;
use rg_base::no_memory::NoMemory;
use rg_base::note::note;
use rg_base::options::Options;
use rg_base::position::Position;
use rg_base::session::Session;
use rg_base::set::Set;
use rg_base::table::Table;
use rg_base::verdict::StopReason;
use rg_check::chain::names::copy_pages;
use rg_engine::engine::Engine;
use rg_engine::found::Found;
use rg_engine::origin::Origin;
use rg_engine::prepared::{PrepareCause, Prepared, forget, keep, new_side, prepare, take};
use rg_engine::switch::{Old, turn};
use rg_engine::utility::{count_from, is_started, start_utility};
use rg_feed::ends::feed;
use rg_feed::fold::item::{Item, Stage};
use rg_feed::hand_over::hand_over;
use rg_feed::inlet::FeedIn;
use rg_feed::outlet::FeedOut;
use rg_log::fault::Device;
use rg_outside::counted::Counts;
use rg_outside::operator::Operator;
use rg_outside::volume::Volume;
use rg_rules::stage::follow::next_stage;
use rg_rules::tally::changes::Changes;
use rg_shadow::shadow::Shadow;
use rg_stmt::event::{Actor, Entry, Event};
use rg_stmt::layout::Sides;
use rg_stmt::stmt::{Reply, Stmt};
use std::alloc::Global;
use std::marker::Model;

/// What an opening that was refused was handed, and why. The trace has the entries of earlier
/// openings.
pub type OpenFault<V, O> = Run<V, O, OpenCause>;

/// Why a volume is not opened.
#[derive(Clone, Copy, Debug, PartialEq, Eq)]
pub enum OpenCause {
    /// This page breaks a rule of a sound volume.
    Damaged { set: Set, page: u32 },
    /// A call of the volume failed.
    Device,
    /// Out of memory.
    NoMemory,
}

/// A table over pages with its sessions, and the trace of all that was done since it was opened,
/// after the entries of earlier openings.
#[derive(Drop)]
pub struct Desk<V: Counts, O> {
    engine: Engine,
    chronicle: Chronicle,
    origin: Origin,
    marks: Vec<Option<Position>>,
    copy: TableCopy,
    down: bool,
    stage: Option<Stage>,
    changes: Changes,
    // The operator's answer that no entry has yet.
    kept: Option<Answer>,
    // The new copy that was written and may become current.
    shadow: Option<Prepared>,
    // The sending end of the feed.
    outlet: FeedOut,
    volume: V,
    operator: O,
}

impl<V: Counts, O> Model for Desk<V, O> {
    ghost use Rattle.std.specs.Prelude.{length};
    ghost use Rattle.rg_desk.specs.Desk.{DeskState, IsAsWritten, IsDesk};
    ghost use Rattle.rg_engine.specs.Engine.{ground_of, seen_in};
    ghost use Rattle.rg_engine.specs.Prepared.{KeepsPrepared, prepared_seen};
    ghost use Rattle.rg_engine.specs.Sends.{KeepsItems};
    ghost use Rattle.rg_feed.specs.Ends.{sent_items};
    ghost use Rattle.rg_model.specs.Claims.{least_holder};
    ghost use Rattle.rg_laws_utility.specs.TraceStage.Tending.{Tends};

    ghost Value = { DeskState V O };

    ghost use Rattle.std.specs.Coded.{codes};
    ghost use Rattle.rg_shadow.specs.Stored.{shade_code};

    ghost coded = { Prim.hlevel (codes, shade_code) };

    ghost view = { λ d. record {
      older = d.chronicle.older;
      trace = d.chronicle.trace;
      ground = ground_of d.engine;
      contents = (seen_in d.engine).pages;
      marks = d.marks.items;
      opened = d.origin.records;
      first_copy = d.origin.copy;
      copy = d.copy;
      down = d.down;
      stage = d.stage;
      changes = d.changes.since;
      kept = d.kept;
      shadow = prepared_seen d.shadow;
      ring = d.outlet.ring;
      feed = sent_items d.outlet;
      spare = d.chronicle.spare;
      covered = least_holder d.engine.claims.drain d.engine.claims.claims;
      volume = d.volume;
      operator = d.operator;
    } };

    ghost invariant = { λ d. IsDesk d.engine d.chronicle d.origin d.copy d.down d.marks.items
        (V.seen d.volume) × Tends d.chronicle.trace d.stage d.changes d.engine.set_aside
        × KeepsPrepared d.shadow d.engine.log.records d.copy
        (V.seen d.volume) × KeepsItems d.engine d.origin d.chronicle.trace d.down d.stage d.changes
        (sent_items d.outlet)
        × IsAsWritten d.stage (prepared_seen d.shadow) (length d.engine.log.records) };
}

// The entry of an event that the system makes, after so many calls.
fn system(event: Event, calls: u64) -> Entry
    ensures { result ≡ system_entry event calls }
{
    Entry {
        actor: Actor::System,
        event,
        answer: None,
        calls,
    }
}

// The entry of an event of the utility, after so many calls.
fn utility(event: Event, answer: Option<Answer>, calls: u64) -> Entry
    ensures { result ≡ utility_entry event answer calls }
{
    Entry {
        actor: Actor::Utility,
        event,
        answer,
        calls,
    }
}

// The engine over what was found, the marks, the count of changes, and both ends of the feed. The
// opening makes the first entry, after so many calls.
fn begin(
    alloc: Global,
    found: Found,
    calls: u64,
    chronicle: &mut Chronicle,
) -> Result<(Engine, Vec<Option<Position>>, Changes, FeedOut, FeedIn), NoMemory>
    requires begins { CanBegin (capacity_in found.space) (space_pages found.space) found.log
        found.top }
    requires step { InStep (list_seen (frames_of found.space)) (summaries_of found.space)
        (capacity_in found.space) }
    requires agree { Agree (list_seen (frames_of found.space)) (summaries_of found.space) }
    requires listings { AreListings (row_at (slot_of (space_pages found.space))) found.indexes }
    requires first { chronicle.old.trace ≡ [] }
    requires calls { chronicle.old.calls ≤ calls }
    ensures begun { IfOk result (λ made. Begun found calls made.0 chronicle.new) }
    ensures marks { IfOk result (λ made. made.1 ≡ found.marks) }
    ensures changes { IfOk result (λ made. made.2 ≡ no_changes) }
    ensures ring { IfOk result (λ made. made.3.ring ≡ made.4.ring) }
    ensures sent { IfOk result (λ made. sent_items made.3 ≡ []) }
    ensures received { IfOk result (λ made. made.4.items ≡ []) }
    ensures older { chronicle.new.older ≡ chronicle.old.older }
    ensures err { OnErr result (chronicle.new ≡ chronicle.old) }
{
    let Found {
        log,
        space,
        copy,
        indexes,
        top,
        marks,
    } = found;
    let (pages, used) = (space.count(), log.used());
    let changes = Changes::new(alloc)?;
    let (outlet, inlet) = feed(alloc)?;
    let engine = Engine::new(alloc, log, space, indexes, top)?;
    let rows = engine.unlocked_rows();
    chronicle.make_room()?;
    chronicle.push(Entry::opened(copy, rows, pages, used, calls));
    Ok((engine, marks, changes, outlet, inlet))
}

// The number of calls up to now. It never falls, also where the volume does not report.
fn calls_now<V: Counts>(volume: &V, chronicle: &Chronicle) -> u64
    requires { HasCalls (V.seen volume.now) chronicle.now.calls }
    ensures least { chronicle.now.calls ≤ result }
    ensures counted { IsCount (V.seen volume.now) result }
{
    volume.calls().max(chronicle.calls())
}

/// The reply to a statement, where the desk is up or down before. The device's refusal brings it
/// down. Where a utility runs, the statement's changes are sent.
pub fn reply_to<V: Volume>(
    engine: &mut Engine,
    down: &mut bool,
    volume: &mut V,
    session: Session,
    stmt: &Stmt,
    runs: bool,
    outlet: &mut FeedOut,
) -> Reply
    requires session { IsSession session }
    requires shown { down.old ≡ false → IsShown engine.old }
    requires pages { engine.old.log.pages ≡ log_pages (V.seen volume.old).capacities }
    ensures replies { Replies down.old engine.old session stmt.now result engine.new down.new
        (V.seen volume.old) (V.seen volume.new) }
    ensures ring { outlet.new.ring ≡ outlet.old.ring }
    ensures adds { AddsChanges (sent_items outlet.old) (sent_items outlet.new) }
    ensures sent { down.new ≡ false → sent_items outlet.new
        ≡ sent_items outlet.old
        ++ items_made runs (changes_in
        (drop (length engine.old.log.records) engine.new.log.records)) }
{
    if *down {
        return Reply::Down;
    }
    engine.make_spare();
    let reply = engine.say(volume, session, stmt, runs, outlet);
    *down = matches!(reply, Reply::Device);
    reply
}

// The start of a utility is sent.
fn send_start(outlet: &mut FeedOut, event: &Event)
    requires room { 1 ≤ outlet.old.spare }
    ensures ring { outlet.new.ring ≡ outlet.old.ring }
    ensures items { sent_items outlet.new ≡ sent_items outlet.old ++ begin_items event.now }
{
    match event {
        Event::Started { options, pages, .. } => outlet.send(Item::Begin {
            options: *options,
            pages: *pages,
        }),
        _ => {}
    }
}

// The event of a layout, where the desk is up or down.
fn tell_layout(engine: &mut Engine, copy: TableCopy, down: bool) -> Event
    requires pages { down ≡ false → HasPages engine.old }
    ensures same { SameEngine engine.old engine.new }
    ensures ground { ground_of engine.new ≡ ground_of engine.old }
    ensures opened { engine.new.opened ≡ engine.old.opened }
    ensures is { IsLayout copy result }
    ensures was_down { down ≡ true → result ≡ Event.LayoutDown }
    ensures side { ShowsSideOf (slots_in engine.old) result }
    ensures right { (st : State) (allowed : ℕ) → (down ≡ false → Shows st allowed engine.old)
        → st.down ≡ down → st.copy ≡ copy → next_state [] None actors.System result st ≡ Some st }
{
    if down {
        return Event::LayoutDown;
    }
    engine.make_spare();
    engine.layout(copy)
}

// A new copy that was written is kept while a utility runs.
fn keep_while_running(stage: &Option<Stage>, shadow: &mut Option<Prepared>)
    ensures { shadow.new ≡ while_running stage.entry.now shadow.old }
{
    match stage {
        Some(_) => {}
        None => *shadow = None,
    }
}

// The event of a flush, where the desk is up or down.
fn tell_flush<V: Volume>(
    engine: &mut Engine,
    marks: &mut Vec<Option<Position>>,
    volume: &mut V,
    copy: TableCopy,
    down: bool,
) -> Event
    requires pages { down ≡ false → HasPages engine.old }
    requires set { engine.old.log.pages ≡ log_pages (V.seen volume.old).capacities }
    requires counted { HasCalls (V.seen volume.old) 0 }
    requires is_on { down ≡ false → IsOnVolume copy engine.old.log engine.old.space
        marks.old.items (V.seen volume.old) }
    ensures { TellsFlush down copy marks.old.items marks.new.items
        (V.seen volume.old) (V.seen volume.new) engine.old result engine.new }
{
    if down {
        return Event::FlushDown;
    }
    engine.make_spare();
    engine.flush(marks, volume, copy)
}

impl<V: Counts, O: Operator> Desk<V, O> {
    /// A desk over the table that a log stores. Its first entry is that of the opening, with the
    /// rows, the pages and the bytes of the log that were found. It comes after the entries of
    /// earlier openings, up to which there were so many calls, and has no fewer calls than they
    /// have, also where the volume does not report. Neither the volume nor the operator is called.
    /// Beside the desk stands the end at which all that it sends is received.
    pub fn new(
        alloc: Global,
        volume: V,
        operator: O,
        trace: Vec<Entry>,
        calls: u64,
        found: Found,
    ) -> Result<(Desk<V, O>, FeedIn), OpenFault<V, O>>
        requires begins { CanBegin (capacity_in found.space) (space_pages found.space) found.log
            found.top }
        requires step { InStep (list_seen (frames_of found.space)) (summaries_of found.space)
            (capacity_in found.space) }
        requires agree { Agree (list_seen (frames_of found.space)) (summaries_of found.space) }
        requires listings { AreListings (row_at (slot_of (space_pages found.space)))
            found.indexes }
        requires copy { IsCopy found.copy }
        requires pages { found.log.pages ≡ log_pages (V.seen volume).capacities }
        requires leaves { LeavesIfTidy (V.seen volume) found.log }
        requires is_on { IsOnVolume found.copy found.log found.space found.marks.items
            (V.seen volume) }
        requires below { IfTold (V.seen volume).told (λ t. WasAllTidy (V.seen volume).capacities t
            → AllBelow found.top (slot_of (space_pages found.space))) }
        requires recorded { IsRecorded trace.items calls }
        requires counted { HasCalls (V.seen volume) calls }
        ensures opens { IfOk result (λ made. Opens V.seen
            volume operator found.log found.copy (capacity_in found.space)
            (space_pages found.space) made.0) }
        ensures contents { IfOk result
            (λ made. made.0.contents ≡ (list_seen (frames_of found.space)).pages) }
        ensures marks { IfOk result (λ made. made.0.marks ≡ found.marks.items) }
        ensures older { IfOk result (λ made. made.0.older ≡ trace.items) }
        ensures ring { IfOk result (λ made. made.0.ring ≡ made.1.ring) }
        ensures received { IfOk result (λ made. made.1.items ≡ []) }
        ensures err { IfErr result (λ fault. fault ≡ record {
          volume = volume;
          operator = operator;
          trace = fault.trace;
          end = OpenCause.NoMemory;
        }) }
        ensures trace { IfErr result (λ fault. fault.trace.items ≡ trace.items) }
    {
        let copy = found.copy;
        let origin = Origin {
            records: found.log.records().len(),
            copy,
        };
        let mut chronicle = Chronicle::over(trace, calls);
        let now = calls_now(&volume, &chronicle);
        match begin(alloc, found, now, &mut chronicle) {
            Ok((engine, marks, changes, outlet, inlet)) => {
                let desk = Desk {
                    engine,
                    chronicle,
                    origin,
                    marks,
                    copy,
                    down: false,
                    stage: None,
                    changes,
                    kept: None,
                    shadow: None,
                    outlet,
                    volume,
                    operator,
                };
                Ok((desk, inlet))
            }
            Err(_) => Err(Run {
                volume,
                operator,
                trace: chronicle.into_trace(),
                end: OpenCause::NoMemory,
            }),
        }
    }

    /// Answers a statement of a session, which makes one entry. If there is no memory for the
    /// entry, the call is refused and nothing was done. If there is none for the answer, or for the
    /// changes that are to be sent to a utility, the entry says NOMEMORY. The reply stands in the
    /// entry: handing out a copy of it too would take memory after the statement was done.
    pub fn exec(&mut self, session: Session, stmt: Stmt) -> Result<(), NoMemory>
        requires { IsSession session }
        ensures made { OnOk result (MadeSaid V.seen self.old session stmt self.new) }
        ensures err { OnErr result (self.new ≡ self.old) }
    {
        if !self.changes.has_room(session) {
            return Err(NoMemory);
        }
        self.chronicle.make_room()?;
        let runs = self.stage.is_some();
        let reply = reply_to(
            &mut self.engine,
            &mut self.down,
            &mut self.volume,
            session,
            &stmt,
            runs,
            &mut self.outlet,
        );
        // That the records fit their set: what a crash leaves of the volume is sound by it.
        note(&self.engine.log.records());
        self.changes.count(session, &stmt, &reply);
        let calls = calls_now(&self.volume, &self.chronicle);
        self.chronicle
            .push(Entry::said(session, stmt, reply, calls));
        Ok(())
    }

    /// Tells the layout of the copy, which makes one entry. If there is no memory for the entry,
    /// the call is refused and nothing was done. If there is none for the layout, the entry says
    /// so, and so it does where the desk is down.
    pub fn show(&mut self) -> Result<(), NoMemory>
        ensures made { OnOk result
            (MadeLayout V.seen self.old self.new) }
        ensures err { OnErr result (self.new ≡ self.old) }
    {
        self.chronicle.make_room()?;
        let event = tell_layout(&mut self.engine, self.copy, self.down);
        let calls = calls_now(&self.volume, &self.chronicle);
        self.chronicle.push(system(event, calls));
        Ok(())
    }

    /// Writes the least page that is not on the volume as it is, which makes one entry: CLEAN where
    /// there is none. The log is forced first, up to the page's position. If a call fails, the page
    /// is written by a later flush; the desk stays up. If there is no memory for the entry, the
    /// call is refused and nothing was done.
    pub fn flush_one(&mut self) -> Result<(), NoMemory>
        ensures made { OnOk result
            (MadeFlush V.seen self.old self.new) }
        ensures err { OnErr result (self.new ≡ self.old) }
    {
        self.chronicle.make_room()?;
        // That the records fit their set: what a crash leaves of the volume is sound by it.
        note(&self.engine.log.records());
        let event = tell_flush(
            &mut self.engine,
            &mut self.marks,
            &mut self.volume,
            self.copy,
            self.down,
        );
        let calls = calls_now(&self.volume, &self.chronicle);
        self.chronicle.push(system(event, calls));
        Ok(())
    }

    /// Starts a utility over the current copy, which makes one entry, and says whether it did. Else
    /// the entry says why: the desk is down, or a utility runs, or the log has no room for the
    /// record of its switch, or there was no memory. If there is no memory for the entry, the call
    /// is refused and nothing was done.
    pub fn start(&mut self, options: Options) -> Result<bool, NoMemory>
        ensures made { IfOk result (λ started.
            MadeStart V.seen self.old options started self.new) }
        ensures err { OnErr result (self.new ≡ self.old) }
    {
        self.outlet.reserve(1)?;
        self.chronicle.make_room()?;
        let event = start_utility(
            &mut self.engine,
            &mut self.stage,
            options,
            self.copy,
            self.down,
        );
        let started = is_started(&event);
        count_from(&mut self.changes, started);
        send_start(&mut self.outlet, &event);
        let calls = calls_now(&self.volume, &self.chronicle);
        self.chronicle.push(utility(event, None, calls));
        Ok(started)
    }

    /// Hands over all that was sent to the end at which it is received. If there is no memory for
    /// it there, nothing is received. There is, where that end has room for what it has not
    /// received yet.
    pub fn hand_over(&mut self, inlet: &mut FeedIn) -> Result<(), NoMemory>
        requires { self.old.ring ≡ inlet.old.ring }
        ensures same { self.new ≡ self.old }
        ensures grew { Grew inlet.old inlet.new }
        ensures all { OnOk result (inlet.new.items ≡ self.old.feed) }
        ensures err { OnErr result (SameReceived inlet.old inlet.new) }
        ensures full { OnErr result
            (inlet.old.spare + length inlet.old.items < length self.old.feed) }
        ensures feed { self.old.down ≡ false → FeedIs self.old }
    {
        hand_over(&mut self.outlet, inlet)
    }

    /// Makes room for an entry: afterwards one can be made without memory.
    pub fn make_room(&mut self) -> Result<(), NoMemory>
        ensures ok { OnOk result (1 ≤ self.new.spare) }
        ensures same { self.new ≡ record self.old { spare = self.new.spare } }
        ensures err { OnErr result (self.new ≡ self.old) }
    {
        self.chronicle.make_room()
    }

    /// Asks the operator, at a moment at which so many changes are not taken. The desk keeps the
    /// answer until the step's entry is made with it.
    pub fn ask_operator(&mut self, left: u64) -> Answer
        requires up { self.old.down ≡ false }
        requires none { self.old.kept ≡ None }
        requires left { left ≡ left_to_take self.old }
        ensures same { self.new
            ≡ record self.old { kept = Some result; operator = self.new.operator } }
        ensures answered { AddsAnswer (O.answers self.old.operator) result
            (O.answers self.new.operator) }
        ensures handed { HandsOver left (O.answers self.new.operator)
            (O.last self.new.operator) }
    {
        let answer = self.operator.ask(left);
        self.kept = Some(answer);
        answer
    }

    /// Begins a step of the utility. What was sent is received first, and the room for the step's
    /// entry is taken: where there is no memory for either, nobody is asked, and the desk is as it
    /// was. Where the desk is down, or no utility runs, the entry is made that says so, and none is
    /// answered. Else the operator is asked once, and told how many changes are left. The step's
    /// entry is to be made with the answer.
    pub fn begin_step(&mut self, inlet: &mut FeedIn) -> Result<Option<Task>, NoMemory>
        requires kept { self.old.kept ≡ None }
        requires ring { self.old.ring ≡ inlet.old.ring }
        ensures begins { IfOk result
            (BeginsStep V.seen O.answers O.last self.old self.new) }
        ensures grew { Grew inlet.old inlet.new }
        ensures all { OnOk result (inlet.new.items ≡ self.old.feed) }
        ensures heard { OnErr result
            (SameReceived inlet.old inlet.new ⊎ (inlet.new.items ≡ self.old.feed)) }
        ensures feed { self.old.down ≡ false → FeedIs self.old }
        ensures ring { self.new.ring ≡ inlet.new.ring }
        ensures err { OnErr result (self.new ≡ self.old) }
    {
        self.hand_over(inlet)?;
        self.make_room()?;
        if self.down() {
            self.book(Event::StepDown, None);
            return Ok(None);
        }
        let Some(stage) = self.stage() else {
            self.book(Event::Idle, None);
            return Ok(None);
        };
        let changes = self.changes();
        let (copy, capacity) = self.other();
        let holder = self.holder();
        let answer = self.ask_operator(changes - stage.done);
        Ok(Some(Task {
            stage,
            answer,
            changes,
            holder,
            copy,
            capacity,
        }))
    }

    /// Makes the entry of a step: IDLE where no utility runs, DOWN where the desk is down, else the
    /// utility's next event with the operator's answer. No event is booked so that copies a page,
    /// or that switches to the new copy or fails to. WRITTEN is booked only where the new copy that
    /// is kept was written since the last record. It takes no memory.
    pub fn book(&mut self, event: Event, answer: Option<Answer>)
        requires next { IsNextStep self.old answer event }
        requires kept { answer ≡ self.old.kept }
        requires written { TellsWritten self.old event }
        requires room { 1 ≤ self.old.spare }
        ensures { MadeStep V.seen self.old answer event [] self.new }
    {
        match (self.down, self.stage, answer) {
            (false, Some(stage), Some(answer)) => self.book_step(stage, event, answer),
            _ => self.book_refused(event),
        }
    }

    /// Copies a page, and sends the copy. It makes the entry of UNLOAD, with the operator's answer,
    /// and says how many rows the copy has. If there is no memory for it, nothing was done.
    pub fn feed_page(&mut self, page: u32, answer: Answer) -> Result<u16, NoMemory>
        requires up { self.old.down ≡ false }
        requires kept { self.old.kept ≡ Some answer }
        requires room { 1 ≤ self.old.spare }
        requires can { CanFeed self.old page answer }
        ensures made { IfOk result (λ rows. MadeCopy V.seen self.old answer page rows self.new) }
        ensures err { OnErr result (self.new ≡ self.old) }
    {
        let Some(stage) = self.stage else {
            unreachable!()
        };
        self.outlet.reserve(1)?;
        let (item, rows) = self.engine.copy_page(page)?;
        let event = Event::Unload { page, rows };
        self.stage = self
            .engine
            .step_utility(&stage, self.changes.since(), &answer, &event);
        self.outlet.send(item);
        self.kept = None;
        keep_while_running(&self.stage, &mut self.shadow);
        let calls = calls_now(&self.volume, &self.chronicle);
        self.chronicle.push(utility(event, Some(answer), calls));
        Ok(rows)
    }

    // Makes the entry of a step of the utility that runs.
    fn book_step(&mut self, stage: Stage, event: Event, answer: Answer)
        requires up { self.old.down ≡ false }
        requires stage { self.old.stage ≡ Some stage }
        requires next { NextBy false (Some stage) self.old.changes self.old.covered (Some answer)
            event }
        requires written { TellsWritten self.old event }
        requires room { 1 ≤ self.old.spare }
        ensures { MadeStep V.seen self.old (Some answer) event [] self.new }
    {
        self.stage = self
            .engine
            .step_utility(&stage, self.changes.since(), &answer, &event);
        self.kept = None;
        keep_while_running(&self.stage, &mut self.shadow);
        let calls = calls_now(&self.volume, &self.chronicle);
        self.chronicle.push(utility(event, Some(answer), calls));
    }

    /// Writes a new copy to the set of the other copy, for a switch that comes before the log has a
    /// record more. All records are forced first. It makes no entry. Where memory runs out, or a
    /// call of the volume fails, no new copy is kept, and the desk goes on.
    pub fn prepare_switch(&mut self, alloc: Global, shadow: Shadow) -> Result<(), PrepareCause>
        requires up { self.old.down ≡ false }
        requires can { CanPrepare V.seen self.old shadow }
        ensures ok { OnOk result (Prepares V.seen self.old
            (written_seen (length self.old.ground.log.records) shadow) self.new) }
        ensures err { OnErr result (Prepares V.seen self.old None self.new) }
        ensures device { result ≡ Err PrepareCause.Device
            → Rose (V.seen self.old.volume).faults (V.seen self.new.volume).faults }
        ensures none { result ≡ Err PrepareCause.NoMemory
            → self.new.volume ≡ self.old.volume }
    {
        forget(&mut self.shadow);
        let copy = self.copy.other();
        match prepare(alloc, &mut self.engine, &mut self.volume, copy, shadow) {
            Ok(prepared) => {
                keep(&mut self.shadow, prepared);
                Ok(())
            }
            Err(cause) => Err(cause),
        }
    }

    /// Whether a new copy was written, and the log has no record more since.
    pub fn is_current(&self) -> bool
        ensures sure { result ≡ true → HasCurrent self.now }
        ensures all { HasCurrent self.now → result ≡ true }
    {
        match &self.shadow {
            Some(prepared) => prepared.records == self.engine.log.records().len(),
            None => false,
        }
    }

    /// The layouts of the current copy and of the new one that was written. It reads each page
    /// once.
    pub fn sides(&mut self) -> Result<Sides, NoMemory>
        requires up { self.old.down ≡ false }
        requires drained { HasDrain self.old }
        requires current { HasCurrent self.old }
        ensures same { self.new ≡ self.old }
        ensures sides { IfOk result (AreSides self.old) }
    {
        // That no session holds a claim that a granted drain covers: nobody has a lock then.
        note(&self.engine.claims.drain());
        let old = self.engine.side()?;
        let new = new_side(&mut self.shadow)?;
        Ok(Sides { old, new })
    }

    /// Hands back the new copy that was written, if one is kept. None is kept from then on. It
    /// takes no memory.
    pub fn take_shadow(&mut self) -> Option<Shadow>
        ensures same { self.new ≡ record self.old { shadow = None } }
        ensures shade { result ≡ shade_kept self.old.shadow }
        ensures is { IfSome result (IsOtherCopy V.seen self.new) }
    {
        take(&mut self.shadow)
    }

    /// Makes the new copy that was written the current one, which makes one entry: SWITCHED, with
    /// these layouts of both copies, or STOP DEVICE, where the record of the switch could not be
    /// forced. Then the desk is down, and it is open which copy is current. It takes no memory. The
    /// old copy is handed back, for whoever has it to drop.
    pub fn commit_switch(&mut self, sides: Sides, answer: Answer) -> Result<Old, Device>
        requires up { self.old.down ≡ false }
        requires kept { self.old.kept ≡ Some answer }
        requires room { 1 ≤ self.old.spare }
        requires can { CanCommit self.old answer sides }
        ensures ok { OnOk result (MadeSwitch V.seen self.old answer sides self.new) }
        ensures err { OnErr result (MadeFall V.seen self.old answer self.new) }
    {
        let (Some(stage), Some(prepared)) = (self.stage, self.shadow.take()) else {
            unreachable!()
        };
        let copy = self.copy.other();
        let Prepared { shadow, marks, .. } = prepared;
        let turned = turn(&mut self.engine, &mut self.volume, copy, shadow);
        let calls = calls_now(&self.volume, &self.chronicle);
        self.kept = None;
        match turned {
            Ok(old) => {
                let event = Event::Switched { copy, sides };
                self.copy = copy;
                self.marks = marks;
                self.stage = next_stage(&stage, &answer, self.changes.since(), &event);
                self.chronicle.push(utility(event, Some(answer), calls));
                Ok(old)
            }
            Err(fault) => {
                self.down = true;
                self.stage = None;
                let event = Event::Stop(StopReason::Device);
                self.chronicle.push(utility(event, Some(answer), calls));
                Err(fault)
            }
        }
    }

    // Makes the entry of a step that finds no utility, or the desk down.
    fn book_refused(&mut self, event: Event)
        requires next { IsNextStep self.old None event }
        requires kept { self.old.kept ≡ None }
        requires room { 1 ≤ self.old.spare }
        ensures { MadeStep V.seen self.old None event [] self.new }
    {
        keep_while_running(&self.stage, &mut self.shadow);
        let calls = calls_now(&self.volume, &self.chronicle);
        self.chronicle.push(utility(event, None, calls));
    }

    /// The stage of the utility that runs. It has taken no more changes than there are, and all once
    /// the last LAST was made. What WRITTEN told of is that of the last record still, if it is kept.
    pub fn stage(&self) -> Option<Stage>
        ensures stage { result ≡ self.now.stage }
        ensures taken { IfSome result (HasTaken self.now.changes) }
        ensures caught { IfSome result (HasCaught self.now.changes) }
        ensures current { IsAsWritten self.now.stage self.now.shadow
            (length self.now.ground.log.records) }
    {
        self.stage
    }

    /// The changes since the last start of a utility, or since the opening where none has started.
    pub fn changes(&self) -> u64
        ensures { result ≡ self.now.changes }
    {
        self.changes.since()
    }

    /// How many pages the current copy has.
    pub fn pages(&self) -> u32
        ensures { result ≡ length self.now.ground.pages }
    {
        self.engine.space.count()
    }

    /// The other copy, and how many pages it may have.
    pub fn other(&self) -> (TableCopy, u32)
        ensures copy { result.0 ≡ other_of self.now.copy }
        ensures capacity { result.1
            ≡ copy_capacity (V.seen self.now.volume).capacities (other_of self.now.copy) }
    {
        let copy = self.copy.other();
        (copy, copy_pages(&self.volume, copy))
    }

    /// The least session that holds a class that the drain covers.
    pub fn holder(&self) -> Option<Session>
        ensures { result ≡ self.now.covered }
    {
        self.engine.claims.holder()
    }

    /// The entries from the opening on. The reply to the last statement is in the last entry.
    pub fn trace(&self) -> &[Entry]
        ensures { result.now ≡ self.now.trace }
    {
        self.chronicle.trace()
    }

    /// Whether the device has refused a COMMIT.
    pub fn down(&self) -> bool
        ensures is { result ≡ self.now.down }
        ensures ends { self.now.down ≡ true
            → EndsDown (old_records self.now) self.now.first_copy self.now.trace }
    {
        self.down
    }

    /// The table, as the statements so far have left it. It has what open units wrote, too.
    pub fn table(&mut self) -> Result<Table, NoMemory>
        requires up { self.old.down ≡ false }
        ensures same { self.new ≡ self.old }
        ensures table { IfOk result
            (EndsWithTable (old_records self.old) self.old.first_copy self.old.trace) }
    {
        self.engine.table()
    }

    /// The number of committed rows: those of a unit that is still open are not among them. It
    /// looks at each lock.
    pub fn committed_rows(&self) -> u64
        requires { self.now.down ≡ false }
        ensures { EndsWithRows (old_records self.now) self.now.first_copy
            self.now.ground.log.pages
            (V.seen self.now.volume) self.now.trace result }
    {
        // That the records fit their set: the clause on what a crash leaves needs it.
        note(&self.engine.log.records());
        self.engine.committed_rows()
    }

    /// The volume and the operator that it was handed, the entries of earlier openings and its own,
    /// and how many calls there were up to the last one. Where the log read tidy, whatever a crash
    /// leaves of the volume stores a table that process death leaves of the trace: a COMMIT that
    /// the device refused is in, or it is not. The volume may be opened again, over these entries.
    pub fn into_parts(self) -> (V, O, Vec<Entry>, u64)
        ensures volume { result.0 ≡ self.volume }
        ensures operator { result.1 ≡ self.operator }
        ensures trace { result.2.items ≡ self.older ++ self.trace }
        ensures recorded { IsRecorded result.2.items result.3 }
        ensures counted { HasCalls (V.seen self.volume) result.3 }
        ensures legal { LegalFrom (old_records self) self.trace }
        ensures left { LeavesTable (old_records self) self.first_copy self.ground.log.pages
            (V.seen self.volume) self.trace }
        ensures tidy { GoesOnTidy (V.seen self.volume) }
        ensures sound { LeavesSoundIfTidy (V.seen self.volume) }
    {
        // That the records fit their set: the clauses on what is left of the volume need it.
        note(&self.engine.log.records());
        let Desk {
            engine: _,
            chronicle,
            origin: _,
            marks: _,
            copy: _,
            down: _,
            stage: _,
            changes: _,
            kept: _,
            shadow: _,
            outlet: _,
            volume,
            operator,
        } = self;
        let calls = chronicle.calls();
        (volume, operator, chronicle.into_trace(), calls)
    }
}
