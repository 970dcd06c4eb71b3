// The run of a deck.
//
// 1. The volume is opened first. Where it is refused no line is played.
// 2. Each line makes one entry, in the order of the lines. Where the process dies the volume is
//    opened again, and the trace goes on.
// 3. Where there is no memory for an entry, nothing of its line is done, and the run ends.
// 4. The operator is asked for the steps of a running utility alone.
// 5. The calls of the volume are counted from the opening on.
// 6. A trace that is to be judged is judged at the end, from the table that the first opening
//    found.
ghost use Rattle.std.specs.Prelude.{◌≡◌, ◌≤◌, List, [], ◌∷◌, ◌++◌, None, IfOk, IfErr, OnErr};
ghost use Rattle.std.specs.Prelude.{OnOk, length};
ghost use Rattle.std.specs.List.{AllByRecursion};
ghost use Rattle.rg_stmt.specs.declared.line.Line.{Line};
ghost use Rattle.rg_desk.specs.Desk.{DeskState};
ghost use Rattle.rg_engine.specs.OnVolume.{LeavesSoundIfTidy};
ghost use Rattle.rg_outside.specs.Faults.{Rose};
ghost use Rattle.rg_outside.specs.Moments.{IfTold};
ghost use Rattle.rg_feed.specs.Ends.{Received};
ghost use Rattle.rg_image.specs.Rules.{limit_of};
ghost use Rattle.rg_log.specs.Kept.{log_pages};
ghost use Rattle.rg_phase.specs.Made.{IsBehind, Works};
ghost use Rattle.rg_run.specs.Asked.{HasAnswered, answers_in};
ghost use Rattle.rg_run.specs.LogFull.{IsLogFullOnlyFrom};
ghost use Rattle.rg_run.specs.Space.{AreForSpace};
ghost use Rattle.rg_run.specs.declared.played.RunEnd.{RunEnd};
ghost use Rattle.rg_run.specs.Judged.{JudgesRun, Settles};
ghost use Rattle.rg_run.specs.Whole.{Whole};
ghost use Rattle.rg_run.specs.Outside.{IsDeviceOnlyIf, IsEnd, MakesOnly, WritesOwn, end_of};
ghost use Rattle.rg_run.specs.Parts.{Going, IsRun, LeavesRun};
ghost use Rattle.rg_run.specs.Played.{Goes, IsPlayed};
ghost use Rattle.rg_run.specs.Shown.{ShowsOpened};
ghost use Rattle.rg_run.specs.Table.{FitCalls, AreOpenings, Ends, IsAllowedRun, IsLegalRun};
ghost use Rattle.rg_run.specs.Table.{IsOpening, IsRunOnCourse, KeepsSound};

use crate::played::{Judged, JudgedEnd, Played, RunEnd};
use rg_base::no_memory::NoMemory;
use rg_base::options::Options;
use rg_base::table::Table;
use rg_desk::desk::{Desk, OpenCause, OpenFault};
use rg_desk::run::Run;
use rg_feed::inlet::FeedIn;
use rg_judge::judge::judge;
use rg_outside::counted::{Counted, Counts};
use rg_outside::operator::Operator;
use rg_outside::volume::Volume;
use rg_phase::step::Reorg;
use rg_restart::open::open_desk;
use rg_stmt::line::Line;
use std::alloc::Global;

/// Opens the volume, and plays the lines in order over the table that its log stores. The table
/// lies in memory, in as many pages as the set of the current copy has, and no more than 65,536.
/// The records of committed units are on the volume, and of the pages those that a flush wrote. A
/// death of the process drops all that lies in memory, and the volume is opened again. A control
/// statement starts a utility, which each line `U` takes a step further, up to the switch to a new
/// copy of the table. What it is sent by the lines between is made in that copy too.
pub fn run<V: Volume, O: Operator>(
    alloc: Global,
    volume: V,
    operator: O,
    lines: Vec<Line>,
) -> Played<V, O>
    requires { AllByRecursion IsPlayed lines.items }
    ensures ends { Ends (V.seen volume) (V.seen result.volume) lines.items
        result.trace.items result.end }
    ensures legal { IsLegalRun (V.seen volume) (V.seen result.volume) result.trace.items }
    ensures opening { IsOpening (V.seen volume) (V.seen result.volume) result.trace.items }
    ensures openings { AreOpenings (V.seen volume) (V.seen result.volume) result.trace.items }
    ensures fit { FitCalls (V.seen volume) (V.seen result.volume) result.trace.items }
    // A layout that comes next after the first opening is that of the volume as it read at entry.
    ensures layout { ShowsOpened (V.seen volume) (V.seen result.volume) result.trace.items }
    // FULL comes, and STOP NOSPACE once a list is sorted, only where the entries have allowed 3,221
    // bytes for each page of the smaller copy.
    ensures full { IsAllowedRun 3221 (V.seen volume) (V.seen result.volume) result.trace.items }
    // Each part of the trace tells how a utility is caught up at its switch, and when it ends.
    ensures course { IsRunOnCourse (V.seen volume) (V.seen result.volume) result.trace.items }
    ensures log_full { IsLogFullOnlyFrom (limit_of (log_pages (V.seen volume).capacities)) 0
        result.trace.items }
    ensures space { AreForSpace (V.seen volume).capacities None result.trace.items }
    ensures device { IsDeviceOnlyIf (Rose (V.seen volume).faults (V.seen result.volume).faults)
        result.trace.items }
    ensures end { IsEnd (V.seen volume) (V.seen result.volume) result.trace.items result.end }
    ensures sound { KeepsSound (V.seen volume) (V.seen result.volume) result.trace.items }
    // No page is written but those of the log and of the copies that were opened, and from the
    // start of a utility on those of both copies.
    ensures only { MakesOnly (WritesOwn result.trace.items) (V.seen volume).told
        (V.seen result.volume).told }
    ensures later { (V.seen volume).faults ≤ (V.seen result.volume).faults }
    // The operator was asked for the entries that have its answer, and for no other.
    ensures asked { HasAnswered (O.answers operator) (answers_in result.trace.items)
        (O.answers result.operator) }
{
    match open_desk(alloc, Counted::new(volume), operator, Vec::new(alloc), 0) {
        Ok((desk, inlet)) => uncounted(play(alloc, desk, inlet, lines)),
        Err(fault) => uncounted(refused(fault)),
    }
}

/// A run as `run` makes it, whose trace is then judged. The judge starts from the table that the
/// first opening found. If there is no memory for that table, or for the judge, the run ends so.
pub fn run_judged<V: Volume, O: Operator>(
    alloc: Global,
    volume: V,
    operator: O,
    lines: Vec<Line>,
) -> Judged<V, O>
    requires { AllByRecursion IsPlayed lines.items }
    ensures whole { Whole (V.seen volume) (V.seen result.volume) lines.items
        result.trace.items result.end.end }
    // The operator was asked for the entries that have its answer, and for no other.
    ensures asked { HasAnswered (O.answers operator) (answers_in result.trace.items)
        (O.answers result.operator) }
    ensures judged { JudgesRun (V.seen volume) (V.seen result.volume)
        result.trace.items result.end.end result.end.verdict }
{
    match open_desk(alloc, Counted::new(volume), operator, Vec::new(alloc), 0) {
        Ok((desk, inlet)) => {
            let mut desk = desk;
            let start = desk.table();
            settle(alloc, start, uncounted(play(alloc, desk, inlet, lines)))
        }
        Err(fault) => {
            let played = uncounted(refused(fault));
            let end = JudgedEnd {
                end: played.end,
                verdict: None,
            };
            played.ended(end)
        }
    }
}

// Has the trace of a run judged.
fn settle<V, O>(alloc: Global, start: Result<Table, NoMemory>, played: Played<V, O>) -> Judged<V, O>
    ensures settled { Settles start played.trace.items played.end result.end.end
        result.end.verdict }
    ensures trace { result.trace ≡ played.trace }
    ensures volume { result.volume ≡ played.volume }
    ensures operator { result.operator ≡ played.operator }
{
    let Ok(table) = start else {
        return unjudged(played);
    };
    match judge(alloc, &table, &played.trace) {
        Ok(verdict) => {
            let end = JudgedEnd {
                end: played.end,
                verdict,
            };
            played.ended(end)
        }
        Err(_) => unjudged(played),
    }
}

// A run whose trace could not be judged.
fn unjudged<V, O>(played: Played<V, O>) -> Judged<V, O>
    ensures end { result.end.end ≡ RunEnd.NoMemory }
    ensures trace { result.trace ≡ played.trace }
    ensures volume { result.volume ≡ played.volume }
    ensures operator { result.operator ≡ played.operator }
{
    played.ended(JudgedEnd {
        end: RunEnd::NoMemory,
        verdict: None,
    })
}

// The end of a run whose opening was refused.
fn end_of(cause: OpenCause) -> RunEnd
    ensures { result ≡ end_of cause }
{
    match cause {
        OpenCause::Damaged { set, page } => RunEnd::Damaged { set, page },
        OpenCause::Device => RunEnd::DeviceAtOpening,
        OpenCause::NoMemory => RunEnd::NoMemory,
    }
}

// What a run leaves whose opening was refused.
fn refused<V, O>(fault: OpenFault<V, O>) -> Played<V, O>
    ensures volume { result.volume ≡ fault.volume }
    ensures operator { result.operator ≡ fault.operator }
    ensures trace { result.trace.items ≡ fault.trace.items }
    ensures end { result.end ≡ end_of fault.end }
{
    let end = end_of(fault.end);
    fault.ended(end)
}

// The same run, with the volume that was counted.
fn uncounted<V: Volume, O>(run: Played<Counted<V>, O>) -> Played<V, O>
    ensures trace { result.trace ≡ run.trace }
    ensures end { result.end ≡ run.end }
    ensures volume { result.volume ≡ run.volume.volume }
    ensures counted { IfTold (V.seen result.volume).told
        (λ t. run.volume.calls ≤ length t.calls) }
    ensures operator { result.operator ≡ run.operator }
{
    let Run {
        volume,
        operator,
        trace,
        end,
    } = run;
    Run {
        volume: volume.into_volume(),
        operator,
        trace,
        end,
    }
}

// What a run leaves.
fn close<V: Counts, O: Operator>(desk: Desk<V, O>, end: RunEnd) -> Played<V, O>
    ensures trace { result.trace.items ≡ desk.older ++ desk.trace }
    ensures end { result.end ≡ end }
    ensures left { LeavesRun desk result.trace.items }
    ensures sound { LeavesSoundIfTidy (V.seen desk.volume) }
    ensures volume { result.volume ≡ desk.volume }
    ensures operator { result.operator ≡ desk.operator }
{
    let (volume, operator, trace, _) = desk.into_parts();
    Run {
        volume,
        operator,
        trace,
        end,
    }
}

// The table is opened again, after the process died. Its entries go before those of the opening.
// What it sends is received at another end from then on.
fn reopen<V: Counts, O: Operator>(
    alloc: Global,
    desk: Desk<V, O>,
    inlet: &mut FeedIn,
) -> Result<Desk<V, O>, Played<V, O>>
    ensures goes { IfOk result (λ next. (first : DeskState V O) (lines : List Line)
        → Going V.seen O.answers first lines desk → Going V.seen O.answers first
        (lines ++ Line.Death ∷ []) next) }
    ensures kept { IfOk result (λ next. next.kept ≡ None) }
    ensures shadow { IfOk result (λ next. next.shadow ≡ None) }
    ensures stage { IfOk result (λ next. next.stage ≡ None) }
    ensures behind { IfOk result (λ next. IsBehind inlet.new.items next.feed) }
    ensures ring { IfOk result (λ next. next.ring ≡ inlet.new.ring) }
    ensures ends { IfErr result (λ played. (first : DeskState V O) (lines rest : List Line)
        → Going V.seen O.answers first lines desk → IsRun V.seen O.answers first
        (lines ++ Line.Death ∷ rest) (V.seen played.volume)
        played.operator played.trace.items played.end) }
{
    let (volume, operator, trace, calls) = desk.into_parts();
    match open_desk(alloc, volume, operator, trace, calls) {
        Ok((desk, opened)) => {
            *inlet = opened;
            Ok(desk)
        }
        Err(fault) => Err(refused(fault)),
    }
}

// Starts a utility, where none runs. What was made for an earlier one is dropped then.
fn start<V: Counts, O: Operator>(
    desk: &mut Desk<V, O>,
    reorg: &mut Reorg,
    options: Options,
) -> Result<(), NoMemory>
    ensures goes { OnOk result ((first : DeskState V O) (lines : List Line)
        → Goes V.seen O.answers first lines desk.old → Goes V.seen O.answers first
        (lines ++ Line.Reorg options ∷ []) desk.new) }
    ensures kept { OnOk result (desk.new.kept ≡ desk.old.kept) }
    ensures ring { OnOk result (desk.new.ring ≡ desk.old.ring) }
    ensures works { OnOk result ((inlet : Received)
        → Works V.seen reorg.old.made inlet desk.old
        → Works V.seen reorg.new.made inlet desk.new) }
    ensures err { OnErr result (desk.new ≡ desk.old) }
{
    if !desk.start(options)? {
        return Ok(());
    }
    reorg.forget(desk);
    Ok(())
}

// Plays the lines over a table that was opened.
fn play<V: Counts, O: Operator>(
    alloc: Global,
    desk: Desk<V, O>,
    inlet: FeedIn,
    lines: Vec<Line>,
) -> Played<V, O>
    requires lines { AllByRecursion IsPlayed lines.items }
    requires kept { desk.kept ≡ None }
    requires ring { desk.ring ≡ inlet.ring }
    requires shadow { desk.shadow ≡ None }
    requires stage { desk.stage ≡ None }
    requires behind { IsBehind inlet.items desk.feed }
    requires going { Going V.seen O.answers desk [] desk }
    ensures { IsRun V.seen O.answers desk lines.items (V.seen result.volume)
        result.operator result.trace.items result.end }
{
    let (mut desk, mut inlet) = (desk, inlet);
    let mut reorg = Reorg::new();
    for line in lines {
        desk = match play_line(alloc, desk, &mut inlet, &mut reorg, line) {
            Ok(next) => next,
            Err(played) => return played,
        };
    }
    if desk.down() {
        return close(desk, RunEnd::Down);
    }
    let rows = desk.committed_rows();
    close(desk, RunEnd::Whole { rows })
}

// Makes the entry of a line. If there is no memory for the entry, nothing is done, and the run
// ends.
fn play_line<V: Counts, O: Operator>(
    alloc: Global,
    desk: Desk<V, O>,
    inlet: &mut FeedIn,
    reorg: &mut Reorg,
    line: Line,
) -> Result<Desk<V, O>, Played<V, O>>
    requires line { IsPlayed line }
    requires kept { desk.kept ≡ None }
    requires ring { desk.ring ≡ inlet.old.ring }
    requires works { Works V.seen reorg.old.made inlet.old desk }
    ensures goes { IfOk result (λ next. (first : DeskState V O) (lines : List Line)
        → Going V.seen O.answers first lines desk → Going V.seen O.answers first
        (lines ++ line ∷ []) next) }
    ensures kept { IfOk result (λ next. next.kept ≡ None) }
    ensures ring { IfOk result (λ next. next.ring ≡ inlet.new.ring) }
    ensures works { IfOk result (λ next. Works V.seen reorg.new.made inlet.new next) }
    ensures ends { IfErr result (λ played. (first : DeskState V O) (lines rest : List Line)
        → Going V.seen O.answers first lines desk
        → IsRun V.seen O.answers first (lines ++ line ∷ rest) (V.seen played.volume)
        played.operator played.trace.items played.end) }
{
    let mut desk = desk;
    match line {
        Line::Said { session, stmt } => match desk.exec(session, stmt) {
            Ok(()) => Ok(desk),
            Err(_) => Err(close(desk, RunEnd::NoMemory)),
        },
        Line::Reorg(options) => match start(&mut desk, reorg, options) {
            Ok(()) => Ok(desk),
            Err(_) => Err(close(desk, RunEnd::NoMemory)),
        },
        Line::Step => match reorg.step(alloc, &mut desk, inlet) {
            Ok(()) => Ok(desk),
            Err(_) => Err(close(desk, RunEnd::NoMemory)),
        },
        Line::Flush => match desk.flush_one() {
            Ok(()) => Ok(desk),
            Err(_) => Err(close(desk, RunEnd::NoMemory)),
        },
        Line::Show => match desk.show() {
            Ok(()) => Ok(desk),
            Err(_) => Err(close(desk, RunEnd::NoMemory)),
        },
        Line::Death => {
            *reorg = Reorg::new();
            reopen(alloc, desk, inlet)
        }
    }
}
