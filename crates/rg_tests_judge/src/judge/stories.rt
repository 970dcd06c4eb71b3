// The worked traces, entry by entry, and another entry in the place of each.
use crate::judge::words::{
    clustered_side, defaults, empty_side, index_step, line, old_side, one_side, pick, pick_reply,
    row, said, step, step_as, switched, system, three_rows,
};
use rg_base::control::{Alteration, Command, Deadline, Longlog, Maxro};
use rg_base::copy::TableCopy;
use rg_base::no_memory::NoMemory;
use rg_base::options::{DrainFor, Options};
use rg_base::session::Session;
use rg_base::verdict::{StopReason, Verdict};
use rg_stmt::event::{Entry, Event};
use rg_stmt::layout::Side;
use rg_stmt::stmt::{Reply, Stmt};
use std::alloc::Global;

/// A worked trace.
#[derive(Clone, Copy, Debug, PartialEq, Eq)]
pub enum Story {
    Clustering,
    GivenUp,
    Locks,
    LongLog,
    Rollback,
    Empty,
    Deadline,
}

/// An entry, where the story has one.
pub type Told = Result<Option<Entry>, NoMemory>;

fn tell(entry: Entry) -> Told {
    Ok(Some(entry))
}

fn log(iteration: u64, took: u8, left: u64, verdict: Verdict) -> Event {
    Event::Log {
        iteration,
        took,
        left,
        verdict,
    }
}

// The first copy, or the other one.
fn first_unless(other: bool) -> TableCopy {
    if other {
        TableCopy::second()
    } else {
        TableCopy::first()
    }
}

fn started(options: Options, copy: TableCopy, pages: u32) -> Entry {
    line(Event::Started {
        options,
        copy,
        pages,
    })
}

fn last(took: u8, left: u64) -> Event {
    Event::Last { took, left }
}

// An insert, and its reply.
fn insert(alloc: Global, session: u8, values: (u64, u64, u64), reply: Reply) -> Told {
    let row = row(alloc, values.0, values.1, values.2)?;
    tell(said(session, Stmt::Insert(row), reply))
}

// An update of key 1, and its reply.
fn update(alloc: Global, session: u8, clus: u64, reply: Reply) -> Told {
    let row = row(alloc, 1, clus, 1)?;
    tell(said(session, Stmt::Update(row), reply))
}

// Session 2 or another looks for key 1, and finds it.
fn found(alloc: Global, session: u8, wrong: bool) -> Told {
    let row = row(alloc, 1, 10, 1)?;
    let reply = pick_reply(wrong, Reply::Found(row), Reply::Absent);
    tell(said(session, Stmt::Select(1), reply))
}

fn done_or(wrong: bool, other: Reply) -> Reply {
    pick_reply(wrong, Reply::Done, other)
}

fn opened(wrong: bool) -> Entry {
    Entry::opened(TableCopy::first(), u64::from(wrong), 0, 0, 0)
}

fn unload(page: u32, rows: u16) -> Entry {
    step(0, Event::Unload { page, rows })
}

fn reload(page: u32, rows: u16) -> Entry {
    step(0, Event::Reload { page, rows })
}

fn switch(old: Side, new: Side, copy: TableCopy) -> Told {
    tell(step(0, switched(copy, old, new)))
}

// Rows are inserted out of clustering order, and a utility copies them.
fn clustering_before(alloc: Global, at: usize, wrong: bool) -> Told {
    let options = Options {
        drain: DrainFor::All,
        ..defaults()
    };
    match at {
        0 => tell(opened(wrong)),
        1 => insert(alloc, 1, (3, 10, 1), done_or(wrong, Reply::Duplicate)),
        2 => insert(alloc, 1, (1, 20, 1), done_or(wrong, Reply::Absent)),
        3 => insert(
            alloc,
            1,
            (2, 10, 2),
            done_or(wrong, Reply::Held(Session(2))),
        ),
        4 => tell(said(1, Stmt::Commit, done_or(wrong, Reply::NoMemory))),
        5 => tell(started(options, first_unless(wrong), 1)),
        6 => tell(unload(if wrong { 2 } else { 1 }, 3)),
        _ => tell(reload(1, if wrong { 4 } else { 3 })),
    }
}

// The switch restores the clustering order.
fn clustering_switch(alloc: Global, wrong: bool) -> Told {
    let old = old_side(alloc)?;
    if wrong {
        return switch(old, old_side(alloc)?, TableCopy::second());
    }
    switch(old, clustered_side(alloc, false)?, TableCopy::second())
}

fn clustering_shown(alloc: Global, wrong: bool) -> Told {
    let side = clustered_side(alloc, wrong)?;
    tell(system(Event::Layout {
        copy: TableCopy::second(),
        side,
    }))
}

fn clustering_scan(alloc: Global, wrong: bool) -> Told {
    let reply = three_rows(alloc, wrong)?;
    tell(said(2, Stmt::Scan { lo: 1, hi: 3 }, reply))
}

fn clustering_after(at: usize, wrong: bool) -> Told {
    let drain = if wrong {
        Verdict::Next
    } else {
        Verdict::Drain(DrainFor::All)
    };
    let granted = if wrong {
        DrainFor::Writers
    } else {
        DrainFor::All
    };
    match at {
        14 => tell(step(0, log(1, 0, 0, drain))),
        15 => tell(step(0, Event::Granted(granted))),
        16 => tell(step(0, pick(wrong, last(0, 0), Event::Ended))),
        17 => tell(step(0, pick(wrong, Event::Written { pages: 1 }, Event::Ended))),
        19 => tell(step(0, pick(wrong, Event::Ended, Event::Granted(DrainFor::All)))),
        20 if wrong => tell(step(0, Event::Idle)),
        20 => tell(line(Event::Idle)),
        23 => tell(system(Event::Clean)),
        _ => Ok(None),
    }
}

fn clustering(alloc: Global, at: usize, wrong: bool) -> Told {
    match at {
        0..=7 => clustering_before(alloc, at, wrong),
        8..=13 => tell(index_step(at.saturating_sub(8), wrong)),
        18 => clustering_switch(alloc, wrong),
        21 => clustering_scan(alloc, wrong),
        22 => clustering_shown(alloc, wrong),
        _ => clustering_after(at, wrong),
    }
}

// Row 1, and a utility that copies it, and sorts and builds its indexes to entry 12.
fn copied(alloc: Global, options: Options, at: usize, wrong: bool) -> Told {
    match at {
        0 => tell(opened(wrong)),
        1 => insert(alloc, 1, (1, 10, 1), done_or(wrong, Reply::Absent)),
        2 => tell(said(1, Stmt::Commit, done_or(wrong, Reply::Drained))),
        4 if wrong => tell(line(Event::Active)),
        4 => tell(started(options, TableCopy::first(), 1)),
        5 => tell(unload(1, if wrong { 226 } else { 1 })),
        6 => tell(reload(1, if wrong { 0 } else { 1 })),
        _ => tell(index_step(at.saturating_sub(7), wrong)),
    }
}

fn given_up_once(at: usize, wrong: bool) -> Told {
    let drain = Verdict::Drain(DrainFor::Writers);
    match at {
        13 => tell(step(0, log(1, 0, if wrong { 1 } else { 0 }, drain))),
        14 if wrong => tell(step(0, Event::Wait(Session(2)))),
        14 => tell(step(0, Event::Granted(DrainFor::Writers))),
        15 => tell(step(0, last(if wrong { 1 } else { 0 }, 0))),
        16 => tell(step(0, pick(wrong, Event::Written { pages: 1 }, Event::Ended))),
        17 => tell(step(4, Event::Wait(Session(if wrong { 1 } else { 2 })))),
        18 => tell(said(
            3,
            Stmt::Select(1),
            pick_reply(wrong, Reply::Drained, Reply::Absent),
        )),
        _ => tell(step(5, Event::GiveUp(if wrong { 2 } else { 1 }))),
    }
}

fn given_up_twice(at: usize, wrong: bool) -> Told {
    let drain = Verdict::Drain(DrainFor::Writers);
    let granted = if wrong {
        DrainFor::All
    } else {
        DrainFor::Writers
    };
    match at {
        20 => tell(step(6, log(2, 0, 0, if wrong { drain } else { Verdict::Next }))),
        21 => tell(step(7, log(if wrong { 2 } else { 3 }, 0, 0, drain))),
        22 => tell(step(7, Event::Granted(granted))),
        23 => tell(step(7, last(0, if wrong { 1 } else { 0 }))),
        24 => tell(step(7, pick(wrong, Event::Written { pages: 1 }, last(0, 0)))),
        25 => tell(step(
            12,
            pick(wrong, Event::Stop(StopReason::Drain), Event::GiveUp(2)),
        )),
        26 => tell(line(pick(wrong, Event::Idle, Event::Active))),
        _ => Ok(None),
    }
}

// The drain for ALL is given up once, and then too often: session 2 reads throughout.
fn given_up(alloc: Global, at: usize, wrong: bool) -> Told {
    let options = Options {
        wait: 5,
        retry: 1,
        pause: 2,
        ..defaults()
    };
    match at {
        3 => found(alloc, 2, wrong),
        0..=12 => copied(alloc, options, at, wrong),
        13..=19 => given_up_once(at, wrong),
        _ => given_up_twice(at, wrong),
    }
}

// Locks, refusals and a rollback.
fn locks_before(alloc: Global, at: usize, wrong: bool) -> Told {
    let held = Reply::Held(Session(1));
    match at {
        0 => tell(opened(wrong)),
        1 => insert(alloc, 1, (1, 10, 1), done_or(wrong, Reply::Absent)),
        2 => update(alloc, 2, 11, pick_reply(wrong, held, Reply::Absent)),
        3 => tell(said(2, Stmt::Select(1), pick_reply(wrong, held, Reply::Absent))),
        4 => insert(
            alloc,
            2,
            (2, 20, 2),
            pick_reply(wrong, Reply::Full { need: 100 }, held),
        ),
        5 => insert(
            alloc,
            1,
            (2, 20, 2),
            done_or(wrong, Reply::Held(Session(2))),
        ),
        _ => tell(said(1, Stmt::Rollback, done_or(wrong, Reply::Absent))),
    }
}

// A COMMIT that the device refused, and that is in after all.
fn locks_after(alloc: Global, at: usize, wrong: bool) -> Told {
    let held = Reply::Held(Session(1));
    match at {
        7 => tell(said(2, Stmt::Select(1), pick_reply(wrong, Reply::Absent, held))),
        8 => insert(alloc, 2, (1, 10, 1), done_or(wrong, held)),
        9 => tell(said(
            2,
            Stmt::Commit,
            pick_reply(wrong, Reply::Device, Reply::Drained),
        )),
        10 => tell(said(1, Stmt::Select(1), pick_reply(wrong, Reply::Down, held))),
        11 => tell(Entry::opened(TableCopy::first(), if wrong { 2 } else { 1 }, 0, 0, 0)),
        12 => found(alloc, 1, wrong),
        _ => Ok(None),
    }
}

fn locks(alloc: Global, at: usize, wrong: bool) -> Told {
    if at < 7 {
        return locks_before(alloc, at, wrong);
    }
    locks_after(alloc, at, wrong)
}

// The iterations of a log that does not grow shorter.
fn long_log_steps(at: usize, wrong: bool) -> Told {
    let next = if wrong {
        Verdict::Message
    } else {
        Verdict::Next
    };
    let message = if wrong {
        Verdict::Next
    } else {
        Verdict::Message
    };
    let stop = if wrong {
        Verdict::Next
    } else {
        Verdict::Stop(StopReason::Longlog)
    };
    match at {
        3 => tell(system(pick(wrong, Event::Clean, Event::FlushDown))),
        14 => tell(step(100, log(1, 0, 1, message))),
        16 => tell(step(109, log(2, 1, 1, next))),
        18 => tell(step(110, log(3, 1, 1, stop))),
        19 => tell(line(pick(wrong, Event::Idle, Event::StepDown))),
        _ => Ok(None),
    }
}

// The log does not grow shorter, and LONGLOG TERM stops the utility after DELAY.
fn long_log(alloc: Global, at: usize, wrong: bool) -> Told {
    let options = Options {
        maxro: Maxro::Defer,
        longlog: Longlog::Term,
        delay: 10,
        ..defaults()
    };
    match at {
        3 => long_log_steps(at, wrong),
        0..=12 => copied(alloc, options, at, wrong),
        13 | 15 | 17 => update(alloc, 1, 10, done_or(wrong, Reply::Absent)),
        _ => long_log_steps(at, wrong),
    }
}

fn rollback_steps(at: usize, wrong: bool) -> Told {
    let drain = if wrong {
        Verdict::Next
    } else {
        Verdict::Drain(DrainFor::Writers)
    };
    let writers = if wrong {
        DrainFor::All
    } else {
        DrainFor::Writers
    };
    let all = if wrong {
        DrainFor::Writers
    } else {
        DrainFor::All
    };
    match at {
        13 => tell(step(0, log(1, 0, 0, drain))),
        14 => tell(step(0, Event::Wait(Session(if wrong { 2 } else { 1 })))),
        15 => tell(said(1, Stmt::Rollback, done_or(wrong, Reply::Drained))),
        16 => tell(step(0, Event::Granted(writers))),
        17 => tell(step(0, last(if wrong { 0 } else { 1 }, 0))),
        18 => tell(step(0, pick(wrong, Event::Written { pages: 1 }, Event::Ended))),
        19 => tell(step(0, Event::Granted(all))),
        21 => tell(step(
            0,
            pick(wrong, Event::Ended, Event::Stop(StopReason::NoSpace)),
        )),
        22 => tell(said(1, Stmt::Delete(1), done_or(wrong, Reply::Absent))),
        _ => Ok(None),
    }
}

fn rollback_switch(alloc: Global, wrong: bool) -> Told {
    let old = one_side(alloc)?;
    switch(old, one_side(alloc)?, first_unless(!wrong))
}

// Session 1 wrote before the utility started, and rolls back while the drain waits for it. The
// undone write is a change.
fn rollback(alloc: Global, at: usize, wrong: bool) -> Told {
    match at {
        3 => update(alloc, 1, 99, done_or(wrong, Reply::Absent)),
        0..=12 => copied(alloc, defaults(), at, wrong),
        20 => rollback_switch(alloc, wrong),
        _ => rollback_steps(at, wrong),
    }
}

fn empty_switch(alloc: Global, wrong: bool) -> Told {
    let old = empty_side(alloc)?;
    if wrong {
        return switch(old, one_side(alloc)?, TableCopy::second());
    }
    switch(old, empty_side(alloc)?, TableCopy::second())
}

// A utility over a table without rows.
fn empty(alloc: Global, at: usize, wrong: bool) -> Told {
    let drain = Verdict::Drain(if wrong {
        DrainFor::All
    } else {
        DrainFor::Writers
    });
    let writers = if wrong {
        DrainFor::All
    } else {
        DrainFor::Writers
    };
    let all = if wrong {
        DrainFor::Writers
    } else {
        DrainFor::All
    };
    match at {
        0 => tell(opened(wrong)),
        1 => tell(started(defaults(), first_unless(wrong), 0)),
        2..=7 => tell(index_step(at.saturating_sub(2), wrong)),
        8 => tell(step(0, log(1, 0, 0, drain))),
        9 => tell(step(0, Event::Granted(writers))),
        10 => tell(step(0, last(if wrong { 1 } else { 0 }, 0))),
        11 => tell(step(0, pick(wrong, Event::Written { pages: 0 }, Event::Ended))),
        12 => tell(step(0, Event::Granted(all))),
        13 => empty_switch(alloc, wrong),
        14 => tell(step(0, pick(wrong, Event::Ended, Event::Idle))),
        15 => tell(line(pick(wrong, Event::Idle, Event::Active))),
        _ => Ok(None),
    }
}

// An ALTER of MAXRO, or nothing.
fn alter(wrong: bool) -> Command {
    if wrong {
        return Command::Nothing;
    }
    Command::Alter(Alteration {
        maxro: Some(Maxro::Within(10)),
        longlog: None,
        delay: None,
        deadline: None,
    })
}

// MAXRO DEFER goes on at moment 40, an ALTER of MAXRO then drains, and the deadline comes.
fn deadline(at: usize, wrong: bool) -> Told {
    let options = Options {
        maxro: Maxro::Defer,
        deadline: Deadline::At(50),
        ..defaults()
    };
    let drain = Verdict::Drain(DrainFor::Writers);
    let next = if wrong { drain } else { Verdict::Next };
    let late = Event::Stop(StopReason::Deadline);
    match at {
        0 => tell(opened(wrong)),
        1 => tell(started(options, first_unless(wrong), 0)),
        2..=7 => tell(index_step(at.saturating_sub(2), wrong)),
        8 => tell(step_as(40, 10, Command::Nothing, log(1, 0, 0, next))),
        9 => tell(step_as(40, 10, alter(wrong), log(2, 0, 0, drain))),
        10 => tell(step_as(if wrong { 40 } else { 41 }, 10, Command::Nothing, late)),
        _ => Ok(None),
    }
}

fn told(alloc: Global, story: Story, at: usize, wrong: bool) -> Told {
    match story {
        Story::Clustering => clustering(alloc, at, wrong),
        Story::GivenUp => given_up(alloc, at, wrong),
        Story::Locks => locks(alloc, at, wrong),
        Story::LongLog => long_log(alloc, at, wrong),
        Story::Rollback => rollback(alloc, at, wrong),
        Story::Empty => empty(alloc, at, wrong),
        Story::Deadline => deadline(at, wrong),
    }
}

/// An entry of a story, or another in its place. The calls rise; those of entry 23 fall, where it
/// is changed.
pub fn entry(alloc: Global, story: Story, at: usize, wrong: bool) -> Told {
    let Some(mut entry) = told(alloc, story, at, wrong)? else {
        return Ok(None);
    };
    entry.calls = if wrong && at == 23 { 0 } else { at as u64 };
    Ok(Some(entry))
}
