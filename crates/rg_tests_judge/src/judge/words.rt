// The words in which traces are written.
use rg_base::control::{Answer, Command, Deadline, Longlog, Maxro};
use rg_base::copy::TableCopy;
use rg_base::no_memory::NoMemory;
use rg_base::options::{DrainFor, Options};
use rg_base::place::Place;
use rg_base::row::Row;
use rg_base::session::Session;
use rg_base::text::Text;
use rg_base::which::Which;
use rg_stmt::event::{Actor, Entry, Event};
use rg_stmt::layout::{Listing, Side, Sides, Spot, Spots};
use rg_stmt::rows::Rows;
use rg_stmt::stmt::{Reply, Stmt};
use std::alloc::Global;

/// The control statement without options.
pub fn defaults() -> Options {
    Options {
        maxro: Maxro::Within(300),
        longlog: Longlog::Continue,
        delay: 1200,
        deadline: Deadline::Never,
        drain: DrainFor::Writers,
        wait: 30,
        retry: 3,
        pause: 30,
        pctfree: 5,
        freepage: 0,
    }
}

/// A row with the text `a`.
pub fn row(alloc: Global, key: u64, clus: u64, cat: u64) -> Result<Row, NoMemory> {
    Ok(Row {
        key,
        clus,
        cat,
        text: Text::new(b"a".to_vec(alloc)?),
    })
}

pub fn said(number: u8, stmt: Stmt, reply: Reply) -> Entry {
    Entry::said(Session(number), stmt, reply, 0)
}

/// A line of the system.
pub fn system(event: Event) -> Entry {
    Entry {
        actor: Actor::System,
        event,
        answer: None,
        calls: 0,
    }
}

/// A line of the utility that asks nobody.
pub fn line(event: Event) -> Entry {
    Entry {
        actor: Actor::Utility,
        event,
        answer: None,
        calls: 0,
    }
}

/// A step of the utility, with the operator's answer before it.
pub fn step_as(now: u32, estimate: u32, command: Command, event: Event) -> Entry {
    Entry {
        actor: Actor::Utility,
        event,
        answer: Some(Answer {
            now,
            estimate,
            command,
        }),
        calls: 0,
    }
}

/// A step at a moment.
pub fn step(now: u32, event: Event) -> Entry {
    step_as(now, 0, Command::Nothing, event)
}

/// The right event, or the other one.
pub fn pick(wrong: bool, right: Event, other: Event) -> Event {
    if wrong { other } else { right }
}

/// The right reply, or the other one.
pub fn pick_reply(wrong: bool, right: Reply, other: Reply) -> Reply {
    if wrong { other } else { right }
}

/// The three steps that sort, and the three that build.
pub fn index_step(at: usize, wrong: bool) -> Entry {
    match at {
        0 => step(
            0,
            pick(wrong, Event::Sort(Which::Key), Event::Sort(Which::Cat)),
        ),
        1 => step(
            0,
            pick(wrong, Event::Sort(Which::Clus), Event::Build(Which::Key)),
        ),
        2 if wrong => line(Event::Sort(Which::Cat)),
        2 => step(0, Event::Sort(Which::Cat)),
        3 if wrong => system(Event::Build(Which::Key)),
        3 => step(0, Event::Build(Which::Key)),
        4 => step(
            0,
            pick(wrong, Event::Build(Which::Clus), Event::Build(Which::Key)),
        ),
        _ => step(0, pick(wrong, Event::Build(Which::Cat), Event::Ended)),
    }
}

fn place(slot: u16) -> Place {
    Place { page: 1, slot }
}

fn spot(slot: u16, key: u64, clus: u64) -> Spot {
    Spot {
        place: place(slot),
        key,
        clus,
        over: None,
    }
}

// A list of values and slots.
fn listing(alloc: Global, entries: &[(u64, u16)]) -> Result<Listing, NoMemory> {
    let mut list = Vec::new(alloc);
    for entry in entries {
        list.push((entry.0, place(entry.1)))?;
    }
    Ok(Listing::new(list))
}

/// A copy without rows.
pub fn empty_side(alloc: Global) -> Result<Side, NoMemory> {
    Ok(Side {
        pages: 0,
        spots: Spots::new(Vec::new(alloc)),
        keys: listing(alloc, &[])?,
        cluses: listing(alloc, &[])?,
        cats: listing(alloc, &[])?,
    })
}

/// Row 1 with the clus 10 and the cat 1, alone.
pub fn one_side(alloc: Global) -> Result<Side, NoMemory> {
    Ok(Side {
        pages: 1,
        spots: Spots::new([spot(0, 1, 10)].to_vec(alloc)?),
        keys: listing(alloc, &[(1, 0)])?,
        cluses: listing(alloc, &[(10, 0)])?,
        cats: listing(alloc, &[(1, 0)])?,
    })
}

/// Three rows in the order in which they came.
pub fn old_side(alloc: Global) -> Result<Side, NoMemory> {
    Ok(Side {
        pages: 1,
        spots: Spots::new([spot(0, 3, 10), spot(1, 1, 20), spot(2, 2, 10)].to_vec(alloc)?),
        keys: listing(alloc, &[(1, 1), (2, 2), (3, 0)])?,
        cluses: listing(alloc, &[(10, 0), (10, 2), (20, 1)])?,
        cats: listing(alloc, &[(1, 0), (1, 1), (2, 2)])?,
    })
}

/// The same in clustering order, or with one place twice.
pub fn clustered_side(alloc: Global, twice: bool) -> Result<Side, NoMemory> {
    let last = if twice { 1 } else { 2 };
    Ok(Side {
        pages: 1,
        spots: Spots::new([spot(0, 2, 10), spot(1, 3, 10), spot(last, 1, 20)].to_vec(alloc)?),
        keys: listing(alloc, &[(1, last), (2, 0), (3, 1)])?,
        cluses: listing(alloc, &[(10, 0), (10, 1), (20, last)])?,
        cats: listing(alloc, &[(1, 1), (1, last), (2, 0)])?,
    })
}

/// A switch.
pub fn switched(copy: TableCopy, old: Side, new: Side) -> Event {
    Event::Switched {
        copy,
        sides: Sides { old, new },
    }
}

/// The three rows by rising key, or none.
pub fn three_rows(alloc: Global, wrong: bool) -> Result<Reply, NoMemory> {
    let mut rows = Vec::new(alloc);
    if !wrong {
        rows.push(row(alloc, 1, 20, 1)?)?;
        rows.push(row(alloc, 2, 10, 2)?)?;
        rows.push(row(alloc, 3, 10, 1)?)?;
    }
    Ok(Reply::Listed(Rows::new(rows)))
}
