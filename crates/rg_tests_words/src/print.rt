use rg_base::control::{Deadline, Longlog, Maxro};
use rg_base::copy::TableCopy;
use rg_base::no_memory::NoMemory;
use rg_base::options::{DrainFor, Options};
use rg_base::place::Place;
use rg_base::row::Row;
use rg_base::session::Session;
use rg_base::set::Set;
use rg_base::text::Text;
use rg_base::verdict::{StopReason, Verdict};
use rg_base::which::Which;
use rg_print::print::{Close, print, print_layout};
use rg_stmt::event::{Actor, Entry, Event};
use rg_stmt::layout::{Listing, Side, Sides, Spot, Spots};
use rg_stmt::rows::{Keys, Rows};
use rg_stmt::stmt::{Reply, Stmt};
use std::alloc::{AllocError, Global};
use std::test::Fail;

fn row(key: u64, clus: u64, text: Text) -> Row {
    Row {
        key,
        clus,
        cat: 1,
        text,
    }
}

#[test]
fn prints_replies(rt: HostRuntime) -> Result<(), Fail> {
    let alloc = rt.alloc();
    let rows = vec![in alloc;
        row(2, 20, Text::new(b"ab".to_vec(alloc)?)),
        row(3, 30, Text::new(Vec::new(alloc))),
    ]?;
    let replies = vec![in alloc;
        Reply::Done,
        Reply::Found(row(5, 50, Text::new(b"ab".to_vec(alloc)?))),
        Reply::Found(row(5, 50, Text::new(Vec::new(alloc)))),
        Reply::Found(row(5, 50, Text::new(b"-".to_vec(alloc)?))),
        Reply::Listed(Rows::new(rows)),
        Reply::Listed(Rows::new(Vec::new(alloc))),
        Reply::Keyed(Keys::new(vec![in alloc; 4, 18_446_744_073_709_551_615]?)),
        Reply::Keyed(Keys::new(Vec::new(alloc))),
        Reply::Absent,
        Reply::Duplicate,
        Reply::Held(Session(12)),
        Reply::Victim(Session(99)),
        Reply::Drained,
        Reply::Full { need: 90 },
        Reply::LogFull { need: 90, left: 80 },
        Reply::Device,
        Reply::Down,
        Reply::NoMemory,
    ]?;
    let mut trace = Vec::new(alloc);
    for reply in replies {
        trace.push(Entry::said(Session(7), Stmt::Commit, reply, 0))?;
    }
    let text = print(alloc, &trace, false, Close::Down)?;
    let want = b"0 7 OK
1 7 ROW 5 50 1 ab
2 7 ROW 5 50 1 -
3 7 ROW 5 50 1 --
4 7 ROWS 2
  ROW 2 20 1 ab
  ROW 3 30 1 -
5 7 ROWS 0
6 7 KEYS 2: 4 18446744073709551615
7 7 KEYS 0:
8 7 100 NONE
9 7 -803 DUPLICATE
10 7 -913 HELD 12
11 7 -911 VICTIM 99
12 7 -904 DRAINED
13 7 1 FULL
14 7 2 LOGFULL
15 7 3 DEVICE
16 7 4 DOWN
17 7 5 NOMEMORY
END entries=18 DOWN
";
    assert_eq!(rt; text.as_slice(), want.as_slice());
    Ok(())
}

const OPTIONS: Options = Options {
    maxro: Maxro::Within(9),
    longlog: Longlog::Term,
    delay: 1,
    deadline: Deadline::Never,
    drain: DrainFor::All,
    wait: 2,
    retry: 3,
    pause: 4,
    pctfree: 5,
    freepage: 6,
};

// What is printed of these events, which the utility makes after an opening.
fn printed(alloc: Global, events: Vec<Event>, full: bool) -> Result<Vec<u8>, NoMemory> {
    let mut trace = vec![in alloc; Entry::opened(TableCopy::first(), 30, 4, 500, 6)]?;
    for event in events {
        trace.push(Entry {
            actor: Actor::Utility,
            event,
            answer: None,
            calls: 0,
        })?;
    }
    let text = print(alloc, &trace, full, Close::Rows(3))?;
    Ok(text.into_vec())
}

fn log(verdict: Verdict) -> Event {
    Event::Log {
        iteration: 2,
        took: 8,
        left: 300,
        verdict,
    }
}

#[test]
fn prints_the_utility(rt: HostRuntime) -> Result<(), Fail> {
    let alloc = rt.alloc();
    let events = vec![in alloc;
        Event::Started {
            options: OPTIONS,
            copy: TableCopy::second(),
            pages: 7,
        },
        Event::Active,
        Event::StartLogFull { need: 90, left: 80 },
        Event::StartDown,
        Event::StartNoMemory,
        Event::Idle,
        Event::StepDown,
        Event::Unload { page: 5, rows: 40 },
        Event::Reload { page: 6, rows: 50 },
        Event::Sort(Which::Key),
        Event::Build(Which::Clus),
        Event::Sort(Which::Cat),
        log(Verdict::More),
        log(Verdict::Next),
        log(Verdict::Message),
        log(Verdict::Drain(DrainFor::Writers)),
        log(Verdict::Drain(DrainFor::All)),
        log(Verdict::Stop(StopReason::Deadline)),
        log(Verdict::Stop(StopReason::Longlog)),
        Event::Wait(Session(3)),
        Event::Granted(DrainFor::Writers),
        Event::Granted(DrainFor::All),
        Event::GiveUp(2),
        Event::Last { took: 4, left: 10 },
        Event::Written { pages: 9 },
        Event::Ended,
    ]?;
    let text = printed(alloc, events, true)?;
    let want = b"0 - OPENED copy=1 rows=30 pages=4
1 U STARTED copy=2 pages=7
2 U ACTIVE
3 U 2 LOGFULL
4 U 4 DOWN
5 U 5 NOMEMORY
6 U IDLE
7 U 4 DOWN
8 U UNLOAD page=5 rows=40
9 U RELOAD page=6 rows=50
10 U SORT KEY
11 U BUILD CLUS
12 U SORT CAT
13 U LOG iteration=2 took=8 left=300 MORE
14 U LOG iteration=2 took=8 left=300 NEXT
15 U LOG iteration=2 took=8 left=300 MESSAGE
16 U LOG iteration=2 took=8 left=300 DRAIN WRITERS
17 U LOG iteration=2 took=8 left=300 DRAIN ALL
18 U LOG iteration=2 took=8 left=300 STOP DEADLINE
19 U LOG iteration=2 took=8 left=300 STOP LONGLOG
20 U WAIT 3
21 U GRANTED WRITERS
22 U GRANTED ALL
23 U GIVEUP 2
24 U LAST took=4 left=10
25 U WRITTEN pages=9
26 U ENDED
END entries=27 rows=3
";
    assert_eq!(rt; text.as_slice(), want.as_slice());
    Ok(())
}

#[test]
fn prints_stops_and_flushes(rt: HostRuntime) -> Result<(), Fail> {
    let alloc = rt.alloc();
    let events = vec![in alloc;
        Event::Stop(StopReason::Term),
        Event::Stop(StopReason::Deadline),
        Event::Stop(StopReason::Longlog),
        Event::Stop(StopReason::Drain),
        Event::Stop(StopReason::NoSpace),
        Event::Stop(StopReason::Device),
        Event::Stop(StopReason::NoMemory),
        Event::Flush { page: 11 },
        Event::Clean,
        Event::FlushDevice,
        Event::FlushDown,
        Event::FlushNoMemory,
        Event::LayoutDevice,
        Event::LayoutDown,
        Event::LayoutNoMemory,
    ]?;
    let text = printed(alloc, events, false)?;
    let want = b"0 - OPENED copy=1 rows=30 pages=4
1 U STOP TERM
2 U STOP DEADLINE
3 U STOP LONGLOG
4 U STOP DRAIN
5 U STOP NOSPACE
6 U STOP DEVICE
7 U STOP NOMEMORY
8 U FLUSH page=11
9 U CLEAN
10 U 3 DEVICE
11 U 4 DOWN
12 U 5 NOMEMORY
13 U 3 DEVICE
14 U 4 DOWN
15 U 5 NOMEMORY
END entries=16 rows=3
";
    assert_eq!(rt; text.as_slice(), want.as_slice());
    Ok(())
}

fn at(slot: u16) -> Place {
    Place { page: 1, slot }
}

fn spot(slot: u16, key: u64, clus: u64) -> Spot {
    Spot {
        place: at(slot),
        key,
        clus,
        over: None,
    }
}

// The copy before the clustering is restored: rows lie in the order in which they came.
fn old_side(alloc: Global) -> Result<Side, AllocError> {
    Ok(Side {
        pages: 1,
        spots: Spots::new(vec![in alloc; spot(0, 3, 10), spot(1, 1, 20), spot(2, 2, 10)]?),
        keys: Listing::new(vec![in alloc; (1, at(1)), (2, at(2)), (3, at(0))]?),
        cluses: Listing::new(vec![in alloc; (10, at(0)), (10, at(2)), (20, at(1))]?),
        cats: Listing::new(vec![in alloc; (1, at(0)), (1, at(1)), (1, at(2))]?),
    })
}

// A copy with one row, which was moved from page 2 to page 30.
fn moved_side(alloc: Global) -> Result<Side, AllocError> {
    let home = Place { page: 2, slot: 0 };
    let over = Some(Place { page: 30, slot: 4 });
    Ok(Side {
        pages: 30,
        spots: Spots::new(vec![in alloc;
            Spot {
                place: home,
                key: 8,
                clus: 9,
                over
            },
        ]?),
        keys: Listing::new(vec![in alloc; (8, home)]?),
        cluses: Listing::new(vec![in alloc; (9, home)]?),
        cats: Listing::new(Vec::new(alloc)),
    })
}

fn layouts(alloc: Global) -> Result<Vec<Event>, AllocError> {
    let switched = Event::Switched {
        copy: TableCopy::second(),
        sides: Sides {
            old: old_side(alloc)?,
            new: moved_side(alloc)?,
        },
    };
    let shown = Event::Layout {
        copy: TableCopy::second(),
        side: moved_side(alloc)?,
    };
    Ok(vec![in alloc; switched, shown]?)
}

#[test]
fn prints_layouts_in_full(rt: HostRuntime) -> Result<(), Fail> {
    let alloc = rt.alloc();
    let text = printed(alloc, layouts(alloc)?, true)?;
    let want = b"0 - OPENED copy=1 rows=30 pages=4
1 U SWITCHED copy=2
  OLD pages=1 rows=3 over=0
  SPOT 1.0 3 10 HOME
  SPOT 1.1 1 20 HOME
  SPOT 1.2 2 10 HOME
  KEY 1 1.1
  KEY 2 1.2
  KEY 3 1.0
  CLUS 10 1.0
  CLUS 10 1.2
  CLUS 20 1.1
  CAT 1 1.0
  CAT 1 1.1
  CAT 1 1.2
  NEW pages=30 rows=1 over=1
  SPOT 2.0 8 9 OVER 30.4
  KEY 8 2.0
  CLUS 9 2.0
2 U LAYOUT copy=2
  NOW pages=30 rows=1 over=1
  SPOT 2.0 8 9 OVER 30.4
  KEY 8 2.0
  CLUS 9 2.0
END entries=3 rows=3
";
    assert_eq!(rt; text.as_slice(), want.as_slice());
    Ok(())
}

#[test]
fn prints_layouts_in_brief(rt: HostRuntime) -> Result<(), Fail> {
    let alloc = rt.alloc();
    let text = printed(alloc, layouts(alloc)?, false)?;
    let want = b"0 - OPENED copy=1 rows=30 pages=4
1 U SWITCHED copy=2
  OLD pages=1 rows=3 over=0
  NEW pages=30 rows=1 over=1
2 U LAYOUT copy=2
  NOW pages=30 rows=1 over=1
END entries=3 rows=3
";
    assert_eq!(rt; text.as_slice(), want.as_slice());
    Ok(())
}

#[test]
fn prints_a_layout_alone(rt: HostRuntime) -> Result<(), Fail> {
    let side = moved_side(rt.alloc())?;
    let text = print_layout(rt.alloc(), TableCopy::first(), &side)?;
    let want = b"LAYOUT copy=1
  NOW pages=30 rows=1 over=1
  SPOT 2.0 8 9 OVER 30.4
  KEY 8 2.0
  CLUS 9 2.0
";
    assert_eq!(rt; text.as_slice(), want.as_slice());
    Ok(())
}

#[test]
fn prints_closes(rt: HostRuntime) -> Result<(), Fail> {
    for (close, want) in [
        (Close::Rows(0), b"END entries=0 rows=0\n".as_slice()),
        (Close::Down, b"END entries=0 DOWN\n"),
        (
            Close::Damaged {
                set: Set::Log,
                page: 7,
            },
            b"REFUSED volume damaged LOG 7\n",
        ),
        (
            Close::Damaged {
                set: Set::First,
                page: 7,
            },
            b"REFUSED volume damaged FIRST 7\n",
        ),
        (
            Close::Damaged {
                set: Set::Second,
                page: 7,
            },
            b"REFUSED volume damaged SECOND 7\n",
        ),
    ] {
        let text = print(rt.alloc(), &[], true, close)?;
        assert_eq!(rt; text.as_slice(), want, "at {close:?}");
    }
    Ok(())
}
