// The events of a run.
//
// 1. A run is a list of events, each made by the system, a session or the utility.
// 2. Each event is atomic: nothing of another actor stands between its beginning and its end.
// 3. A refusal is an event too, and says what was wanted and what there was.
ghost use Rattle.std.specs.Prelude.{◌≡◌};

use crate::layout::{Side, Sides};
use crate::stmt::{Reply, Stmt};
use rg_base::control::Answer;
use rg_base::copy::TableCopy;
use rg_base::options::{DrainFor, Options};
use rg_base::session::Session;
use rg_base::verdict::{StopReason, Verdict};
use rg_base::which::Which;

/// Who makes an event.
#[derive(Clone, Copy, Debug, PartialEq, Eq)]
pub enum Actor {
    System,
    Session(Session),
    Utility,
}

/// One atomic step of a run.
#[derive(Debug, Drop)]
pub enum Event {
    /// The volume was opened: which copy of the table is current, how many committed rows and pages
    /// it has, and how many bytes of the log are used.
    Opened {
        copy: TableCopy,
        rows: u64,
        pages: u32,
        used: u32,
    },
    /// A session's statement was answered.
    Said {
        stmt: Stmt,
        reply: Reply,
    },
    /// The utility started, over this copy and so many pages.
    Started {
        options: Options,
        copy: TableCopy,
        pages: u32,
    },
    /// A control statement came while a utility ran.
    Active,
    /// The log had no room for the utility: so many bytes were needed, and so many left.
    StartLogFull {
        need: u32,
        left: u32,
    },
    /// A control statement came while the engine was down.
    StartDown,
    /// Out of memory for the utility.
    StartNoMemory,
    /// A step while no utility runs.
    Idle,
    /// A step while the engine was down.
    StepDown,
    /// A page was copied with its rows.
    Unload {
        page: u32,
        rows: u16,
    },
    /// A page of the new copy was filled.
    Reload {
        page: u32,
        rows: u16,
    },
    /// The entries of an index were sorted.
    Sort(Which),
    /// An index of the new copy was built.
    Build(Which),
    /// A part of an iteration over the log: so many changes were taken, and so many are left.
    Log {
        iteration: u64,
        took: u8,
        left: u64,
        verdict: Verdict,
    },
    /// The drain waits for a session.
    Wait(Session),
    /// The drain was granted.
    Granted(DrainFor),
    /// The drain was abandoned; the number says how often so far.
    GiveUp(u32),
    /// A part of the last iteration.
    Last {
        took: u8,
        left: u64,
    },
    /// The new copy was written and synced.
    Written {
        pages: u32,
    },
    /// The new copy is current.
    Switched {
        copy: TableCopy,
        sides: Sides,
    },
    /// The utility is over.
    Ended,
    /// The utility stopped.
    Stop(StopReason),
    /// A page was written.
    Flush {
        page: u32,
    },
    /// A flush that found no dirty page.
    Clean,
    /// A flush in which a call of the volume failed.
    FlushDevice,
    /// A flush while the engine was down.
    FlushDown,
    /// Out of memory for a flush.
    FlushNoMemory,
    /// The layout was shown.
    Layout {
        copy: TableCopy,
        side: Side,
    },
    /// A layout in which a call of the volume failed.
    LayoutDevice,
    /// A layout while the engine was down.
    LayoutDown,
    /// Out of memory for a layout.
    LayoutNoMemory,
}

/// An event in the trace of a run. `answer` is the operator's, where the event is a step that asked
/// it. `calls` is the number of volume calls from the entry of the program's call to the end of
/// this event; an X does not restart it, and it stays at 2 ^ 64 - 1 once it stands there.
#[derive(Debug, Drop)]
pub struct Entry {
    pub actor: Actor,
    pub event: Event,
    pub answer: Option<Answer>,
    pub calls: u64,
}

impl Entry {
    ghost use Rattle.rg_stmt.specs.Entries.{opened_entry, said_entry};

    /// The entry of an opening, at the end of which the volume had been called `calls` times.
    pub fn opened(copy: TableCopy, rows: u64, pages: u32, used: u32, calls: u64) -> Entry
        ensures { result ≡ opened_entry copy rows pages used calls }
    {
        Entry {
            actor: Actor::System,
            event: Event::Opened {
                copy,
                rows,
                pages,
                used,
            },
            answer: None,
            calls,
        }
    }

    /// The entry of a statement that was answered.
    pub fn said(session: Session, stmt: Stmt, reply: Reply, calls: u64) -> Entry
        ensures { result ≡ said_entry session stmt reply calls }
    {
        Entry {
            actor: Actor::Session(session),
            event: Event::Said { stmt, reply },
            answer: None,
            calls,
        }
    }
}
