// What the table sends to the utility.
//
// 1. A page is copied once, and a change has the position of its record. So a change that the copy
//    of its page already has is known by its position.
use rg_base::change::Change;
use rg_base::homes::Homes;
use rg_base::options::{DrainState, Options};
use rg_base::position::Position;

/// The numbers of a utility, and the drain in force, after one of its entries.
#[derive(Clone, Copy, Debug, PartialEq, Eq)]
pub struct Stage {
    /// The run asks for a further step of the utility.
    pub running: bool,
    /// How many REORG lines the utility has not made yet.
    pub lines: u32,
    pub options: Options,
    /// The pages of the table at the start.
    pub pages: u32,
    /// The pages copied so far.
    pub copied: u32,
    /// The rows on them.
    pub unloaded: u64,
    /// The rows in the new copy so far.
    pub reloaded: u64,
    /// The pages of the new copy filled so far.
    pub filled: u32,
    /// The lists sorted so far.
    pub sorted: u8,
    /// The indexes built so far.
    pub built: u8,
    /// The number of the iteration over the log; 0 before the first.
    pub iteration: u64,
    /// Where the iteration ends, in changes.
    pub target: u64,
    /// The changes taken so far.
    pub done: u64,
    /// The changes that the iteration had to take when it began.
    pub size: u64,
    pub drain: DrainState,
    /// When the drain was asked.
    pub asked: u32,
    /// When a drain was given up last.
    pub gave_up: Option<u32>,
    /// When the message was sent that the log doesn't grow shorter.
    pub message: Option<u32>,
    /// How often the drain failed.
    pub failed: u32,
    /// The pages of the new copy that were written.
    pub shadow: u32,
    /// The last iteration is over.
    pub last: bool,
    /// The new copy is written.
    pub written: bool,
    /// The copies are switched.
    pub switched: bool,
}

/// What the table sends to the utility, in the order in which it happened.
#[derive(Debug, Drop)]
pub enum Item {
    /// A utility started, over a table of so many pages.
    Begin {
        options: Options,
        pages: u32,
    },
    /// A page was copied: the rows whose homes are on it, as they were after the record at this
    /// position.
    PageCopy {
        page: u32,
        position: Position,
        rows: Homes,
    },
    /// A row was written, or a write was undone.
    Change(Change),
    /// The utility made an entry.
    Booked(Stage),
}
