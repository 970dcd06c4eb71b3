use crate::rows::{Keys, Rows};
use rg_base::row::Row;
use rg_base::session::Session;

/// What a session asks of the table.
#[derive(Debug, Drop)]
pub enum Stmt {
    /// Adds a row.
    Insert(Row),
    /// Replaces the row of its key.
    Update(Row),
    /// Removes the row of a key.
    Delete(u64),
    /// Looks for the row of a key.
    Select(u64),
    /// Looks for the rows of the keys from `lo` to `hi`, both included.
    Scan { lo: u64, hi: u64 },
    /// Looks for the keys of the rows with this `cat`.
    Find(u64),
    /// Ends the unit of work and keeps what it wrote.
    Commit,
    /// Ends the unit of work and puts back what it wrote.
    Rollback,
}

/// The reply to a statement. Number 0 says that the statement was done. After any other number the
/// table is as before, except for the rollback of a victim.
#[derive(Debug, Drop)]
pub enum Reply {
    /// Done, number 0.
    Done,
    /// The row of the key, number 0.
    Found(Row),
    /// The rows of the range, by rising key, number 0.
    Listed(Rows),
    /// The rising keys of the rows with the `cat`, number 0.
    Keyed(Keys),
    /// There is no such row, number 100.
    Absent,
    /// The key is present, number -803.
    Duplicate,
    /// This session has locked the key, number -913.
    Held(Session),
    /// This session blocked the statement as often as it may be tried; the unit was rolled back,
    /// number -911.
    Victim(Session),
    /// A drain covers a class that the statement needs and its session doesn't hold, number -904.
    Drained,
    /// No page has so much room, and the copy is at its capacity, number 1.
    Full { need: u16 },
    /// The log has no room for so many bytes, number 2.
    LogFull { need: u32, left: u32 },
    /// A call of the volume failed, number 3.
    Device,
    /// The engine is down since a failed end of a unit or a failed switch, number 4.
    Down,
    /// Out of memory, number 5.
    NoMemory,
}
