// What is sent of a statement.
//
// 1. While a utility runs, the changes of rows that a statement makes are sent to it as soon as
//    their records are appended.
// 2. The rows of these changes are copied, and room for the items is taken, before the statement is
//    answered. Where there is none the statement is out of memory, and nothing was done.
// 3. A write leaves its home the statement's row, or none. A ROLLBACK leaves each home the row that
//    the write found there.
ghost use Rattle.std.specs.Prelude.{◌≡◌, ◌++◌, ◌∷◌, [], ◌≤◌, true, false, drop, List, length, IfOk};
ghost use Rattle.std.specs.Prelude.{OnErr};
ghost use Rattle.std.specs.Option.{option_copied};
ghost use Rattle.rg_laws_utility.specs.RecordChanges.Changed.{changes_in, rows_after};
ghost use Rattle.rg_laws_utility.specs.ByteAccount.Found.{rows_made};
ghost use Rattle.rg_engine.specs.Moves.{AreOwn, rows_before};
ghost use Rattle.rg_engine.specs.Sends.{before_in, is_ok};
ghost use Rattle.rg_engine.specs.Shows.{IsShown};
ghost use Rattle.rg_engine.specs.Steps.{is_commit};
ghost use Rattle.rg_engine.specs.Undoing.{HasWrites};
ghost use Rattle.rg_engine.specs.Units.{unit_at};
ghost use Rattle.rg_engine.specs.Walks.{Walks};
ghost use Rattle.rg_feed.specs.Ends.{SameSent, sent_items};
ghost use Rattle.rg_laws_log.specs.LogState.Write.{Write};
ghost use Rattle.rg_engine.specs.ChangeFeed.Sending.{items_made};
ghost use Rattle.rg_stmt.specs.declared.stmt.Reply.TheVariants.{Done};

use crate::change_feed::send::send_changes;
use crate::engine::Engine;
use crate::records::record_at;
use crate::units::OpenUnit;
use rg_base::no_memory::NoMemory;
use rg_base::row::{Row, copy_row};
use rg_base::session::Session;
use rg_feed::outlet::FeedOut;
use rg_log::log::Log;
use rg_record::record::{Kind, Record};
use rg_stmt::stmt::{Reply, Stmt};
use std::alloc::Global;
use std::collections::VecDeque;

/// Whether a statement was answered OK.
pub fn is_ok(reply: &Reply) -> bool
    ensures { result ≡ is_ok reply.now }
{
    matches!(reply, Reply::Done)
}

// A copy of the row that a Change found, or None of another record.
fn copy_before(alloc: Global, entry: &Record) -> Result<Option<Option<Row>>, NoMemory>
    ensures { IfOk result (λ copy. copy ≡ before_in entry.now) }
{
    match &entry.kind {
        Kind::Change { before, .. } => Ok(Some(copy_row(alloc, before.as_ref())?)),
        _ => Ok(None),
    }
}

// This row alone, or none.
fn one_row(alloc: Global, row: Option<&Row>) -> Result<VecDeque<Option<Row>>, NoMemory>
    ensures { IfOk result (λ rows. rows.items ≡ option_copied row.entry ∷ []) }
{
    let mut rows = VecDeque::new(alloc);
    rows.push_back(copy_row(alloc, row)?)?;
    Ok(rows)
}

/// Sends the changes of the records from this one on, whose rows these are, where a utility runs.
pub fn send_since(
    log: &Log,
    first: usize,
    runs: bool,
    rows: VecDeque<Option<Row>>,
    outlet: &mut FeedOut,
)
    requires within { first ≤ length log.now.records }
    requires rows { runs ≡ true
        → rows.items ≡ rows_after (changes_in (drop first log.now.records)) }
    requires room { length rows.items ≤ outlet.old.spare }
    ensures ring { outlet.new.ring ≡ outlet.old.ring }
    ensures items { sent_items outlet.new
        ≡ sent_items outlet.old ++ items_made runs (changes_in (drop first log.now.records)) }
{
    if runs {
        send_changes(&log.records()[first..], rows, outlet);
    }
}

impl Engine {
    // The rows that a unit's writes found, from its last one back.
    fn rows_found(&self, unit: OpenUnit) -> Result<VecDeque<Option<Row>>, NoMemory>
        requires writes { HasWrites self.now.log.records unit }
        ensures { IfOk result (λ rows. (ws : List Write)
            → Walks self.now.log.records unit.tran.0 unit.last.0 ws
            → length ws ≡ unit.writes → rows.items ≡ rows_before ws) }
    {
        let mut rows = VecDeque::new(self.alloc);
        let mut at = unit.last;
        for _ in 0..unit.writes {
            let Some(entry) = record_at(&self.log, at) else {
                unreachable!()
            };
            let Some(before) = copy_before(self.alloc, entry)? else {
                unreachable!()
            };
            at = entry.back;
            rows.push_back(before)?;
        }
        Ok(rows)
    }

    // The rows of the changes that a statement makes that is answered OK.
    fn rows_made(&self, session: Session, stmt: &Stmt) -> Result<VecDeque<Option<Row>>, NoMemory>
        requires shown { IsShown self.now }
        ensures { IfOk result (λ rows. (ws : List Write)
            → AreOwn self.now.log.records (unit_at self.now.units session.0) ws
            → rows.items ≡ rows_made stmt.now Done (rows_before ws)) }
    {
        match stmt {
            Stmt::Insert(row) => one_row(self.alloc, Some(row)),
            Stmt::Update(row) => one_row(self.alloc, Some(row)),
            Stmt::Delete(_) => one_row(self.alloc, None),
            Stmt::Rollback => match self.units.get(session) {
                Some(unit) => self.rows_found(unit),
                None => Ok(VecDeque::new(self.alloc)),
            },
            Stmt::Select(_) | Stmt::Scan { .. } | Stmt::Find(_) | Stmt::Commit => {
                Ok(VecDeque::new(self.alloc))
            }
        }
    }

    /// Copies the rows of the changes that a statement makes that is answered OK, and takes room
    /// for these changes, where a utility runs. A COMMIT makes none, and takes no memory.
    pub fn make_ready(
        &self,
        session: Session,
        stmt: &Stmt,
        runs: bool,
        outlet: &mut FeedOut,
    ) -> Result<VecDeque<Option<Row>>, NoMemory>
        requires shown { IsShown self.now }
        ensures rows { IfOk result (λ rows. runs ≡ true → (ws : List Write)
            → AreOwn self.now.log.records (unit_at self.now.units session.0) ws
            → rows.items ≡ rows_made stmt.now Done (rows_before ws)) }
        ensures room { IfOk result (λ rows. length rows.items ≤ outlet.new.spare) }
        ensures same { SameSent outlet.old outlet.new }
        ensures err { OnErr result (is_commit stmt.now ≡ false) }
    {
        if !runs || matches!(stmt, Stmt::Commit) {
            return Ok(VecDeque::new(self.alloc));
        }
        let rows = self.rows_made(session, stmt)?;
        let Ok(count) = u32::try_from(rows.len()) else {
            return Err(NoMemory);
        };
        outlet.reserve(count)?;
        Ok(rows)
    }
}
