// How many changes the entries have made since a utility started.
// (1) Each write that was done is a change, and a rollback is one for each write of its unit.
// (2) The writes of each session's open unit are counted, also those before the utility started.
// (3) The room for all sessions is taken at the beginning. No later call takes memory.
ghost use Rattle.std.specs.Prelude.{◌≡◌, ◌+◌, ◌<◌, ◌≤◌, ◌^◌, ℕ, List, [], ◌∷◌, true, IfOk};
ghost use Rattle.std.specs.Prelude.{slice_set};
ghost use Rattle.rg_base.specs.Session.{IsSession};
ghost use Rattle.rg_model.specs.Changes.{is_rollback, is_write, writes_after};
ghost use Rattle.rg_stmt.specs.Entries.{said_entry};
ghost use Rattle.rg_stmt.specs.declared.event.Entry.{Entry};
ghost use Rattle.rg_rules.specs.Tally.Changed.{IsCounted, HasRoom, writes_at, made_by, no_changes};

use crate::tally::tally::{is_rollback, is_unit_end, is_write};
use rg_base::no_memory::NoMemory;
use rg_base::session::Session;
use rg_stmt::stmt::{Reply, Stmt};
use std::alloc::Global;
use std::marker::Model;

/// The changes since a utility started, and the writes of each session's open unit.
#[derive(Drop)]
pub struct Changes {
    since: u64,
    writes: Vec<u64>,
}

impl Model for Changes {
    ghost use Rattle.std.specs.Prelude.{◌≡◌, vec_len};
    ghost use Rattle.rg_rules.specs.Tally.Changed.{ChangeCount};

    ghost Value = { ChangeCount };

    ghost view = { λ c. record { since = c.since; writes = c.writes.items } };

    ghost invariant = { λ c. vec_len c.writes ≡ 256 };
}

// The writes of a unit that had so many, after a statement of its session.
fn writes_after(stmt: &Stmt, reply: &Reply, before: u64) -> u64
    requires { before + 1 < 2 ^ 64 }
    ensures { result ≡ writes_after stmt.now reply.now before }
{
    if is_unit_end(stmt, reply) {
        return 0;
    }
    if is_write(stmt, reply) {
        before + 1
    } else {
        before
    }
}

// The changes that a statement makes of a session whose unit has so many writes.
fn changes_of(stmt: &Stmt, reply: &Reply, writes: u64) -> u64
    ensures { result ≡ made_by stmt.now reply.now writes }
{
    if is_write(stmt, reply) {
        return 1;
    }
    if is_rollback(stmt, reply) { writes } else { 0 }
}

impl Changes {
    /// Nothing was entered.
    pub fn new(alloc: Global) -> Result<Changes, NoMemory>
        ensures { IfOk result (λ changes. changes ≡ no_changes) }
    {
        Ok(Changes {
            since: 0,
            writes: vec![in alloc; 0; 256]?,
        })
    }

    /// The changes since the last start of a utility, or since the opening where none has started.
    pub fn since(&self) -> u64
        ensures { result ≡ self.now.since }
    {
        self.since
    }

    /// Whether the counts have room for a statement of a session. They have, but for more entries
    /// than memory holds.
    pub fn has_room(&self, session: Session) -> bool
        ensures { result ≡ true → HasRoom self.now session.0 }
    {
        let writes = self.writes[usize::from(session.0)];
        match self.since.checked_add(writes) {
            Some(sum) => sum < u64::MAX - 1,
            None => false,
        }
    }

    /// The entry of a statement was made.
    pub fn count(&mut self, session: Session, stmt: &Stmt, reply: &Reply)
        requires { HasRoom self.old session.0 }
        ensures counted { (past : List Entry) (calls : ℕ) → IsCounted past self.old
            → IsCounted (said_entry session stmt.now reply.now calls ∷ past) self.new }
        ensures later { self.old.since ≤ self.new.since }
    {
        let n = usize::from(session.0);
        let writes = self.writes[n];
        self.since += changes_of(stmt, reply, writes);
        self.writes[n] = writes_after(stmt, reply, writes);
    }

    /// A utility started. What open units have written still counts for their rollbacks.
    pub fn start(&mut self)
        ensures { self.new ≡ record self.old { since = 0 } }
    {
        self.since = 0;
    }
}
