// The rules kept here:
//
// 1. Each statement answers and changes the state as the definitions say, by walks over plain maps.
// 2. A statement that is out of memory changes nothing.

ghost use Rattle.std.specs.Prelude.{◌≡◌, ◌∷◌, [], OnOk, OnErr, IfOk, Some, None, not, true};
ghost use Rattle.std.specs.FinMap as map;
ghost use Rattle.rg_model.specs.Claims.{claim_classes};
ghost use Rattle.rg_model.specs.Committed.{set_to};
ghost use Rattle.rg_model.specs.Held.{holder};
ghost use Rattle.rg_model.specs.Plain.{after_commit, after_rollback, is_table_reply, lock_key};
ghost use Rattle.rg_model.specs.Plain.{write_key};
ghost use Rattle.rg_model.specs.PlainState.{state_of};
ghost use Rattle.rg_model.specs.Run.{Says};
ghost use Rattle.rg_model.specs.State.{at_rest};

use crate::plain::parts::{drop_locks, give_back, is_others, set_row};
use crate::plain::walks::{find_holder, keys_with_cat, rolled_back, rows_between, scan_holder};
use rg_base::copy::TableCopy;
use rg_base::lock::Lock;
use rg_base::map::NumberMap;
use rg_base::no_memory::NoMemory;
use rg_base::row::{Row, copy_row};
use rg_base::session::{Class, Session};
use rg_stmt::stmt::{Reply, Stmt};
use std::alloc::Global;

/// The single steps of the plain program.
pub mod parts;
/// The loops of the plain program.
pub mod walks;

/// A plain table with its locks and claims, in memory. It computes what the definitions say,
/// slowly.
#[derive(Drop)]
pub struct PlainState {
    pub table: NumberMap<Row>,
    pub locks: NumberMap<Lock>,
    pub claims: NumberMap<Class>,
    pub copy: TableCopy,
}

impl PlainState {
    /// An empty table that nobody uses. It takes no memory.
    pub fn new(alloc: Global, copy: TableCopy) -> PlainState
        ensures { state_of result ≡ at_rest map.empty copy }
    {
        PlainState {
            table: NumberMap::new(alloc),
            locks: NumberMap::new(alloc),
            claims: NumberMap::new(alloc),
            copy,
        }
    }

    /// Answers a statement of a session, and does it. The reply is the plain table's, or out of
    /// memory.
    pub fn say(&mut self, alloc: Global, session: Session, stmt: &Stmt) -> Reply
        ensures plain { is_table_reply result ≡ true }
        ensures says { Says (state_of self.old) session stmt.now result (state_of self.new) }
    {
        match stmt {
            Stmt::Insert(row) => self.insert(alloc, session, row),
            Stmt::Update(row) => self.update(alloc, session, row),
            Stmt::Delete(key) => self.delete(alloc, session, *key),
            Stmt::Select(key) => self.select(alloc, session, *key),
            Stmt::Scan { lo, hi } => self.scan(alloc, session, *lo, *hi),
            Stmt::Find(cat) => self.find(alloc, session, *cat),
            Stmt::Commit => self.commit(session),
            Stmt::Rollback => self.rollback(alloc, session),
        }
    }

    fn insert(&mut self, alloc: Global, session: Session, row: &Row) -> Reply
        ensures plain { is_table_reply result ≡ true }
        ensures says { Says (state_of self.old) session (Stmt.Insert row.now) result
            (state_of self.new) }
    {
        if let Some(owner) = self.holder(session, row.key) {
            return Reply::Held(owner);
        }
        if self.table.contains_key(row.key) {
            return Reply::Duplicate;
        }
        let Ok(copy) = row.copy(alloc) else {
            return Reply::NoMemory;
        };
        match self.write(alloc, session, row.key, Some(copy)) {
            Ok(()) => Reply::Done,
            Err(_) => Reply::NoMemory,
        }
    }

    fn update(&mut self, alloc: Global, session: Session, row: &Row) -> Reply
        ensures plain { is_table_reply result ≡ true }
        ensures says { Says (state_of self.old) session (Stmt.Update row.now) result
            (state_of self.new) }
    {
        if let Some(owner) = self.holder(session, row.key) {
            return Reply::Held(owner);
        }
        if !self.table.contains_key(row.key) {
            return Reply::Absent;
        }
        let Ok(copy) = row.copy(alloc) else {
            return Reply::NoMemory;
        };
        match self.write(alloc, session, row.key, Some(copy)) {
            Ok(()) => Reply::Done,
            Err(_) => Reply::NoMemory,
        }
    }

    fn delete(&mut self, alloc: Global, session: Session, key: u64) -> Reply
        ensures plain { is_table_reply result ≡ true }
        ensures says { Says (state_of self.old) session (Stmt.Delete key) result
            (state_of self.new) }
    {
        if let Some(owner) = self.holder(session, key) {
            return Reply::Held(owner);
        }
        if !self.table.contains_key(key) {
            return Reply::Absent;
        }
        match self.write(alloc, session, key, None) {
            Ok(()) => Reply::Done,
            Err(_) => Reply::NoMemory,
        }
    }

    fn select(&mut self, alloc: Global, session: Session, key: u64) -> Reply
        ensures plain { is_table_reply result ≡ true }
        ensures says { Says (state_of self.old) session (Stmt.Select key) result
            (state_of self.new) }
    {
        if let Some(owner) = self.holder(session, key) {
            return Reply::Held(owner);
        }
        let row = match copy_row(alloc, self.table.get(key)) {
            Ok(Some(row)) => row,
            Ok(None) => return Reply::Absent,
            Err(_) => return Reply::NoMemory,
        };
        match self.claim_reader(session) {
            Ok(()) => Reply::Found(row),
            Err(_) => Reply::NoMemory,
        }
    }

    fn scan(&mut self, alloc: Global, session: Session, lo: u64, hi: u64) -> Reply
        ensures plain { is_table_reply result ≡ true }
        ensures says { Says (state_of self.old) session (Stmt.Scan lo hi) result
            (state_of self.new) }
    {
        if let Some(owner) = scan_holder(&self.locks, session, lo, hi) {
            return Reply::Held(owner);
        }
        let Ok(rows) = rows_between(alloc, &self.table, lo, hi) else {
            return Reply::NoMemory;
        };
        match self.claim_reader(session) {
            Ok(()) => Reply::Listed(rows),
            Err(_) => Reply::NoMemory,
        }
    }

    fn find(&mut self, alloc: Global, session: Session, cat: u64) -> Reply
        ensures plain { is_table_reply result ≡ true }
        ensures says { Says (state_of self.old) session (Stmt.Find cat) result (state_of self.new) }
    {
        if let Some(owner) = find_holder(&self.table, &self.locks, session, cat) {
            return Reply::Held(owner);
        }
        let Ok(keys) = keys_with_cat(alloc, &self.table, cat) else {
            return Reply::NoMemory;
        };
        match self.claim_reader(session) {
            Ok(()) => Reply::Keyed(keys),
            Err(_) => Reply::NoMemory,
        }
    }

    fn commit(&mut self, session: Session) -> Reply
        ensures plain { is_table_reply result ≡ true }
        ensures says { Says (state_of self.old) session Stmt.Commit result (state_of self.new) }
    {
        self.end(session);
        Reply::Done
    }

    fn rollback(&mut self, alloc: Global, session: Session) -> Reply
        ensures plain { is_table_reply result ≡ true }
        ensures says { Says (state_of self.old) session Stmt.Rollback result (state_of self.new) }
    {
        let Ok(table) = rolled_back(alloc, &self.table, &self.locks, session) else {
            return Reply::NoMemory;
        };
        self.table = table;
        self.end(session);
        Reply::Done
    }

    // Another session that has locked the key.
    fn holder(&self, session: Session, key: u64) -> Option<Session>
        ensures { result ≡ holder self.now.locks session key }
    {
        let kept = self.locks.get(key)?;
        if is_others(session, kept) {
            return Some(kept.owner);
        }
        None
    }

    // Sets the row of a key, or removes it, with the lock and the claim of the session.
    fn write(
        &mut self,
        alloc: Global,
        session: Session,
        key: u64,
        row: Option<Row>,
    ) -> Result<(), NoMemory>
        ensures ok { OnOk result
            (state_of self.new
            ≡ claim_classes (write_key (state_of self.old) session key row) session
            (Class.Reader ∷ Class.Writer ∷ [])) }
        ensures err { OnErr result (state_of self.new ≡ state_of self.old) }
    {
        let fresh = self.lock(alloc, session, key)?;
        if let Err(error) = self.put(session, key, row) {
            if fresh {
                self.locks.remove(key);
            }
            return Err(error);
        }
        Ok(())
    }

    // Locks the key, where it isn't locked. Says whether it took the lock.
    fn lock(&mut self, alloc: Global, session: Session, key: u64) -> Result<bool, NoMemory>
        ensures ok { OnOk result
            (state_of self.new
            ≡ record (state_of self.old) { locks = lock_key (state_of self.old) session key }) }
        ensures fresh { IfOk result (λ fresh. fresh ≡ not (map.contains_key self.old.locks key)) }
        ensures err { OnErr result (state_of self.new ≡ state_of self.old) }
    {
        if self.locks.contains_key(key) {
            return Ok(false);
        }
        let row = copy_row(alloc, self.table.get(key))?;
        self.locks.insert(
            key,
            Lock {
                owner: session,
                row,
            },
        )?;
        Ok(true)
    }

    // Sets the row of a key, or removes it, with the claim of a writer.
    fn put(&mut self, session: Session, key: u64, row: Option<Row>) -> Result<(), NoMemory>
        ensures ok { OnOk result
            (state_of self.new ≡ record (state_of self.old) {
              table = set_to self.old.table key row;
              claims = map.insert self.old.claims session.0 Class.Writer;
            }) }
        ensures err { OnErr result (state_of self.new ≡ state_of self.old) }
    {
        let number = u64::from(session.0);
        let before = self.claims.insert(number, Class::Writer)?;
        if let Err(error) = set_row(&mut self.table, key, row) {
            give_back(&mut self.claims, number, before);
            return Err(error);
        }
        Ok(())
    }

    // Claims to read, where the session has no claim.
    fn claim_reader(&mut self, session: Session) -> Result<(), NoMemory>
        ensures ok { OnOk result
            (state_of self.new ≡ claim_classes (state_of self.old) session (Class.Reader ∷ [])) }
        ensures err { OnErr result (state_of self.new ≡ state_of self.old) }
    {
        let number = u64::from(session.0);
        if self.claims.contains_key(number) {
            return Ok(());
        }
        self.claims.insert(number, Class::Reader)?;
        Ok(())
    }

    // Drops the locks and the claim of a session.
    fn end(&mut self, session: Session)
        ensures { state_of self.new ≡ after_commit (state_of self.old) session }
    {
        drop_locks(&mut self.locks, session);
        self.claims.remove(u64::from(session.0));
    }
}
