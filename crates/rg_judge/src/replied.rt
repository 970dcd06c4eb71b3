// The plain table's reply to a statement, in a state.
// (1) A key that another session has locked comes before any other reply.
// (2) A SCAN and a FIND list the rows that they show in the order of their keys, and look at no
//     other.
ghost use Rattle.std.specs.Prelude.{◌≡◌, IfOk};
ghost use Rattle.rg_judge.specs.StateOf.{state_of};
ghost use Rattle.rg_model.specs.Held.{holder};
ghost use Rattle.rg_model.specs.Plain.{change_reply, insert_reply, plain_reply, row_reply};
ghost use Rattle.rg_model.specs.State.{is_present, row_of};

use crate::possibility::Possibility;
use rg_base::no_memory::NoMemory;
use rg_base::row::copy_row;
use rg_base::session::Session;
use rg_lock::locks::Locks;
use rg_stmt::stmt::{Reply, Stmt};
use std::alloc::Global;

// Another session that has locked the key.
fn holder(locks: &Locks, session: Session, key: u64) -> Option<Session>
    ensures { result ≡ holder locks.now session key }
{
    match locks.owner(key) {
        Some(owner) if owner.0 != session.0 => Some(owner),
        _ => None,
    }
}

fn reply_insert(st: &Possibility, key: u64) -> Reply
    ensures { result ≡ insert_reply (is_present st.now.rows.table key) }
{
    if st.rows.table().rows().contains_key(key) {
        Reply::Duplicate
    } else {
        Reply::Done
    }
}

fn reply_change(st: &Possibility, key: u64) -> Reply
    ensures { result ≡ change_reply (is_present st.now.rows.table key) }
{
    if st.rows.table().rows().contains_key(key) {
        Reply::Done
    } else {
        Reply::Absent
    }
}

fn reply_select(alloc: Global, st: &Possibility, key: u64) -> Result<Reply, NoMemory>
    ensures { IfOk result (λ reply. reply ≡ row_reply (row_of st.now.rows.table key)) }
{
    match copy_row(alloc, st.rows.table().rows().get(key))? {
        Some(row) => Ok(Reply::Found(row)),
        None => Ok(Reply::Absent),
    }
}

/// The plain table's reply. It takes memory for the rows and keys of the reply.
pub fn reply_to(
    alloc: Global,
    st: &Possibility,
    session: Session,
    stmt: &Stmt,
) -> Result<Reply, NoMemory>
    ensures { IfOk result (λ reply. reply ≡ plain_reply (state_of st.now) session stmt.now) }
{
    match stmt {
        Stmt::Insert(row) => match holder(st.rows.locks(), session, row.key) {
            Some(owner) => Ok(Reply::Held(owner)),
            None => Ok(reply_insert(st, row.key)),
        },
        Stmt::Update(row) => match holder(st.rows.locks(), session, row.key) {
            Some(owner) => Ok(Reply::Held(owner)),
            None => Ok(reply_change(st, row.key)),
        },
        Stmt::Delete(key) => match holder(st.rows.locks(), session, *key) {
            Some(owner) => Ok(Reply::Held(owner)),
            None => Ok(reply_change(st, *key)),
        },
        Stmt::Select(key) => match holder(st.rows.locks(), session, *key) {
            Some(owner) => Ok(Reply::Held(owner)),
            None => reply_select(alloc, st, *key),
        },
        Stmt::Scan { lo, hi } => match st.rows.scan_holder(session, *lo, *hi) {
            Some(owner) => Ok(Reply::Held(owner)),
            None => Ok(Reply::Listed(st.rows.table().rows_between(alloc, *lo, *hi)?)),
        },
        Stmt::Find(cat) => match st.rows.find_holder(session, *cat) {
            Some(owner) => Ok(Reply::Held(owner)),
            None => Ok(Reply::Keyed(st.rows.table().keys_with_cat(alloc, *cat)?)),
        },
        Stmt::Commit | Stmt::Rollback => Ok(Reply::Done),
    }
}
