// What a session's statements do to a state.
// (1) A write sets the row of its key, and locks the key where that is not locked.
// (2) A commit drops the session's locks and its claim. A rollback first puts back the rows that
//     the locks keep. Both look at the session's own locks only.
ghost use Rattle.std.specs.Prelude.{◌≡◌, IfOk, false};
ghost use Rattle.rg_base.specs.Session.{IsSession};
ghost use Rattle.rg_judge.specs.StateOf.{state_of};
ghost use Rattle.rg_model.specs.Claims.{claim_classes, classes_needed, is_drained};
ghost use Rattle.rg_model.specs.Plain.{after, after_commit, after_rollback, write_key};

use crate::possibility::Possibility;
use rg_base::no_memory::NoMemory;
use rg_base::row::Row;
use rg_base::session::{Class, Session};
use rg_stmt::stmt::Stmt;
use std::alloc::Global;

/// Whether a drain keeps the session out of a class that the statement needs.
pub fn is_drained(st: &Possibility, session: Session, stmt: &Stmt) -> bool
    requires { IsSession session }
    ensures { result ≡ is_drained (state_of st.now) session stmt.now }
{
    match stmt {
        Stmt::Insert(_) | Stmt::Update(_) | Stmt::Delete(_) => {
            st.claims.admits(session, Class::Writer).is_err()
        }
        Stmt::Select(_) | Stmt::Scan { .. } | Stmt::Find(_) => {
            st.claims.admits(session, Class::Reader).is_err()
        }
        Stmt::Commit | Stmt::Rollback => false,
    }
}

/// The classes that a statement needs are the session's.
pub fn claim(mut st: Possibility, session: Session, stmt: &Stmt) -> Possibility
    requires session { IsSession session }
    requires admitted { is_drained (state_of st) session stmt.now ≡ false }
    ensures { state_of result
        ≡ claim_classes (state_of st) session (classes_needed stmt.now) }
{
    match stmt {
        Stmt::Insert(_) | Stmt::Update(_) | Stmt::Delete(_) => {
            let _ = st.claims.claim(session, Class::Writer);
        }
        Stmt::Select(_) | Stmt::Scan { .. } | Stmt::Find(_) => {
            let _ = st.claims.claim(session, Class::Reader);
        }
        Stmt::Commit | Stmt::Rollback => {}
    }
    st
}

fn write(
    alloc: Global,
    mut st: Possibility,
    session: Session,
    key: u64,
    row: Option<Row>,
) -> Result<Possibility, NoMemory>
    ensures { IfOk result (λ new. state_of new ≡ write_key (state_of st) session key row) }
{
    st.rows = st.rows.write(alloc, session, key, row)?;
    Ok(st)
}

/// The end of a unit that commits.
pub fn commit(mut st: Possibility, session: Session) -> Possibility
    requires { IsSession session }
    ensures { state_of result ≡ after_commit (state_of st) session }
{
    st.rows = st.rows.commit(session);
    st.claims.release(session);
    st
}

/// The end of a unit that is rolled back.
pub fn rollback(
    alloc: Global,
    mut st: Possibility,
    session: Session,
) -> Result<Possibility, NoMemory>
    requires { IsSession session }
    ensures { IfOk result (λ new. state_of new ≡ after_rollback (state_of st) session) }
{
    st.rows = st.rows.rollback(alloc, session)?;
    st.claims.release(session);
    Ok(st)
}

/// What a statement that is done leaves.
pub fn act(
    alloc: Global,
    st: Possibility,
    session: Session,
    stmt: &Stmt,
) -> Result<Possibility, NoMemory>
    requires { IsSession session }
    ensures { IfOk result (λ new. state_of new ≡ after (state_of st) session stmt.now) }
{
    match stmt {
        Stmt::Insert(row) | Stmt::Update(row) => {
            let copy = row.copy(alloc)?;
            write(alloc, st, session, row.key, Some(copy))
        }
        Stmt::Delete(key) => write(alloc, st, session, *key, None),
        Stmt::Select(_) | Stmt::Scan { .. } | Stmt::Find(_) => Ok(st),
        Stmt::Commit => Ok(commit(st, session)),
        Stmt::Rollback => rollback(alloc, st, session),
    }
}
