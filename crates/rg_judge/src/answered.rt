// A statement that no drain keeps out was answered.
// (1) The reply is the plain table's, or one that stands for it: VICTIM for HELD; FULL, LOGFULL or
//     DEVICE for a reply with number 0; NOMEMORY for all but that of COMMIT.
// (2) A refusal leaves the state as it is, but for DEVICE at the end of a unit and VICTIM.
ghost use Rattle.std.specs.Prelude.{◌≡◌, IfOk, false};
ghost use Rattle.std.specs.Option.{option_map};
ghost use Rattle.rg_base.specs.Session.{IsSession};
ghost use Rattle.rg_judge.specs.StateOf.{state_of};
ghost use Rattle.rg_model.specs.Claims.{claim_classes, classes_needed, is_drained};
ghost use Rattle.rg_model.specs.Plain.{after_answer, after_rollback};
ghost use Rattle.rg_model.specs.Said.{has_locks, if_allowed, may_want_log, may_want_memory};
ghost use Rattle.rg_model.specs.Said.{may_want_room, state_answered, state_failed, state_refused};
ghost use Rattle.rg_model.specs.Same.{same_reply};

use crate::possibility::{Possibility, if_allowed};
use crate::replied::reply_to;
use crate::same::same_reply;
use crate::unit::{act, claim, rollback};
use crate::walk::has_locks;
use rg_base::no_memory::NoMemory;
use rg_base::session::Session;
use rg_model::plain::parts::is_done;
use rg_rules::tally::tally::may_want_log;
use rg_stmt::stmt::{Reply, Stmt};
use std::alloc::Global;

fn may_want_memory(stmt: &Stmt) -> bool
    ensures { result ≡ may_want_memory stmt.now }
{
    !matches!(stmt, Stmt::Commit)
}

fn may_want_room(stmt: &Stmt) -> bool
    ensures { result ≡ may_want_room stmt.now }
{
    matches!(stmt, Stmt::Insert(_) | Stmt::Update(_))
}

// The device refused a statement that would have been done.
fn fail(mut st: Possibility, session: Session, stmt: &Stmt) -> Option<Possibility>
    ensures { option_map state_of result ≡ state_failed (state_of st) session stmt.now }
{
    match stmt {
        Stmt::Commit => {
            let wrote = has_locks(st.rows.locks().as_map(), session);
            st.down = true;
            st.doubt = Some(session);
            if_allowed(wrote, st)
        }
        Stmt::Rollback => {
            st.down = true;
            Some(st)
        }
        _ => Some(st),
    }
}

// The device refused.
fn refuse(mut st: Possibility, session: Session, stmt: &Stmt, plain: &Reply) -> Option<Possibility>
    ensures { option_map state_of result ≡ state_refused (state_of st) session stmt.now plain.now }
{
    match plain {
        Reply::Held(_) => {
            st.down = true;
            Some(st)
        }
        _ if is_done(plain) => fail(st, session, stmt),
        _ => None,
    }
}

// What the statement leaves, where it has this reply.
fn leave(
    alloc: Global,
    st: Possibility,
    session: Session,
    stmt: &Stmt,
    reply: &Reply,
) -> Result<Possibility, NoMemory>
    requires session { IsSession session }
    requires admitted { is_drained (state_of st) session stmt.now ≡ false }
    ensures { IfOk result (λ new. state_of new
        ≡ after_answer (state_of st) session stmt.now reply.now) }
{
    if !is_done(reply) {
        return Ok(st);
    }
    act(alloc, claim(st, session, stmt), session, stmt)
}

// A unit whose statement another session blocked was rolled back.
fn roll_victim(
    alloc: Global,
    st: Possibility,
    session: Session,
    owner: Session,
    plain: &Reply,
) -> Result<Option<Possibility>, NoMemory>
    requires { IsSession session }
    ensures { IfOk result (λ next. option_map state_of next
        ≡ if_allowed (same_reply (Reply.Held owner) plain.now)
        (after_rollback (state_of st) session)) }
{
    if !same_reply(&Reply::Held(owner), plain) {
        return Ok(None);
    }
    Ok(Some(rollback(alloc, st, session)?))
}

// The reply is the plain table's.
fn repeat(
    alloc: Global,
    st: Possibility,
    session: Session,
    stmt: &Stmt,
    reply: &Reply,
    plain: &Reply,
) -> Result<Option<Possibility>, NoMemory>
    requires session { IsSession session }
    requires admitted { is_drained (state_of st) session stmt.now ≡ false }
    ensures { IfOk result (λ next. option_map state_of next
        ≡ if_allowed (same_reply reply.now plain.now)
        (after_answer (state_of st) session stmt.now reply.now)) }
{
    if !same_reply(reply, plain) {
        return Ok(None);
    }
    Ok(Some(leave(alloc, st, session, stmt, reply)?))
}

/// The state after a statement that no drain keeps out, if its reply is allowed.
pub fn answer(
    alloc: Global,
    st: Possibility,
    session: Session,
    stmt: &Stmt,
    reply: &Reply,
) -> Result<Option<Possibility>, NoMemory>
    requires session { IsSession session }
    requires admitted { is_drained (state_of st) session stmt.now ≡ false }
    ensures { IfOk result (λ next. option_map state_of next
        ≡ state_answered (state_of st) session stmt.now reply.now) }
{
    let plain = reply_to(alloc, &st, session, stmt)?;
    match reply {
        Reply::NoMemory => Ok(if_allowed(may_want_memory(stmt), st)),
        Reply::Victim(owner) => roll_victim(alloc, st, session, *owner, &plain),
        Reply::Full { .. } => Ok(if_allowed(may_want_room(stmt) && is_done(&plain), st)),
        Reply::LogFull { .. } => Ok(if_allowed(may_want_log(stmt) && is_done(&plain), st)),
        Reply::Device => Ok(refuse(st, session, stmt, &plain)),
        Reply::Drained | Reply::Down => Ok(None),
        Reply::Done
        | Reply::Found(_)
        | Reply::Listed(_)
        | Reply::Keyed(_)
        | Reply::Absent
        | Reply::Duplicate
        | Reply::Held(_) => repeat(alloc, st, session, stmt, reply, &plain),
    }
}
