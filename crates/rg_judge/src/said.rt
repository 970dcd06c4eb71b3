// How a statement may be answered.
// (1) While the engine is down, every statement is answered DOWN, and no other is.
// (2) Else a statement that a drain covers is answered DRAINED, and no other is.
ghost use Rattle.std.specs.Prelude.{◌≡◌, IfOk};
ghost use Rattle.std.specs.Option.{option_map};
ghost use Rattle.rg_base.specs.Session.{IsSession};
ghost use Rattle.rg_judge.specs.StateOf.{state_of};
ghost use Rattle.rg_model.specs.Said.{state_said};
ghost use Rattle.rg_model.specs.Same.{same_reply};

use crate::answered::answer;
use crate::possibility::{Possibility, if_allowed};
use crate::unit::is_drained;
use rg_base::no_memory::NoMemory;
use rg_base::session::Session;
use rg_stmt::stmt::{Reply, Stmt};
use std::alloc::Global;

fn is_down(reply: &Reply) -> bool
    ensures { result ≡ same_reply reply.now Reply.Down }
{
    matches!(reply, Reply::Down)
}

fn says_drained(reply: &Reply) -> bool
    ensures { result ≡ same_reply reply.now Reply.Drained }
{
    matches!(reply, Reply::Drained)
}

/// The state after a statement of a session, if its reply is allowed. It is logarithmic in the rows
/// and locks, but for the rows that a SCAN or a FIND shows, the session's own locks in the range of
/// a SCAN, the locks of a unit's end, and all locks where the device refused a COMMIT.
pub fn judge_said(
    alloc: Global,
    st: Possibility,
    session: Session,
    stmt: &Stmt,
    reply: &Reply,
) -> Result<Option<Possibility>, NoMemory>
    requires { IsSession session }
    ensures { IfOk result (λ next. option_map state_of next
        ≡ state_said (state_of st) session stmt.now reply.now) }
{
    if st.down {
        return Ok(if_allowed(is_down(reply), st));
    }
    if is_drained(&st, session, stmt) {
        return Ok(if_allowed(says_drained(reply), st));
    }
    answer(alloc, st, session, stmt, reply)
}
