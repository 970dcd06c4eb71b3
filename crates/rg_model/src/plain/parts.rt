// The single steps of the plain program.
ghost use Rattle.std.specs.Prelude.{◌≡◌, OnOk, OnErr, IfOk, Some, None, true};
ghost use Rattle.std.specs.FinMap as map;
ghost use Rattle.rg_model.specs.Committed.{set_to, locks_without};
ghost use Rattle.rg_model.specs.Held.{is_others};
ghost use Rattle.rg_model.specs.Plain.{is_done};

use rg_base::lock::Lock;
use rg_base::map::NumberMap;
use rg_base::no_memory::NoMemory;
use rg_base::row::Row;
use rg_base::session::{Class, Session};
use rg_stmt::stmt::Reply;
use std::alloc::Global;

/// The lock is another session's.
pub fn is_others(session: Session, kept: &Lock) -> bool
    ensures { result ≡ is_others session (Some kept.now) }
{
    kept.owner.0 != session.0
}

/// The reply has number 0.
pub fn is_done(reply: &Reply) -> bool
    ensures { result ≡ is_done reply.now }
{
    matches!(
        reply,
        Reply::Done | Reply::Found(_) | Reply::Listed(_) | Reply::Keyed(_)
    )
}

/// Sets the row of a key, or removes it.
pub fn set_row(table: &mut NumberMap<Row>, key: u64, row: Option<Row>) -> Result<(), NoMemory>
    ensures ok { OnOk result (table.new ≡ set_to table.old key row) }
    ensures err { OnErr result (table.new ≡ table.old) }
{
    let Some(row) = row else {
        table.remove(key);
        return Ok(());
    };
    table.insert(key, row)?;
    Ok(())
}

/// Gives a claim that is there its value from before, or takes it away.
pub fn give_back(claims: &mut NumberMap<Class>, number: u64, before: Option<Class>)
    requires { map.contains_key claims.old number ≡ true }
    ensures gone { before ≡ None → claims.new ≡ map.remove claims.old number }
    ensures back { (class : Class) → before ≡ Some class
        → claims.new ≡ map.insert claims.old number class }
{
    match before {
        None => {
            claims.remove(number);
        }
        Some(class) => {
            // A key that is there takes no memory: its value is replaced.
            let _ = claims.insert(number, class);
        }
    }
}

/// Drops the locks of a session. It takes no memory.
pub fn drop_locks(locks: &mut NumberMap<Lock>, session: Session)
    ensures { locks.new ≡ locks_without session locks.old }
{
    locks.retain(|_, kept| kept.owner.0 != session.0);
}
