ghost use Rattle.std.specs.Prelude.{◌≡◌, ◌++◌, OnOk};
ghost use Rattle.rg_base.specs.Words.{text_word};
ghost use Rattle.rg_print.specs.Reply.{row_text, listed_text, keyed_text, reply_text};

use crate::push::{push, push_named, push_number};
use rg_base::no_memory::NoMemory;
use rg_base::row::Row;
use rg_base::text::{Text, is_dashes};
use rg_stmt::rows::{Keys, Rows};
use rg_stmt::stmt::Reply;

pub fn push_reply(out: &mut Vec<u8>, reply: &Reply) -> Result<(), NoMemory>
    ensures { OnOk result (out.new.items ≡ out.old.items ++ reply_text reply.now) }
{
    match reply {
        Reply::Done => push(out, b"OK"),
        Reply::Found(row) => push_row(out, row),
        Reply::Listed(rows) => push_listed(out, rows),
        Reply::Keyed(keys) => push_keyed(out, keys),
        Reply::Absent => push(out, b"100 NONE"),
        Reply::Duplicate => push(out, b"-803 DUPLICATE"),
        Reply::Held(session) => push_named(out, b"-913 HELD ", u64::from(session.0)),
        Reply::Victim(session) => push_named(out, b"-911 VICTIM ", u64::from(session.0)),
        Reply::Drained => push(out, b"-904 DRAINED"),
        Reply::Full { .. } => push(out, b"1 FULL"),
        Reply::LogFull { .. } => push(out, b"2 LOGFULL"),
        Reply::Device => push(out, b"3 DEVICE"),
        Reply::Down => push(out, b"4 DOWN"),
        Reply::NoMemory => push(out, b"5 NOMEMORY"),
    }
}

fn push_listed(out: &mut Vec<u8>, rows: &Rows) -> Result<(), NoMemory>
    ensures { OnOk result (out.new.items ≡ out.old.items ++ listed_text rows.now) }
{
    let rows = rows.as_slice();
    push_named(out, b"ROWS ", rows.len() as u64)?;
    for row in rows {
        push(out, b"\n  ")?;
        push_row(out, row)?;
    }
    Ok(())
}

fn push_keyed(out: &mut Vec<u8>, keys: &Keys) -> Result<(), NoMemory>
    ensures { OnOk result (out.new.items ≡ out.old.items ++ keyed_text keys.now) }
{
    let keys = keys.as_slice();
    push_named(out, b"KEYS ", keys.len() as u64)?;
    push(out, b":")?;
    for key in keys {
        push_named(out, b" ", *key)?;
    }
    Ok(())
}

fn push_row(out: &mut Vec<u8>, row: &Row) -> Result<(), NoMemory>
    ensures { OnOk result (out.new.items ≡ out.old.items ++ row_text row.now) }
{
    push(out, b"ROW ")?;
    push_number(out, row.key)?;
    push(out, b" ")?;
    push_number(out, row.clus)?;
    push(out, b" ")?;
    push_number(out, row.cat)?;
    push(out, b" ")?;
    push_text(out, &row.text)
}

fn push_text(out: &mut Vec<u8>, text: &Text) -> Result<(), NoMemory>
    ensures { OnOk result (out.new.items ≡ out.old.items ++ text_word text.now) }
{
    let bytes = text.as_slice();
    if is_dashes(bytes) {
        push(out, b"-")?;
    }
    push(out, bytes)
}
