// How one line of a deck is read.
//
// 1. A line is read from left to right, and each number and each text has one spelling. What has
//    another is no line. The utility's control statement alone has many: it is cut at its spaces,
//    and its words are read by `rg_opts`.
// 2. Which lines are taken is the caller's to say. A line that is not taken is read like one
//    outside the grammar.
ghost use Rattle.std.specs.Prelude.{◌≡◌, ◌≤◌, IfOk, IfSome, IfNone};
ghost use Rattle.rg_base.specs.Session.{IsSession};
ghost use Rattle.rg_base.specs.Values.{FitsRow};
ghost use Rattle.rg_deck.specs.Grammar.{IsStmt, IsAdmitted, IsTextOf};
ghost use Rattle.rg_deck.specs.Reading.{Finds, FindsBy, FindsOptions, IsLetter};
ghost use Rattle.rg_deck.specs.Reading.{row_spelling, stmt_spelling};
ghost use Rattle.rg_deck.specs.declared.read.Admits.TheVariants.{Statements};

use crate::read::Admits;
use crate::word::{read_number, read_range, read_text, split_number};
use rg_base::no_memory::NoMemory;
use rg_base::options::Options;
use rg_base::row::Row;
use rg_base::session::Session;
use rg_opts::statement::read_control;
use rg_opts::words::split_words;
use rg_stmt::line::Line;
use rg_stmt::stmt::Stmt;
use std::alloc::Global;
use std::str;

fn read_row(alloc: Global, bytes: &[u8]) -> Result<Option<Row>, NoMemory>
    ensures { IfOk result (Finds FitsRow row_spelling bytes.now) }
{
    let Some((key, rest)) = split_number(bytes) else {
        return Ok(None);
    };
    let Some((clus, rest)) = split_number(rest) else {
        return Ok(None);
    };
    let Some((cat, rest)) = split_number(rest) else {
        return Ok(None);
    };
    let Some(text) = read_text(alloc, rest)? else {
        return Ok(None);
    };
    Ok(Some(Row {
        key,
        clus,
        cat,
        text,
    }))
}

fn read_stmt(alloc: Global, bytes: &[u8]) -> Result<Option<Stmt>, NoMemory>
    ensures { IfOk result (Finds IsStmt stmt_spelling bytes.now) }
{
    if bytes == b"COMMIT".as_slice() {
        return Ok(Some(Stmt::Commit));
    }
    if bytes == b"ROLLBACK".as_slice() {
        return Ok(Some(Stmt::Rollback));
    }
    if let Some(key) = bytes.strip_prefix(b"SELECT ") {
        return Ok(read_number(key).map(Stmt::Select));
    }
    if let Some(row) = bytes.strip_prefix(b"INSERT ") {
        return Ok(read_row(alloc, row)?.map(Stmt::Insert));
    }
    if let Some(row) = bytes.strip_prefix(b"UPDATE ") {
        return Ok(read_row(alloc, row)?.map(Stmt::Update));
    }
    if let Some(key) = bytes.strip_prefix(b"DELETE ") {
        return Ok(read_number(key).map(Stmt::Delete));
    }
    if let Some(range) = bytes.strip_prefix(b"SCAN ") {
        let Some((lo, hi)) = read_range(range) else {
            return Ok(None);
        };
        return Ok(Some(Stmt::Scan { lo, hi }));
    }
    if let Some(cat) = bytes.strip_prefix(b"FIND ") {
        return Ok(read_number(cat).map(Stmt::Find));
    }
    Ok(None)
}

// The session of this number.
fn session_of(number: u64) -> Option<Session>
    ensures none { IfNone result (1 ≤ number → number ≤ 99 → ⊥) }
    ensures found { IfSome result (λ session. IsSession session × (session.0 ≡ number)) }
{
    match number {
        1..=99 => Some(Session(number as u8)),
        _ => None,
    }
}

// One statement of a session, without its line feed.
fn read_said(alloc: Global, bytes: &[u8]) -> Result<Option<Line>, NoMemory>
    ensures { IfOk result (FindsBy (IsAdmitted Statements) IsTextOf bytes.now) }
{
    let Some((number, rest)) = split_number(bytes) else {
        return Ok(None);
    };
    let Some(session) = session_of(number) else {
        return Ok(None);
    };
    let Some(stmt) = read_stmt(alloc, rest)? else {
        return Ok(None);
    };
    Ok(Some(Line::Said { session, stmt }))
}

// A line of one letter.
fn read_letter(bytes: &[u8]) -> Option<Line>
    ensures { FindsBy IsLetter IsTextOf bytes.now result }
{
    match bytes {
        b"U" => Some(Line::Step),
        b"F" => Some(Line::Flush),
        b"L" => Some(Line::Show),
        b"X" => Some(Line::Death),
        _ => None,
    }
}

// The options of the utility's control statement, without its line feed.
fn read_options(alloc: Global, bytes: &[u8]) -> Result<Option<Options>, NoMemory>
    ensures { IfOk result (FindsOptions bytes.now) }
{
    if bytes.strip_prefix(b"REORG ").is_none() {
        return Ok(None);
    }
    let Ok(text) = str::from_utf8(bytes) else {
        return Ok(None);
    };
    let words = split_words(alloc, text)?;
    Ok(read_control(&words).ok())
}

// One line, without its line feed.
pub fn read_line(alloc: Global, bytes: &[u8], admits: Admits) -> Result<Option<Line>, NoMemory>
    ensures { IfOk result (FindsBy (IsAdmitted admits) IsTextOf bytes.now) }
{
    match admits {
        Admits::Statements => read_said(alloc, bytes),
        Admits::Every => match read_letter(bytes) {
            Some(line) => Ok(Some(line)),
            None => match read_options(alloc, bytes)? {
                Some(options) => Ok(Some(Line::Reorg(options))),
                None => read_said(alloc, bytes),
            },
        },
    }
}
