ghost use Rattle.rg_base.specs.Session.{IsSession};

use rg_base::row::Row;
use rg_base::row_bytes::read_row;
use rg_base::session::Session;
use rg_stmt::stmt::{Reply, Stmt};
use shown::ShownEngine;
use std::alloc::Global;
use std::process::Abort;
use std::test::Fail;

mod shown;

// A statement with numbers: `size` letters are the text of its row, and its `clus`.
#[derive(Clone, Copy)]
enum Ask {
    Insert { key: u64, size: u16 },
    Update { key: u64, size: u16 },
    Delete(u64),
    Select(u64),
    Commit,
    Rollback,
}

// The session, what it asks, and the number of the reply.
type Step = (u8, Ask, i32);

const DONE: i32 = 0;

const ABSENT: i32 = 100;

const HELD: i32 = -913;

fn row(alloc: Global, key: u64, size: u16) -> Result<Row, Fail> {
    let mut bytes = Vec::new(alloc);
    bytes.extend_from_slice(&key.to_be_bytes())?;
    bytes.extend_from_slice(&u64::from(size).to_be_bytes())?;
    bytes.extend_from_slice(&(key % 3).to_be_bytes())?;
    bytes.extend_from_slice(&size.to_be_bytes())?;
    for _ in 0..size {
        bytes.push(b'x')?;
    }
    Ok(read_row(alloc, &bytes)?)
}

fn stmt_of(alloc: Global, ask: Ask) -> Result<Stmt, Fail> {
    let stmt = match ask {
        Ask::Insert { key, size } => Stmt::Insert(row(alloc, key, size)?),
        Ask::Update { key, size } => Stmt::Update(row(alloc, key, size)?),
        Ask::Delete(key) => Stmt::Delete(key),
        Ask::Select(key) => Stmt::Select(key),
        Ask::Commit => Stmt::Commit,
        Ask::Rollback => Stmt::Rollback,
    };
    Ok(stmt)
}

fn number_of(reply: &Reply) -> i32 {
    match reply {
        Reply::Done | Reply::Found(_) => DONE,
        Reply::Absent => ABSENT,
        Reply::Held(_) => HELD,
        _ => -1,
    }
}

// The session of a number, or session 1 where it is none.
fn session(number: u8) -> Session
    ensures { IsSession result }
{
    match number {
        1..=99 => Session(number),
        _ => Session(1),
    }
}

fn expect_steps(
    rt: &impl Abort,
    alloc: Global,
    engine: &mut ShownEngine,
    steps: &[Step],
) -> Result<(), Fail> {
    for (at, (number, ask, reply)) in steps.iter().copied().enumerate() {
        let stmt = stmt_of(alloc, ask)?;
        let said = engine.say(session(number), &stmt);
        assert_eq!(rt; number_of(&said), reply, "at {at}");
    }
    Ok(())
}

fn insert(key: u64, size: u16) -> Ask {
    Ask::Insert { key, size }
}

fn update(key: u64, size: u16) -> Ask {
    Ask::Update { key, size }
}

// The changes that were sent since the last time: of each its position, the slot of its home on
// page 1, and the bytes of the row's text, or -1 where the row is gone.
fn expect_sent(
    rt: &impl Abort,
    engine: &mut ShownEngine,
    changes: &[(u64, u16, i64)],
) -> Result<(), Fail> {
    for (position, slot, size) in changes.iter().copied() {
        let Some(change) = engine.next_change()? else {
            return Err("a change was not sent".into());
        };
        let came = match &change.after {
            Some(row) => i64::try_from(row.clus).unwrap_or(-2),
            None => -1,
        };
        assert_eq!(rt; change.position.0, position, "of {position}");
        assert_eq!(rt; change.home.page, 1, "of {position}");
        assert_eq!(rt; change.home.slot, slot, "of {position}");
        assert_eq!(rt; came, size, "of {position}");
    }
    assert_eq!(rt; engine.next_change()?.is_none(), true);
    Ok(())
}

// While a utility runs each write that was answered OK is sent, and each that is undone, the latest
// first. What is refused, or only read, is not.
#[test]
fn sends_writes_and_undone_ones(rt: HostRuntime) -> Result<(), Fail> {
    let mut engine = ShownEngine::new(rt.alloc(), 8, 100)?;
    let before: [Step; 3] = [
        (1, insert(1, 10), DONE),
        (1, insert(2, 20), DONE),
        (1, Ask::Commit, DONE),
    ];
    expect_steps(&rt, rt.alloc(), &mut engine, &before)?;
    expect_sent(&rt, &mut engine, &[])?;
    let unit: [Step; 2] = [(1, update(1, 11), DONE), (2, insert(3, 30), DONE)];
    expect_steps(&rt, rt.alloc(), &mut engine, &unit)?;
    engine.runs = true;
    let beside: [Step; 8] = [
        (1, Ask::Delete(2), DONE),
        (1, insert(3, 0), HELD),
        (2, update(3, 31), DONE),
        (2, update(9, 0), ABSENT),
        (2, Ask::Select(3), DONE),
        (2, Ask::Commit, DONE),
        (1, Ask::Rollback, DONE),
        (1, Ask::Rollback, DONE),
    ];
    expect_steps(&rt, rt.alloc(), &mut engine, &beside)?;
    expect_sent(
        &rt,
        &mut engine,
        &[(6, 1, -1), (7, 2, 31), (9, 1, 20), (10, 0, 10)],
    )
}
