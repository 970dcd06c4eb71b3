// Worked traces are legal, and each with one entry changed is refused at that entry.
use crate::judge::stories::{Story, entry};
use crate::judge::words::{row, said};
use rg_base::copy::TableCopy;
use rg_base::map::NumberMap;
use rg_base::no_memory::NoMemory;
use rg_base::table::Table;
use rg_judge::judge::judge;
use rg_stmt::event::Entry;
use rg_stmt::stmt::{Reply, Stmt};
use std::alloc::Global;
use std::test::Fail;

mod stories;
mod words;

// What the judge says of a story, with one of its entries changed.
fn judged(alloc: Global, story: Story, changed: Option<usize>) -> Result<Option<usize>, NoMemory> {
    let mut trace = Vec::new(alloc);
    for at in 0..64usize {
        match entry(alloc, story, at, changed == Some(at))? {
            Some(entry) => trace.push(entry)?,
            None => break,
        }
    }
    let start: Table = NumberMap::new(alloc);
    judge(alloc, &start, trace.as_slice())
}

#[test]
fn judges_worked_traces(rt: HostRuntime) -> Result<(), Fail> {
    for (story, len) in [
        (Story::Clustering, 24usize),
        (Story::GivenUp, 27),
        (Story::Locks, 13),
        (Story::LongLog, 20),
        (Story::Rollback, 23),
        (Story::Empty, 16),
        (Story::Deadline, 11),
    ] {
        assert_eq!(rt; judged(rt.alloc(), story, None)?, None, "{story:?}");
        for at in 0..len {
            let found = judged(rt.alloc(), story, Some(at))?;
            assert_eq!(rt; found, Some(at), "{story:?} at {at}");
        }
    }
    Ok(())
}

#[test]
fn judges_no_entries(rt: HostRuntime) -> Result<(), Fail> {
    let start: Table = NumberMap::new(rt.alloc());
    let trace: Vec<Entry> = Vec::new(rt.alloc());
    assert_eq!(rt; judge(rt.alloc(), &start, trace.as_slice())?, None);
    Ok(())
}

// Sessions 1 to 99 in turn insert and read a row each, commit, and look for the next.
fn long_trace(alloc: Global) -> Result<Vec<Entry>, NoMemory> {
    let mut trace = Vec::new(alloc);
    trace.push(Entry::opened(TableCopy::first(), 0, 0, 0, 0))?;
    for key in 0..25000u64 {
        let session = (key % 99) as u8 + 1;
        let kept = Reply::Found(row(alloc, key, key, key % 7)?);
        let insert = Stmt::Insert(row(alloc, key, key, key % 7)?);
        trace.push(said(session, insert, Reply::Done))?;
        trace.push(said(session, Stmt::Select(key), kept))?;
        trace.push(said(session, Stmt::Commit, Reply::Done))?;
        trace.push(said(session, Stmt::Select(key + 1), Reply::Absent))?;
    }
    Ok(trace)
}

#[test]
fn judges_a_long_trace(rt: HostRuntime) -> Result<(), Fail> {
    let start: Table = NumberMap::new(rt.alloc());
    let trace = long_trace(rt.alloc())?;
    assert_eq!(rt; judge(rt.alloc(), &start, trace.as_slice())?, None);
    Ok(())
}
