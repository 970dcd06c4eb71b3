// Openings over data pages, whatever version of a page the volume has.
use crate::deck::play;
use rg_base::copy::TableCopy;
use rg_base::part::{Part, SlotOp};
use rg_base::position::Position;
use rg_base::set::Set;
use rg_base::tran::Tran;
use rg_log::open::open_log;
use rg_mem::volume::MemVolume;
use rg_outside::volume::Volume;
use rg_page::page::Page;
use rg_record::record::Record;
use rg_run::played::RunEnd;
use rg_stmt::event::Event;
use rg_stmt::stmt::Reply;
use std::alloc::Global;
use std::test::Fail;

type Bytes = [u8; 4096];

// The number of calls that a volume takes.
const CALLS: u32 = 1000;

// Two rows, of which the first grows; a third, which is rolled back; and the second is deleted.
const DECK: &[u8] = b"1 INSERT 1 1 1 xxxxxxxxxx\n1 INSERT 2 2 1 x~x~x~x~x~x~x~\n\
    1 UPDATE 1 1 1 x~x~x~x~\n1 COMMIT\n1 INSERT 3 3 1 xxxxxxxxxxxxxxxxxxxx\n1 ROLLBACK\n\
    1 DELETE 2\n1 COMMIT\n";

// The keys 1 to 3, one after another.
const LOOK: &[u8] = b"1 SELECT 1\n1 SELECT 2\n1 SELECT 3\n";

// A volume on which the deck was played.
fn played(alloc: Global) -> Result<MemVolume, Fail> {
    let volume = MemVolume::new(alloc, 9, 4, 4, CALLS, CALLS, &[], None)?;
    Ok(play(alloc, volume, DECK)?.volume)
}

// Page 1 as these records leave it.
fn version(alloc: Global, records: &[Record]) -> Result<Page, Fail> {
    let mut page = Page::new(alloc, TableCopy::first(), 1)?;
    for entry in records {
        for part in entry.parts() {
            let _ = page.apply(part, entry.tran, entry.after(), entry.position);
        }
    }
    Ok(page)
}

fn bytes_of(page: &Page) -> Bytes {
    let mut bytes = [0; 4096];
    page.write_into(&mut bytes);
    bytes
}

// The bytes with this one at an offset.
fn with_byte(bytes: &Bytes, at: usize, byte: u8) -> Bytes {
    let mut other = *bytes;
    if at < 4096 {
        other[at] = byte;
    }
    other
}

// What the keys are answered where page 1 has these bytes, and how the run ends.
fn answers(alloc: Global, volume: &MemVolume, bytes: &Bytes) -> Result<(Vec<bool>, RunEnd), Fail> {
    let mut image = volume.crash(0)?;
    if image.capacity(Set::First) > 0 {
        image.write(Set::First, 1, bytes)?;
    }
    let again = play(alloc, image, LOOK)?;
    let mut found = Vec::new(alloc);
    for entry in again.trace.iter() {
        if let Event::Said { reply, .. } = &entry.event {
            found.push(matches!(reply, Reply::Found(_)))?;
        }
    }
    Ok((found, again.end))
}

#[test]
fn opens_over_each_version(rt: HostRuntime) -> Result<(), Fail> {
    let alloc = rt.alloc();
    let mut volume = played(alloc)?;
    let Ok(log) = open_log(alloc, &mut volume) else {
        assert!(rt; false);
        return Ok(());
    };
    let records = log.records();
    assert_eq!(rt; records.len(), 9);
    for count in 0..10 {
        let (front, _) = records.split_at(count);
        let page = version(alloc, front)?;
        let (found, end) = answers(alloc, &volume, &bytes_of(&page))?;
        assert_eq!(rt; end, RunEnd::Whole { rows: 1 }, "{count} records");
        assert_eq!(rt;
            found.as_slice(),
            [true, false, false].as_slice(),
            "{count} records"
        );
    }
    Ok(())
}

#[test]
fn names_a_page_that_breaks_a_rule(rt: HostRuntime) -> Result<(), Fail> {
    let alloc = rt.alloc();
    let mut volume = played(alloc)?;
    let Ok(log) = open_log(alloc, &mut volume) else {
        assert!(rt; false);
        return Ok(());
    };
    let bytes = bytes_of(&version(alloc, log.records())?);
    let first = RunEnd::Damaged {
        set: Set::First,
        page: 1,
    };
    // Another copy or number, a position above the last record, and a letter of a row.
    for (at, byte) in [(0, 0), (4, 2), (11, 2), (19, 10), (18, 1), (80, b'y')] {
        let other = with_byte(&bytes, at, byte);
        let (found, end) = answers(alloc, &volume, &other)?;
        assert_eq!(rt; (found.len(), end), (0, first), "byte {at} is {byte}");
    }
    // A page on which the third record does not fit any more.
    let mut page = Page::new(alloc, TableCopy::first(), 1)?;
    let part = Part {
        page: 1,
        slot: 5,
        op: SlotOp::DeadRow { capacity: 3000 },
    };
    assert_eq!(rt; page.apply(&part, Tran(1), None, Position(1)), Ok(()));
    let log_page = RunEnd::Damaged {
        set: Set::Log,
        page: 1,
    };
    let (found, end) = answers(alloc, &volume, &bytes_of(&page))?;
    assert_eq!(rt; (found.len(), end), (0, log_page));
    Ok(())
}
