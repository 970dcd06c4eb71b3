// Flushes: the bytes that they write, their calls, and what a crash leaves of a volume with pages.
use crate::deck::{MemPlayed, expect_print, play};
use rg_base::copy::TableCopy;
use rg_base::session::Session;
use rg_base::set::Set;
use rg_log::open::open_log;
use rg_mem::volume::{Failing, MemVolume};
use rg_model::plain::PlainState;
use rg_outside::volume::Volume;
use rg_record::record::Kind;
use rg_run::played::RunEnd;
use rg_stmt::event::{Actor, Entry, Event};
use rg_stmt::stmt::{Reply, Stmt};
use std::alloc::Global;
use std::process::Abort;
use std::test::Fail;

type Bytes = [u8; 4096];

// Room for more calls than any of these decks makes.
const CALLS: u32 = 200;

// The run of a deck over a volume of so many pages of the log, and of 4 pages of each copy. These
// of its calls fail, and all after `stop`.
fn played(
    alloc: Global,
    log: u32,
    failing: &[Failing],
    stop: Option<u64>,
    deck: &[u8],
) -> Result<MemPlayed, Fail> {
    let volume = MemVolume::new(alloc, log, 4, 4, CALLS, CALLS, failing, stop)?;
    play(alloc, volume, deck)
}

// The bytes that the volume reads of a page.
fn bytes_at(rt: &impl Abort, volume: &mut MemVolume, set: Set, page: u32) -> Result<Bytes, Fail> {
    let mut bytes = [1; 4096];
    assert!(rt; 1 <= page && page <= volume.capacity(set));
    volume.read(set, page, &mut bytes)?;
    Ok(bytes)
}

// Whether each of the records that the volume has is a Change.
fn changes_on(rt: &impl Abort, alloc: Global, volume: &mut MemVolume) -> Result<Vec<bool>, Fail> {
    let mut changes = Vec::new(alloc);
    let Ok(log) = open_log(alloc, volume) else {
        assert!(rt; false);
        return Ok(changes);
    };
    for entry in log.records() {
        changes.push(matches!(entry.kind, Kind::Change { .. }))?;
    }
    Ok(changes)
}

// The first bytes of page 1 after the first record: the page's header, the slot's, and the row. All
// other bytes are zero, but for the directory at the end.
const FRONT: [u8; 77] = [
    0x52, 0x47, 0x50, 0x31, 1, 0, 0, 1, 0, 0, 0, 1, 0, 0, 0, 0, 0, 0, 0, 1, 0, 0x4d, 0, 0, 0, 0, 0,
    0, 0, 0, 0, 0, 1, 0, 0, 0x1d, 0, 0x1d, 0, 0, 0, 0, 0, 0, 0, 0, 0, 0, 0, 0, 0, 0, 0, 0, 0, 5, 0,
    0, 0, 0, 0, 0, 0, 50, 0, 0, 0, 0, 0, 0, 0, 1, 0, 3, b'a', b'b', b'c',
];

#[test]
fn writes_the_bytes_of_a_page(rt: HostRuntime) -> Result<(), Fail> {
    let alloc = rt.alloc();
    let mut played = played(alloc, 9, &[], None, b"1 INSERT 5 50 1 abc\n1 COMMIT\nF\n")?;
    expect_print(
        &rt,
        alloc,
        &played,
        b"0 - OPENED copy=1 rows=0 pages=0\n1 1 OK\n2 1 OK\n3 - FLUSH page=1\n\
            END entries=4 rows=1\n",
    )?;
    let bytes = bytes_at(&rt, &mut played.volume, Set::First, 1)?;
    for (at, byte) in bytes.iter().copied().enumerate() {
        let expected = match at {
            // The directory: the offset of slot 0.
            4095 => 0x20,
            _ => FRONT.get(at).copied().unwrap_or(0),
        };
        assert_eq!(rt; byte, expected, "byte {at}");
    }
    // No other page is written.
    for (set, page) in [
        (Set::First, 2),
        (Set::Second, 1),
        (Set::Second, 2),
        (Set::Log, 2),
    ] {
        let bytes = bytes_at(&rt, &mut played.volume, set, page)?;
        assert!(rt; bytes.iter().all(|byte| *byte == 0), "{set:?} {page}");
    }
    Ok(())
}

// The opening makes two calls, and the flush writes the log, syncs it, and writes the page. A write
// that failed may have left its bytes.
#[test]
fn writes_the_log_before_the_page(rt: HostRuntime) -> Result<(), Fail> {
    let alloc = rt.alloc();
    // How many calls succeed, what the flush says, and whether an image may be without the record,
    // and with it; without the page, and with it.
    let cases = [
        (2, "3 DEVICE", true, true, true, false),
        (3, "3 DEVICE", true, true, true, false),
        (4, "3 DEVICE", false, true, true, true),
        (5, "FLUSH page=1", false, true, true, true),
    ];
    for (stop, said, no_record, record, no_page, page) in cases {
        let played = played(alloc, 2, &[], Some(stop), b"1 INSERT 1 10 1 a\nF\n")?;
        let print = format!(in alloc;
            "0 - OPENED copy=1 rows=0 pages=0\n1 1 OK\n2 - {said}\nEND entries=3 rows=0\n"
        )?;
        expect_print(&rt, alloc, &played, print.as_bytes())?;
        let mut may = (false, false, false, false);
        for pick in 0..4 {
            // The first log page, and the first page of the copy, which is the third of all.
            let mut image = played.volume.crash_with(&[pick / 2, 0, pick % 2])?;
            let bytes = bytes_at(&rt, &mut image, Set::First, 1)?;
            let is_written = bytes.iter().any(|byte| *byte != 0);
            let is_logged = changes_on(&rt, alloc, &mut image)?.len() == 1;
            assert!(rt; is_logged || !is_written, "{stop} calls, pick {pick}");
            may.0 |= !is_logged;
            may.1 |= is_logged;
            may.2 |= !is_written;
            may.3 |= is_written;
        }
        assert_eq!(rt; may, (no_record, record, no_page, page), "{stop} calls");
    }
    Ok(())
}

// The numbers of calls after the opening and each step.
fn expect_calls(rt: &impl Abort, trace: &[Entry], calls: &[u64]) -> Result<(), Fail> {
    assert_eq!(rt; trace.len(), calls.len());
    for (at, (entry, calls)) in trace.iter().zip(calls.iter().copied()).enumerate() {
        assert_eq!(rt; entry.calls, calls, "at {at}");
    }
    Ok(())
}

// A flush in which a call fails leaves the desk up and the page dirty. The log is not forced twice.
#[test]
fn goes_on_after_a_flush_that_failed(rt: HostRuntime) -> Result<(), Fail> {
    let alloc = rt.alloc();
    let (device, page, clean) = ("3 DEVICE", "FLUSH page=1", "CLEAN");
    // The call that fails, what the three flushes say, and the calls after each.
    let cases = [
        (5, [device, page, clean], [5, 8, 8]),
        (6, [device, page, clean], [6, 9, 9]),
        (7, [device, page, clean], [7, 8, 8]),
        (8, [page, clean, clean], [7, 7, 7]),
    ];
    let deck = b"1 INSERT 1 10 1 a\n1 COMMIT\n1 UPDATE 1 10 1 bb\nF\n1 SELECT 1\nF\nF\n";
    for (call, [first, second, third], [one, two, three]) in cases {
        let print = format!(in alloc;
            "0 - OPENED copy=1 rows=0 pages=0\n1 1 OK\n2 1 OK\n3 1 OK\n4 - {first}\n\
                5 1 ROW 1 10 1 bb\n6 - {second}\n7 - {third}\nEND entries=8 rows=1\n"
        )?;
        for written in [false, true] {
            let mut played = played(alloc, 9, &[Failing { call, written }], None, deck)?;
            expect_print(&rt, alloc, &played, print.as_bytes())?;
            let calls = [2, 2, 4, 4, one, one, two, three];
            expect_calls(&rt, played.trace.as_slice(), &calls)?;
            // Where no flush has made the call that fails, this one is it.
            assert_eq!(rt; played.volume.sync().is_err(), call == 8);
            let bytes = bytes_at(&rt, &mut played.volume, Set::First, 1)?;
            // The last byte of the page's position.
            assert_eq!(rt; bytes[19], 3, "call {call}");
            let changes = changes_on(&rt, alloc, &mut played.volume)?;
            assert_eq!(rt; changes.as_slice(), [true, false, true].as_slice());
        }
    }
    Ok(())
}

// Once the device has refused a COMMIT, by its write or its sync, a flush makes no call.
#[test]
fn writes_no_page_once_down(rt: HostRuntime) -> Result<(), Fail> {
    let alloc = rt.alloc();
    let deck = b"1 INSERT 1 10 1 a\n1 COMMIT\nF\n1 SELECT 1\nF\n";
    for (call, calls) in [(3, 3), (4, 4)] {
        let failing = [Failing {
            call,
            written: false,
        }];
        let mut played = played(alloc, 9, &failing, None, deck)?;
        expect_print(
            &rt,
            alloc,
            &played,
            b"0 - OPENED copy=1 rows=0 pages=0\n1 1 OK\n2 1 3 DEVICE\n3 - 4 DOWN\n\
                4 1 4 DOWN\n5 - 4 DOWN\nEND entries=6 DOWN\n",
        )?;
        assert_eq!(rt; played.end, RunEnd::Down);
        let counts = [2, 2, calls, calls, calls, calls];
        expect_calls(&rt, played.trace.as_slice(), &counts)?;
        let bytes = bytes_at(&rt, &mut played.volume, Set::First, 1)?;
        assert!(rt; bytes.iter().all(|byte| *byte == 0), "call {call}");
    }
    Ok(())
}

// Units of three sessions. Row 4 moves to page 2, and back; a page is written with open units on
// it, after a rollback, and at the end.
const LONG_DECK: &[u8] = b"1 INSERT 1 10 1 a~a~a~a~a~a~a~a~\n\
    1 INSERT 2 20 1 b~b~b~b~b~b~b~b~\n2 INSERT 4 40 1 d~\n\
    F\n1 INSERT 3 30 1 c~c~c~c~c~c~c~c~\n1 INSERT 5 50 1 e~e~e~e~e~e~e~e~\n1 COMMIT\nF\n\
    2 UPDATE 4 40 1 f~f~f~f~f~f~f~f~\nL\nF\nF\nF\n2 COMMIT\n3 DELETE 1\n\
    2 INSERT 6 60 1 g~g~g~g~g~g~g~g~\nF\n3 ROLLBACK\n2 COMMIT\nF\nF\n\
    1 UPDATE 2 20 1 h~h~h~\n\
    3 UPDATE 4 40 1 iiiiiiiiiiiiiiiiiiiiiiiiiiiiiiiiiiiiiiiiiiiiiiiiii\nF\n1 COMMIT\nL\n\
    3 ROLLBACK\nL\nF\nF\n1 DELETE 3\n1 INSERT 7 70 1 jjjjjjjjjjjjjjjjjjjj\nF\n1 COMMIT\n\
    3 UPDATE 5 50 1 kkkkkkkkkk\n2 DELETE 7\nF\n2 COMMIT\nF\n";

// The rows of the units that a trace says were committed, as a reply lists them; with a COMMIT that
// the device refused, where `refused`. The plain program has no pages, no records and no volume.
fn committed_rows(alloc: Global, trace: &[Entry], refused: bool) -> Result<String, Fail> {
    let mut plain = PlainState::new(alloc, TableCopy::first());
    for entry in trace {
        let (Actor::Session(session), Event::Said { stmt, reply }) = (entry.actor, &entry.event)
        else {
            continue;
        };
        let is_done = match reply {
            Reply::Device => refused,
            Reply::Down => false,
            _ => true,
        };
        if is_done {
            plain.say(alloc, session, stmt);
        }
    }
    for number in [1, 2, 3] {
        plain.say(alloc, Session(number), &Stmt::Rollback);
    }
    let all = Stmt::Scan {
        lo: 0,
        hi: u64::MAX,
    };
    let listed = plain.say(alloc, Session(1), &all);
    Ok(format!(in alloc; "{listed:?}")?)
}

// The rows that an opening of this image finds, as a reply lists them, and the volume after three
// flushes, of which the last finds no dirty page.
fn rows_on(rt: &impl Abort, alloc: Global, image: MemVolume) -> Result<(String, MemVolume), Fail> {
    let deck = b"1 SCAN 0 18446744073709551615\nF\nF\nF\n";
    let played = play(alloc, image, deck)?;
    assert_eq!(rt; played.trace.len(), 5);
    let (mut listed, mut found) = (String::new(alloc), None);
    if let Event::Said { reply, .. } = &played.trace[1].event {
        listed = format!(in alloc; "{reply:?}")?;
        if let Reply::Listed(rows) = reply {
            found = Some(rows.as_slice().len() as u64);
        }
    }
    assert!(rt; found.is_some());
    assert_eq!(rt;
        played.end,
        RunEnd::Whole {
            rows: found.unwrap_or(0)
        }
    );
    assert!(rt; matches!(played.trace[4].event, Event::Clean));
    Ok((listed, played.volume))
}

// Each image that is picked opens with the rows of the committed units; those of a COMMIT that the
// device refused are all among them or none. So does what a crash leaves after the image's own
// pages were written.
fn expect_kept(rt: &impl Abort, alloc: Global, played: &MemPlayed) -> Result<(), Fail> {
    let before = committed_rows(alloc, played.trace.as_slice(), false)?;
    let after = committed_rows(alloc, played.trace.as_slice(), true)?;
    for pick in 0..8 {
        let (rows, flushed) = rows_on(rt, alloc, played.volume.crash(pick)?)?;
        let is_before = rows.as_str() == before.as_str();
        let is_after = rows.as_str() == after.as_str();
        assert!(rt; is_before || is_after, "pick {pick}");
        let (again, _) = rows_on(rt, alloc, flushed.crash(pick)?)?;
        assert_eq!(rt; again.as_str(), rows.as_str(), "pick {pick}");
    }
    Ok(())
}

// How many calls the long deck makes.
fn long_deck_calls(rt: &impl Abort, alloc: Global) -> Result<u64, Fail> {
    let played = played(alloc, 12, &[], None, LONG_DECK)?;
    assert_eq!(rt; played.end, RunEnd::Whole { rows: 5 });
    expect_kept(rt, alloc, &played)?;
    let mut calls = 0;
    for entry in played.trace.iter() {
        calls = entry.calls;
    }
    Ok(calls)
}

// Wherever the device stops.
#[test]
fn keeps_committed_units_where_the_device_stops(rt: HostRuntime) -> Result<(), Fail> {
    let alloc = rt.alloc();
    for stop in 0..long_deck_calls(&rt, alloc)? {
        let played = played(alloc, 12, &[], Some(stop), LONG_DECK)?;
        expect_kept(&rt, alloc, &played)?;
    }
    Ok(())
}

// Whichever call fails, and whether a read then has what was to be written.
#[test]
fn keeps_committed_units_where_a_call_fails(rt: HostRuntime) -> Result<(), Fail> {
    let alloc = rt.alloc();
    for before in 0..long_deck_calls(&rt, alloc)? {
        for written in [false, true] {
            let failing = [Failing {
                call: before.saturating_add(1),
                written,
            }];
            let played = played(alloc, 12, &failing, None, LONG_DECK)?;
            expect_kept(&rt, alloc, &played)?;
        }
    }
    Ok(())
}
