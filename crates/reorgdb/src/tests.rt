use crate::top::{Finished, reorg_alone, reorg_main};
use outside::{BytesSink, BytesSource, RubbishSource};
use rg_mem::script::ScriptOperator;
use rg_mem::volume::{Failing, MemVolume};
use rg_outside::sink::{GiveFault, Sink};
use rg_outside::source::Source;
use std::alloc::{AllocError, Global};
use std::test::Fail;

mod deaths;
mod judged;
mod layouts;
mod openings;
mod operators;
mod outside;

const ALL: usize = usize::MAX;

const NEVER: u64 = 0;

const PLAY: [&str; 1] = ["play"];

const FIRST_DECK: &[u8] = b"1 INSERT 5 50 1 abc\n1 SELECT 5\n1 COMMIT\n";

const FIRST_PRINT: &[u8] =
    b"0 - OPENED copy=1 rows=0 pages=0\n1 1 OK\n2 1 ROW 5 50 1 abc\n3 1 OK\nEND entries=4 rows=1\n";

// The status, and the number of entries of the trace.
type Came = (u8, usize);

fn came<V>(finished: &Finished<V>) -> Came {
    (finished.status, finished.trace.len())
}

// A volume whose copies have so many pages. Call `fails_at`, counted from 1, fails.
fn volume_failing(alloc: Global, pages: u32, fails_at: u64) -> Result<MemVolume, AllocError> {
    let failing = [Failing {
        call: fails_at,
        written: false,
    }];
    MemVolume::new(alloc, 1000, pages, pages, 1000, 400, &failing, None).map_err(|_| AllocError)
}

// The same, of which no call fails.
fn volume(alloc: Global, pages: u32) -> Result<MemVolume, AllocError> {
    volume_failing(alloc, pages, NEVER)
}

fn owned(alloc: Global, words: &[&str]) -> Result<Vec<String>, AllocError> {
    let mut owned = Vec::new(alloc);
    for word in words {
        owned.push(String::from_str(alloc, word)?)?;
    }
    Ok(owned)
}

// An operator without an answer, which commands nothing.
fn silent(alloc: Global) -> Result<Box<ScriptOperator>, AllocError> {
    match ScriptOperator::new(alloc, &[]) {
        Ok(operator) => Ok(Box::new(alloc, operator)?),
        Err(_) => Err(AllocError),
    }
}

fn call<S: Source, K: Sink>(
    alloc: Global,
    words: &[&str],
    source: &mut S,
    sink: &mut K,
) -> Result<Came, AllocError> {
    let words = owned(alloc, words)?;
    let operator = silent(alloc)?;
    let volume = volume(alloc, 9)?;
    Ok(came(&reorg_alone(alloc, &words, source, sink, volume, operator)))
}

fn whole(alloc: Global, most: usize) -> BytesSink {
    BytesSink::new(alloc, most, NEVER, GiveFault::Failed)
}

#[test]
fn plays_decks(rt: HostRuntime) -> Result<(), Fail> {
    for (deck, entries, print) in [
        (
            b"".as_slice(),
            1,
            b"0 - OPENED copy=1 rows=0 pages=0\nEND entries=1 rows=0\n".as_slice(),
        ),
        (FIRST_DECK, 4, FIRST_PRINT),
        (b"1 INSERT 5 50 1 abc\n1 SELECT 5\n1 COMMIT", 4, FIRST_PRINT),
        (
            b"1 INSERT 5 50 1 abc\n1 COMMIT\nF\nF\n",
            5,
            b"0 - OPENED copy=1 rows=0 pages=0\n1 1 OK\n2 1 OK\n3 - FLUSH page=1\n\
                4 - CLEAN\nEND entries=5 rows=1\n",
        ),
        (
            b"1 INSERT 1 1 1 a\n1 COMMIT\n1 UPDATE 1 1 1 b\nF\nX\n2 SELECT 1\nX\n",
            8,
            b"0 - OPENED copy=1 rows=0 pages=0\n1 1 OK\n2 1 OK\n3 1 OK\n4 - FLUSH page=1\n\
                5 - OPENED copy=1 rows=1 pages=1\n6 2 ROW 1 1 1 a\n\
                7 - OPENED copy=1 rows=1 pages=1\nEND entries=8 rows=1\n",
        ),
    ] {
        for (taken, kept) in [(ALL, ALL), (1, ALL), (ALL, 1), (7, 5)] {
            let mut source = BytesSource::new(deck, taken, NEVER);
            let mut sink = whole(rt.alloc(), kept);
            let came = call(rt.alloc(), &PLAY, &mut source, &mut sink)?;
            assert_eq!(rt; came, (0, entries), "at {deck:?}");
            assert_eq!(rt; sink.held(), print);
        }
    }
    Ok(())
}

#[test]
fn refuses(rt: HostRuntime) -> Result<(), Fail> {
    for (words, deck, most, fails_at, status, output, calls) in [
        (
            &[].as_slice(),
            FIRST_DECK,
            ALL,
            NEVER,
            1,
            b"REFUSED words\n".as_slice(),
            0,
        ),
        (
            &["play", "--layout", "wide"].as_slice(),
            FIRST_DECK,
            ALL,
            NEVER,
            1,
            b"REFUSED words\n",
            0,
        ),
        (
            &["plays"].as_slice(),
            FIRST_DECK,
            ALL,
            NEVER,
            1,
            b"REFUSED words\n",
            0,
        ),
        (
            &["play", "play"].as_slice(),
            FIRST_DECK,
            ALL,
            NEVER,
            1,
            b"REFUSED words\n",
            0,
        ),
        (
            &["play", "--layout=full"].as_slice(),
            b"1 SELECT 18446744073709551616\n",
            ALL,
            NEVER,
            2,
            b"REFUSED deck line 1\n",
            2,
        ),
        (
            &["play"].as_slice(),
            b"L\nF\nu\n",
            ALL,
            NEVER,
            2,
            b"REFUSED deck line 3\n",
            2,
        ),
        (
            &["play"].as_slice(),
            FIRST_DECK,
            ALL,
            1,
            3,
            b"REFUSED source\n",
            1,
        ),
        (
            &["play"].as_slice(),
            FIRST_DECK,
            1,
            2,
            3,
            b"REFUSED source\n",
            2,
        ),
        (
            &["play"].as_slice(),
            FIRST_DECK,
            ALL,
            2,
            3,
            b"REFUSED source\n",
            2,
        ),
    ] {
        let mut source = BytesSource::new(deck, most, fails_at);
        let mut sink = whole(rt.alloc(), ALL);
        let came = call(rt.alloc(), words, &mut source, &mut sink)?;
        assert_eq!(rt; came, (status, 0), "at {words:?}");
        assert_eq!(rt; sink.held(), output);
        assert_eq!(rt; source.calls(), calls);
    }
    Ok(())
}

#[test]
fn bounds_decks(rt: HostRuntime) -> Result<(), Fail> {
    for (count, status, output) in [
        (16_777_216, 2, b"REFUSED deck line 1\n".as_slice()),
        (16_777_217, 7, b"REFUSED deck long\n"),
        (16_777_219, 7, b"REFUSED deck long\n"),
    ] {
        let mut source = RubbishSource::new(count);
        let mut sink = whole(rt.alloc(), ALL);
        let came = call(rt.alloc(), &PLAY, &mut source, &mut sink)?;
        assert_eq!(rt; came, (status, 0), "at {count}");
        assert_eq!(rt; sink.held(), output);
        assert_eq!(rt; source.left(), count.saturating_sub(16_777_217));
    }
    Ok(())
}

#[test]
fn stops_at_sink(rt: HostRuntime) -> Result<(), Fail> {
    for (words, most, fails_at, fault, came_to, held) in [
        (
            PLAY.as_slice(),
            0,
            NEVER,
            GiveFault::Failed,
            (4, 4),
            b"".as_slice(),
        ),
        (PLAY.as_slice(), 5, 2, GiveFault::Failed, (4, 4), b"0 - O"),
        (PLAY.as_slice(), ALL, 1, GiveFault::NoMemory, (8, 4), b""),
        (
            PLAY.as_slice(),
            5,
            3,
            GiveFault::NoMemory,
            (8, 4),
            b"0 - OPENED",
        ),
        (
            ["plays"].as_slice(),
            0,
            NEVER,
            GiveFault::Failed,
            (4, 0),
            b"",
        ),
        (
            ["plays"].as_slice(),
            5,
            2,
            GiveFault::Failed,
            (4, 0),
            b"REFUS",
        ),
    ] {
        let mut source = BytesSource::new(FIRST_DECK, ALL, NEVER);
        let mut sink = BytesSink::new(rt.alloc(), most, fails_at, fault);
        let came = call(rt.alloc(), words, &mut source, &mut sink)?;
        assert_eq!(rt; came, came_to, "at {most}");
        assert_eq!(rt; sink.held(), held);
    }
    Ok(())
}

#[test]
fn first_session(rt: HostRuntime) -> Result<(), Fail> {
    let words = owned(rt.alloc(), &PLAY)?;
    let operator = silent(rt.alloc())?;
    let mut source = BytesSource::new(FIRST_DECK, ALL, NEVER);
    let mut sink = whole(rt.alloc(), ALL);
    let finished = reorg_main(
        &rt,
        rt.alloc(),
        &words,
        &mut source,
        &mut sink,
        volume(rt.alloc(), 1)?,
        operator,
    );
    assert_eq!(rt; came(&finished), (0, 4));
    assert_eq!(rt; sink.held(), FIRST_PRINT);
    Ok(())
}

// What a call for these words over this volume prints, and its status and the entries of its trace.
fn print_for(
    alloc: Global,
    words: &[&str],
    volume: MemVolume,
    source: &mut BytesSource<'_>,
) -> Result<(Came, Vec<u8>), AllocError> {
    let words = owned(alloc, words)?;
    let operator = silent(alloc)?;
    let mut sink = whole(alloc, ALL);
    let finished = reorg_alone(alloc, &words, source, &mut sink, volume, operator);
    Ok((came(&finished), sink.held().to_vec(alloc)?))
}

// The same, for a deck that is played.
fn print_over(
    alloc: Global,
    volume: MemVolume,
    deck: &[u8],
) -> Result<(Came, Vec<u8>), AllocError> {
    print_for(
        alloc,
        &PLAY,
        volume,
        &mut BytesSource::new(deck, ALL, NEVER),
    )
}

// The volume that a call leaves which plays this deck.
fn played_over(alloc: Global, volume: MemVolume, deck: &[u8]) -> Result<MemVolume, AllocError> {
    let words = owned(alloc, &PLAY)?;
    let operator = silent(alloc)?;
    let mut source = BytesSource::new(deck, ALL, NEVER);
    let mut sink = whole(alloc, ALL);
    Ok(reorg_alone(alloc, &words, &mut source, &mut sink, volume, operator).volume)
}
