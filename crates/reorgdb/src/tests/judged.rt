// Calls whose trace is judged: those of `judge` and of `gen`.
//
// 1. The line of the judge stands after the print, also where the run ended down, or an opening
//    after a death was refused. Where the first opening was refused there is none.
// 2. `gen` takes nothing from the source, and gives one line, also where the run ended down.
use super::outside::BytesSource;
use super::{ALL, FIRST_DECK, NEVER, print_for, volume, volume_failing};
use rg_base::set::Set;
use rg_mem::volume::MemVolume;
use rg_outside::volume::Volume;
use std::alloc::{AllocError, Global};
use std::test::Fail;

const ONE_ROW: &[u8] =
    b"GEN seed=0 rows=1 entries=36 ok=18 refused=0 copy=2 pages=1 over=0 legal=yes\n";

const TWO_THOUSAND: &[u8] =
    b"GEN seed=7 rows=2000 entries=2352 ok=2234 refused=0 copy=2 pages=52 over=0 legal=yes\n";

// A volume of which a page has other bytes than any page of the engine.
fn torn(alloc: Global, set: Set, page: u32) -> Result<MemVolume, AllocError> {
    let mut torn = volume(alloc, 9)?;
    if page >= 1 && page <= torn.capacity(set) {
        torn.write(set, page, &[255; 4096]).map_err(|_| AllocError)?;
    }
    Ok(torn)
}

// What `judge` comes to over a volume, and what it prints.
fn judges(
    alloc: Global,
    volume: MemVolume,
    deck: &[u8],
) -> Result<((u8, usize), Vec<u8>), AllocError> {
    let mut source = BytesSource::new(deck, ALL, NEVER);
    print_for(alloc, &["judge"], volume, &mut source)
}

#[test]
fn judges_a_trace(rt: HostRuntime) -> Result<(), Fail> {
    let alloc = rt.alloc();
    for (deck, fails_at, came_to, print) in [
        (
            FIRST_DECK,
            NEVER,
            (0, 4),
            b"0 - OPENED copy=1 rows=0 pages=0\n1 1 OK\n2 1 ROW 5 50 1 abc\n3 1 OK\n\
                END entries=4 rows=1\nJUDGE legal\n"
                .as_slice(),
        ),
        // The layout is a brief one.
        (
            b"1 INSERT 5 50 1 abc\nL\n",
            NEVER,
            (0, 3),
            b"0 - OPENED copy=1 rows=0 pages=0\n1 1 OK\n2 - LAYOUT copy=1\n\
                \x20 NOW pages=1 rows=1 over=0\nEND entries=3 rows=0\nJUDGE legal\n",
        ),
        (FIRST_DECK, 1, (6, 0), b"REFUSED volume device\n"),
        // The sync of the COMMIT fails.
        (
            FIRST_DECK,
            4,
            (6, 4),
            b"0 - OPENED copy=1 rows=0 pages=0\n1 1 OK\n2 1 ROW 5 50 1 abc\n3 1 3 DEVICE\n\
                END entries=4 DOWN\nJUDGE legal\n",
        ),
        // The opening after the death fails.
        (
            b"1 INSERT 5 50 1 abc\n1 COMMIT\nX\n1 SELECT 5\n",
            5,
            (6, 3),
            b"0 - OPENED copy=1 rows=0 pages=0\n1 1 OK\n2 1 OK\nEND entries=3 DOWN\nJUDGE legal\n",
        ),
        (b"1 COMMIT\nx\n", NEVER, (2, 0), b"REFUSED deck line 2\n"),
    ] {
        let failing = volume_failing(alloc, 9, fails_at)?;
        let (came, printed) = judges(alloc, failing, deck)?;
        assert_eq!(rt; came, came_to, "at {deck:?}");
        assert_eq!(rt; printed.as_slice(), print, "at {deck:?}");
    }
    Ok(())
}

// The first opening finds that the log is damaged. Or it does not read the second page, of which no
// record tells: the opening after the death does, since rows were written there, and finds it so.
#[test]
fn judges_up_to_a_damaged_page(rt: HostRuntime) -> Result<(), Fail> {
    let alloc = rt.alloc();
    let (came, printed) = judges(alloc, torn(alloc, Set::Log, 1)?, FIRST_DECK)?;
    assert_eq!(rt; came, (5, 0));
    assert_eq!(rt;
        printed.as_slice(),
        b"REFUSED volume damaged LOG 1\n".as_slice()
    );
    let mut deck = Vec::new(alloc);
    for key in b"12345" {
        deck.extend_from_slice(b"1 INSERT ")?;
        deck.push(*key)?;
        deck.extend_from_slice(b" 1 1 ")?;
        for _ in 0..800 {
            deck.push(b'x')?;
        }
        deck.push(b'\n')?;
    }
    deck.extend_from_slice(b"1 COMMIT\nX\n1 SELECT 1\n")?;
    let (came, printed) = judges(alloc, torn(alloc, Set::First, 2)?, deck.as_slice())?;
    assert_eq!(rt; came, (5, 7));
    assert_eq!(rt;
        printed.as_slice(),
        b"0 - OPENED copy=1 rows=0 pages=0\n1 1 OK\n2 1 OK\n3 1 OK\n4 1 OK\n5 1 OK\n6 1 OK\n\
            REFUSED volume damaged FIRST 2\nJUDGE legal\n"
            .as_slice()
    );
    Ok(())
}

// What `gen` comes to with these words over a volume, and what it gives. The source would fail.
fn generates(
    alloc: Global,
    words: &[&str],
    volume: MemVolume,
) -> Result<((u8, usize), Vec<u8>), AllocError> {
    let mut source = BytesSource::new(FIRST_DECK, ALL, 1);
    let came = print_for(alloc, words, volume, &mut source)?;
    if source.calls() == 0 {
        Ok(came)
    } else {
        Err(AllocError)
    }
}

#[test]
fn sums_up_a_run(rt: HostRuntime) -> Result<(), Fail> {
    let alloc = rt.alloc();
    let one = ["gen", "--seed=0", "--rows=1"].as_slice();
    for (words, fails_at, came_to, line) in [
        (one, NEVER, (0, 36), ONE_ROW),
        (
            ["gen", "--rows", "100", "--seed", "18446744073709551615"].as_slice(),
            NEVER,
            (0, 147),
            b"GEN seed=18446744073709551615 rows=100 entries=147 ok=125 refused=0 copy=2 pages=3 \
                over=0 legal=yes\n",
        ),
        (one, 2, (6, 0), b"REFUSED volume device\n"),
        // The sync of the first COMMIT fails, so nothing is done after it.
        (
            one,
            4,
            (6, 36),
            b"GEN seed=0 rows=1 entries=36 ok=1 refused=17 copy=0 pages=0 over=0 legal=yes\n",
        ),
        (
            ["gen", "--seed", "7"].as_slice(),
            NEVER,
            (1, 0),
            b"REFUSED words\n",
        ),
        (
            ["gen", "--seed=7", "--rows=0"].as_slice(),
            NEVER,
            (1, 0),
            b"REFUSED words\n",
        ),
        (
            ["gen", "--seed=7", "--rows=20001"].as_slice(),
            NEVER,
            (1, 0),
            b"REFUSED words\n",
        ),
        (
            ["judge", "--layout=full"].as_slice(),
            NEVER,
            (1, 0),
            b"REFUSED words\n",
        ),
        (["threads"].as_slice(), NEVER, (1, 0), b"REFUSED words\n"),
    ] {
        let failing = volume_failing(alloc, 9, fails_at)?;
        let (came, given) = generates(alloc, words, failing)?;
        assert_eq!(rt; came, came_to, "at {words:?}");
        assert_eq!(rt; given.as_slice(), line, "at {words:?}");
    }
    let (came, given) = generates(alloc, one, torn(alloc, Set::Log, 1)?)?;
    assert_eq!(rt; came, (5, 0));
    assert_eq!(rt;
        given.as_slice(),
        b"REFUSED volume damaged LOG 1\n".as_slice()
    );
    Ok(())
}

// Two thousand rows, which fill 49 pages and are reorganised into 52 beside 107 writers.
#[test]
fn generates_two_thousand(rt: HostRuntime) -> Result<(), Fail> {
    let alloc = rt.alloc();
    let Ok(volume) = MemVolume::new(alloc, 512, 64, 64, 60_000, 6_000, &[], None) else {
        return Err(AllocError.into());
    };
    let words = ["gen", "--seed", "7", "--rows", "2000"];
    let (came, given) = generates(alloc, &words, volume)?;
    assert_eq!(rt; came, (0, 2352));
    assert_eq!(rt; given.as_slice(), TWO_THOUSAND);
    Ok(())
}
