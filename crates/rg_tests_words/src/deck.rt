use rg_base::control::{Longlog, Maxro};
use rg_base::options::{DrainFor, Options};
use rg_deck::read::{Admits, DeckFault, read_admitted, read_deck};
use rg_opts::statement::default_options;
use rg_stmt::line::Line;
use rg_stmt::stmt::Stmt;
use std::alloc::{AllocError, Global};
use std::process::Abort;
use std::test::Fail;

fn lines_of(rt: &impl Abort, alloc: Global, deck: &[u8]) -> Result<Vec<Line>, DeckFault> {
    assert!(rt; deck.len() <= 16_777_216);
    read_deck(alloc, deck)
}

// How many lines a deck of statements has.
fn count_statements(rt: &impl Abort, alloc: Global, deck: &[u8]) -> Result<usize, DeckFault> {
    assert!(rt; deck.len() <= 16_777_216);
    Ok(read_admitted(alloc, deck, Admits::Statements)?.len())
}

// How long the text is of the row that a deck inserts, where it does nothing else.
fn text_length(rt: &impl Abort, alloc: Global, deck: &[u8]) -> Result<usize, DeckFault> {
    let lines = lines_of(rt, alloc, deck)?;
    match lines.as_slice() {
        [
            Line::Said {
                stmt: Stmt::Insert(row),
                ..
            },
        ] => Ok(row.text.as_slice().len()),
        _ => Err(DeckFault::Line { number: 0 }),
    }
}

// The options of a deck that is one control statement.
fn options_of(rt: &impl Abort, alloc: Global, deck: &[u8]) -> Result<Options, DeckFault> {
    let lines = lines_of(rt, alloc, deck)?;
    match lines.as_slice() {
        [Line::Reorg(options)] => Ok(*options),
        _ => Err(DeckFault::Line { number: 0 }),
    }
}

// A deck that inserts one row, whose text is spelled by so many equal bytes.
fn deck_of(alloc: Global, byte: u8, count: usize) -> Result<Vec<u8>, AllocError> {
    let mut deck = b"1 INSERT 1 2 3 ".to_vec(alloc)?;
    for _ in 0..count {
        deck.push(byte)?;
    }
    Ok(deck)
}

#[test]
fn reads_each_line(rt: HostRuntime) -> Result<(), Fail> {
    let alloc = rt.alloc();
    for (deck, want) in [
        (
            b"1 INSERT 5 50 1 ab".as_slice(),
            "[Said { session: Session(1), stmt: Insert(Row { key: 5, clus: 50, cat: 1, \
             text: Text { bytes: [97, 98] } }) }]",
        ),
        (
            b"99 UPDATE 5 50 1 -\n",
            "[Said { session: Session(99), stmt: Update(Row { key: 5, clus: 50, cat: 1, \
             text: Text { bytes: [] } }) }]",
        ),
        (
            b"10 INSERT 0 0 0 --",
            "[Said { session: Session(10), stmt: Insert(Row { key: 0, clus: 0, cat: 0, \
             text: Text { bytes: [45] } }) }]",
        ),
        (
            b"2 INSERT 0 0 0 -~!",
            "[Said { session: Session(2), stmt: Insert(Row { key: 0, clus: 0, cat: 0, \
             text: Text { bytes: [45, 126, 33] } }) }]",
        ),
        (
            b"7 DELETE 10",
            "[Said { session: Session(7), stmt: Delete(10) }]",
        ),
        (
            b"1 SELECT 18446744073709551615",
            "[Said { session: Session(1), stmt: Select(18446744073709551615) }]",
        ),
        (
            b"1 SCAN 9 1",
            "[Said { session: Session(1), stmt: Scan { lo: 9, hi: 1 } }]",
        ),
        (b"1 FIND 0", "[Said { session: Session(1), stmt: Find(0) }]"),
        (b"1 COMMIT", "[Said { session: Session(1), stmt: Commit }]"),
        (
            b"1 ROLLBACK",
            "[Said { session: Session(1), stmt: Rollback }]",
        ),
        (b"U\nF\nL\nX\n", "[Step, Flush, Show, Death]"),
        (
            b"U\n3 COMMIT\nX",
            "[Step, Said { session: Session(3), stmt: Commit }, Death]",
        ),
        (b"", "[]"),
    ] {
        let lines = lines_of(&rt, alloc, deck)?;
        let found = format!(in alloc; "{lines:?}")?;
        assert_eq!(rt; found.as_str(), want);
    }
    Ok(())
}

#[test]
fn refuses_lines(rt: HostRuntime) {
    for deck in [
        b"1 INSERT 01 1 1 a".as_slice(),
        b"1 INSERT 1 1 1",
        b"1 INSERT 1 1 1 ",
        b"1 INSERT 1 1 1 a b",
        b"1 INSERT 1 1 1 a\x7f",
        b"1 INSERT 1 1 1 a\t",
        b"1 INSERT 1 1 18446744073709551616 a",
        b"1 SELECT 18446744073709551616",
        b"1 SELECT 99999999999999999999",
        b"1 SELECT ",
        b"1 SELECT",
        b"1 SELECT +5",
        b"1 SELECT -5",
        b"1 SELECT 05",
        b"1 SELECT  5",
        b"1 SELECT 5 ",
        b"1 SELECT 5 6",
        b"1 SCAN 1",
        b"1 SCAN 1 2 3",
        b"1 SCAN 1  2",
        b"1 FIND",
        b"1 COMMIT ",
        b"1 COMMIT 1",
        b"1 ROLLBACK 1",
        b"1  COMMIT",
        b" 1 COMMIT",
        b"COMMIT",
        b" COMMIT",
        b"1",
        b"1 ",
        b"1 commit",
        b"1 COMMITS",
        b"1 DROP 5",
        b"0 COMMIT",
        b"100 COMMIT",
        b"01 COMMIT",
        b"257 COMMIT",
        b"18446744073709551617 COMMIT",
        b"1 COMMIT\r\n",
        b"u",
        b"U ",
        b" U",
        b"U U",
        b"1 U",
        b"UF",
        b"REORG",
        b"REORG ",
        b"REORG SHRLEVEL CHANGE",
        b"REORG TABLESPACE SHRLEVEL",
        b"reorg tablespace shrlevel change",
        b"Reorg TABLESPACE SHRLEVEL CHANGE",
        b"REORG TABLESPACE SHRLEVEL CHANGE ",
        b" REORG TABLESPACE SHRLEVEL CHANGE",
        b"REORG  TABLESPACE SHRLEVEL CHANGE",
        b"REORG TABLESPACE SHRLEVEL CHANGE  DELAY 1",
        b"REORG\tTABLESPACE SHRLEVEL CHANGE",
        b"REORG TABLESPACE SHRLEVEL CHANGE\r\n",
        b"REORG TABLESPACE SHRLEVEL CHANGES",
        b"REORG TABLESPACE SHRLEVEL CHANGE DELAY",
        b"REORG TABLESPACE SHRLEVEL CHANGE DELAY 01",
        b"REORG TABLESPACE SHRLEVEL CHANGE delay 1",
        b"REORG TABLESPACE SHRLEVEL CHANGE DELAY 1 DELAY 1",
        b"REORG TABLESPACE SHRLEVEL CHANGE DELAY 1 DRAIN ALL DELAY 2",
        b"REORG TABLESPACE SHRLEVEL CHANGE PCTFREE 100",
        b"REORG TABLESPACE SHRLEVEL CHANGE \xff",
        b"REORG TABLESPACE SHRLEVEL CHANGE U",
        b"1 REORG",
        b"1 REORG TABLESPACE SHRLEVEL CHANGE",
        b"\n",
        b" ",
        b" \n",
    ] {
        let found = lines_of(&rt, rt.alloc(), deck).map(|lines| lines.len());
        assert_eq!(rt; found, Err(DeckFault::Line { number: 1 }), "at {deck:?}");
    }
}

#[test]
fn reads_control_statements(rt: HostRuntime) {
    let defaults = default_options();
    let two = Options {
        maxro: Maxro::Within(10),
        longlog: Longlog::Drain,
        ..defaults
    };
    let three = Options {
        drain: DrainFor::All,
        pctfree: 0,
        freepage: 255,
        ..defaults
    };
    for (deck, want) in [
        (b"REORG TABLESPACE SHRLEVEL CHANGE".as_slice(), defaults),
        (b"REORG TABLESPACE SHRLEVEL CHANGE\n", defaults),
        (b"REORG TABLESPACE SHRLEVEL CHANGE MAXRO 300", defaults),
        (
            b"REORG TABLESPACE SHRLEVEL CHANGE MAXRO 10 LONGLOG DRAIN",
            two,
        ),
        (
            b"REORG TABLESPACE SHRLEVEL CHANGE LONGLOG DRAIN MAXRO 10\n",
            two,
        ),
        (
            b"REORG TABLESPACE SHRLEVEL CHANGE LONGLOG DRAIN DELAY 1200 MAXRO 10",
            two,
        ),
        (
            b"REORG TABLESPACE SHRLEVEL CHANGE DRAIN ALL PCTFREE 0 FREEPAGE 255",
            three,
        ),
        (
            b"REORG TABLESPACE SHRLEVEL CHANGE FREEPAGE 255 DRAIN ALL PCTFREE 0",
            three,
        ),
    ] {
        assert_eq!(rt; options_of(&rt, rt.alloc(), deck), Ok(want), "at {deck:?}");
    }
}

#[test]
fn counts_lines(rt: HostRuntime) {
    for (deck, every, statements) in [
        (
            b"1 INSERT 5 50 1 abc\n2 SELECT 5\n1 COMMIT".as_slice(),
            Ok(3),
            Ok(3),
        ),
        (b"1 COMMIT\n\n1 COMMIT", Err(2), Err(2)),
        (b"1 COMMIT\n1 COMMIT\n1", Err(3), Err(3)),
        (b"1 COMMIT\n1 COMMIT\n\n", Err(3), Err(3)),
        (b"U\n1 COMMIT", Ok(2), Err(1)),
        (b"1 COMMIT\nF\n", Ok(2), Err(2)),
        (b"1 COMMIT\n1 COMMIT\nL", Ok(3), Err(3)),
        (b"1 COMMIT\nX\n1", Err(3), Err(2)),
        (b"1 COMMIT\n1\nX", Err(2), Err(2)),
        (
            b"1 COMMIT\nREORG TABLESPACE SHRLEVEL CHANGE DELAY 1\nU\nL\n",
            Ok(4),
            Err(2),
        ),
        (b"U\nREORG TABLESPACE SHRLEVEL CHANGE\n\n", Err(3), Err(1)),
        (
            b"REORG TABLESPACE SHRLEVEL CHANGE\nREORG TABLESPACE SHRLEVEL CHANGE",
            Ok(2),
            Err(1),
        ),
    ] {
        let found = lines_of(&rt, rt.alloc(), deck).map(|lines| lines.len());
        assert_eq!(rt;
            found,
            every.map_err(|number| DeckFault::Line { number }),
            "at {deck:?}"
        );
        let found = count_statements(&rt, rt.alloc(), deck);
        assert_eq!(rt;
            found,
            statements.map_err(|number| DeckFault::Line { number }),
            "at {deck:?}"
        );
    }
}

#[test]
fn reads_lines_of_one_letter(rt: HostRuntime) -> Result<(), Fail> {
    let alloc = rt.alloc();
    for (deck, want) in [
        (b"L".as_slice(), "Ok([Show])"),
        (b"F\n", "Ok([Flush])"),
        (
            b"F\n7 DELETE 10\nL\nF\nF",
            "Ok([Flush, Said { session: Session(7), stmt: Delete(10) }, Show, Flush, Flush])",
        ),
        (b"U", "Ok([Step])"),
        (b"U\nU\n", "Ok([Step, Step])"),
        (b"X", "Ok([Death])"),
        (b"f", "Err(Line { number: 1 })"),
        (b"F ", "Err(Line { number: 1 })"),
        (b"FL", "Err(Line { number: 1 })"),
        (b"1 F", "Err(Line { number: 1 })"),
        (b"1 U", "Err(Line { number: 1 })"),
        (b"F\n\n", "Err(Line { number: 2 })"),
        (b"F\nX", "Ok([Flush, Death])"),
        (b"L\nF\nU\nX\nu", "Err(Line { number: 5 })"),
    ] {
        let lines = lines_of(&rt, alloc, deck);
        let found = format!(in alloc; "{lines:?}")?;
        assert_eq!(rt; found.as_str(), want, "at {deck:?}");
    }
    Ok(())
}

#[test]
fn bounds_texts(rt: HostRuntime) -> Result<(), Fail> {
    let first = Err(DeckFault::Line { number: 1 });
    for (byte, count, want) in [
        (b'x', 800, Ok(800)),
        (b'x', 801, first),
        (b'-', 800, Ok(799)),
        (b'-', 801, Ok(800)),
        (b'-', 802, first),
    ] {
        let deck = deck_of(rt.alloc(), byte, count)?;
        assert_eq!(rt; text_length(&rt, rt.alloc(), &deck), want);
    }
    Ok(())
}
