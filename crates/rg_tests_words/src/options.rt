use rg_base::control::{Alteration, Answer, Command, Deadline, Longlog, Maxro};
use rg_base::options::{DrainFor, Options};
use rg_opts::operator::{OPERATOR_LIMIT, OperatorFault, read_operator};
use rg_opts::statement::{OptionFault, read_alter, read_control};
use rg_opts::words::split_words;
use std::test::Fail;

const DEFAULTS: Options = Options {
    maxro: Maxro::Within(300),
    longlog: Longlog::Continue,
    delay: 1200,
    deadline: Deadline::Never,
    drain: DrainFor::Writers,
    wait: 30,
    retry: 3,
    pause: 30,
    pctfree: 5,
    freepage: 0,
};

#[test]
fn reads_control_statements(rt: HostRuntime) -> Result<(), Fail> {
    for (text, want) in [
        ("REORG TABLESPACE SHRLEVEL CHANGE", DEFAULTS),
        (
            "REORG TABLESPACE SHRLEVEL CHANGE LONGLOG DRAIN MAXRO 0 DRAIN WRITERS DEADLINE NONE",
            Options {
                maxro: Maxro::Within(0),
                longlog: Longlog::Drain,
                ..DEFAULTS
            },
        ),
        (
            "REORG TABLESPACE SHRLEVEL CHANGE FREEPAGE 255 PCTFREE 99 RETRY_DELAY 4294967295 \
             RETRY 255 DRAIN_WAIT 0 DRAIN ALL DEADLINE 50 DELAY 10 LONGLOG TERM MAXRO DEFER",
            Options {
                maxro: Maxro::Defer,
                longlog: Longlog::Term,
                delay: 10,
                deadline: Deadline::At(50),
                drain: DrainFor::All,
                wait: 0,
                retry: 255,
                pause: u32::MAX,
                pctfree: 99,
                freepage: 255,
            },
        ),
    ] {
        let words = split_words(rt.alloc(), text)?;
        assert_eq!(rt; read_control(&words), Ok(want), "at {text:?}");
    }
    Ok(())
}

#[test]
fn names_word_of_control_statement(rt: HostRuntime) -> Result<(), Fail> {
    assert_eq!(rt; read_control(&[]), Err(OptionFault::Word { at: 0 }));
    for (text, at) in [
        ("", 0),
        ("reorg TABLESPACE SHRLEVEL CHANGE", 0),
        ("REORG", 1),
        ("REORG SHRLEVEL CHANGE", 1),
        ("REORG TABLESPACE SHRLEVEL", 3),
        ("REORG TABLESPACE SHRLEVEL CHANGE ", 4),
        ("REORG TABLESPACE SHRLEVEL CHANGE TIMEOUT 1", 4),
        ("REORG TABLESPACE SHRLEVEL CHANGE MAXRO", 5),
        ("REORG TABLESPACE SHRLEVEL CHANGE MAXRO 07", 5),
        ("REORG TABLESPACE SHRLEVEL CHANGE MAXRO +7", 5),
        ("REORG TABLESPACE SHRLEVEL CHANGE MAXRO NONE", 5),
        ("REORG TABLESPACE SHRLEVEL CHANGE DEADLINE DEFER", 5),
        ("REORG TABLESPACE SHRLEVEL CHANGE DELAY 4294967296", 5),
        ("REORG TABLESPACE SHRLEVEL CHANGE PCTFREE 100", 5),
        ("REORG TABLESPACE SHRLEVEL CHANGE RETRY 256", 5),
        ("REORG TABLESPACE SHRLEVEL CHANGE MAXRO 1 MAXRO 1", 6),
        ("REORG TABLESPACE SHRLEVEL CHANGE MAXRO 1 DRAIN 1", 7),
    ] {
        let words = split_words(rt.alloc(), text)?;
        assert_eq!(rt;
            read_control(&words),
            Err(OptionFault::Word { at }),
            "at {text:?}"
        );
    }
    Ok(())
}

#[test]
fn reads_alterations(rt: HostRuntime) -> Result<(), Fail> {
    let nothing = Alteration {
        maxro: None,
        longlog: None,
        delay: None,
        deadline: None,
    };
    let word = |at| Err(OptionFault::Word { at });
    assert_eq!(rt; read_alter(&[]), word(0));
    for (text, want) in [
        (
            "MAXRO 10",
            Ok(Alteration {
                maxro: Some(Maxro::Within(10)),
                ..nothing
            }),
        ),
        (
            "DEADLINE NONE DELAY 0",
            Ok(Alteration {
                delay: Some(0),
                deadline: Some(Deadline::Never),
                ..nothing
            }),
        ),
        ("DRAIN ALL", word(0)),
        ("LONGLOG", word(1)),
        ("DELAY 1 RETRY 1", word(2)),
        ("DELAY 1 DELAY 1", word(2)),
    ] {
        let words = split_words(rt.alloc(), text)?;
        assert_eq!(rt; read_alter(&words), want, "at {text:?}");
    }
    Ok(())
}

#[test]
fn reads_answers(rt: HostRuntime) -> Result<(), Fail> {
    let answer = |now, estimate, command| Answer {
        now,
        estimate,
        command,
    };
    let alter = Command::Alter(Alteration {
        maxro: Some(Maxro::Within(10)),
        longlog: None,
        delay: None,
        deadline: None,
    });
    for (bytes, want) in [
        (b"".as_slice(), [].as_slice()),
        (b"4 0 TERM", &[answer(4, 0, Command::Term)]),
        (
            b"40 10\n40 10 ALTER MAXRO 10\n4294967295 4294967295\n",
            &[
                answer(40, 10, Command::Nothing),
                answer(40, 10, alter),
                answer(u32::MAX, u32::MAX, Command::Nothing),
            ],
        ),
    ] {
        let answers = read_operator(rt.alloc(), bytes)?;
        assert_eq!(rt; answers.as_slice(), want);
    }
    Ok(())
}

#[test]
fn names_line_of_file(rt: HostRuntime) -> Result<(), Fail> {
    for (bytes, number) in [
        (b"4".as_slice(), 1),
        (b"\n", 1),
        (b"0 0\r\n", 1),
        (b" 0 0", 1),
        (b"0  0", 1),
        (b"0 0 ", 1),
        (b"00 0", 1),
        (b"0 4294967296", 1),
        (b"0 0 term", 1),
        (b"0 0 TERM TERM", 1),
        (b"0 0 ALTER DRAIN ALL", 1),
        (b"0 0 \xff", 1),
        (b"0 0\n0 0 ALTER\n", 2),
        (b"0 0\n\n", 2),
        (b"0 0\n0 0 TERM\n0", 3),
    ] {
        let found = read_operator(rt.alloc(), bytes).map(|answers| answers.len());
        assert_eq!(rt; found, Err(OperatorFault::Line { number }), "at {bytes:?}");
    }
    for (length, number) in [(OPERATOR_LIMIT, 1), (OPERATOR_LIMIT + 1, 0)] {
        let bytes = vec![in rt.alloc(); b'\n'; length]?;
        let found = read_operator(rt.alloc(), &bytes).map(|answers| answers.len());
        assert_eq!(rt; found, Err(OperatorFault::Line { number }));
    }
    Ok(())
}
