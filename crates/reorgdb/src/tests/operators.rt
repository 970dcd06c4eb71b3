use super::outside::BytesSink;
use super::{ALL, NEVER, whole};
use crate::edge::{Refusal, refuse, script};
use rg_base::control::{Answer, Command};
use rg_file::reading::FileFault;
use rg_outside::operator::Operator;
use rg_outside::sink::GiveFault;
use std::test::Fail;

const NOTHING: Answer = Answer {
    now: 0,
    estimate: 0,
    command: Command::Nothing,
};

// The first three answers. Behind the lines the last one comes again, without its command.
#[test]
fn answers_as_the_file_says(rt: HostRuntime) -> Result<(), Fail> {
    let four = Answer { now: 4, ..NOTHING };
    let term = Answer {
        estimate: 9,
        command: Command::Term,
        ..four
    };
    let after = Answer {
        command: Command::Nothing,
        ..term
    };
    for (file, answers) in [
        (b"".as_slice(), [NOTHING, NOTHING, NOTHING]),
        (b"4 0\n4 9 TERM\n", [four, term, after]),
        (b"4 9 TERM", [term, after, after]),
    ] {
        let found = Ok(Some(file.to_vec(rt.alloc())?));
        let Ok(Some(mut operator)) = script(rt.alloc(), found) else {
            return Err("the file is an operator's".into());
        };
        let came = [operator.ask(1), operator.ask(1), operator.ask(1)];
        assert_eq!(rt; came, answers, "at {file:?}");
    }
    Ok(())
}

#[test]
fn is_the_clock_without_a_file(rt: HostRuntime) {
    let chosen = script(rt.alloc(), Ok(None));
    assert!(rt; matches!(&chosen, Ok(None)));
}

// What was found, and how the program ends then.
#[test]
fn refuses_operators(rt: HostRuntime) -> Result<(), Fail> {
    for (file, line, output) in [
        (
            b"x\n".as_slice(),
            1,
            b"REFUSED operator line 1\n".as_slice(),
        ),
        (b"0 0\n\n0 0\n", 2, b"REFUSED operator line 2\n"),
        (b"0 0\n0 0 TERM \n", 2, b"REFUSED operator line 2\n"),
        (b"0 0\n0 0\n00 0", 3, b"REFUSED operator line 3\n"),
    ] {
        let found = Ok(Some(file.to_vec(rt.alloc())?));
        let Err(refusal) = script(rt.alloc(), found) else {
            return Err("the file is no operator's".into());
        };
        assert_eq!(rt; refusal, Refusal::OperatorLine { line });
        let mut sink = whole(rt.alloc(), ALL);
        assert_eq!(rt; refuse(rt.alloc(), &mut sink, refusal), 11);
        assert_eq!(rt; sink.held(), output);
    }
    Ok(())
}

// The lines of a file that is too long are not looked at.
#[test]
fn bounds_the_file(rt: HostRuntime) -> Result<(), Fail> {
    for (count, line) in [(1_048_576, 1), (1_048_577, 0)] {
        let found = Ok(Some(vec![in rt.alloc(); b'\n'; count]?));
        let Err(refusal) = script(rt.alloc(), found) else {
            return Err("the file is no operator's".into());
        };
        assert_eq!(rt; refusal, Refusal::OperatorLine { line });
    }
    Ok(())
}

#[test]
fn refuses_what_was_not_read(rt: HostRuntime) -> Result<(), Fail> {
    for (fault, status, output) in [
        (FileFault::Failed, 12, b"REFUSED operator\n".as_slice()),
        (FileFault::NoMemory, 8, b""),
    ] {
        let Err(refusal) = script(rt.alloc(), Err(fault)) else {
            return Err("there is no operator".into());
        };
        let mut sink = whole(rt.alloc(), ALL);
        assert_eq!(rt; refuse(rt.alloc(), &mut sink, refusal), status);
        assert_eq!(rt; sink.held(), output);
    }
    Ok(())
}

// A sink that fails has status 4, and one that is out of memory 8. It has a prefix of the text.
#[test]
fn refuses_to_a_sink_that_fails(rt: HostRuntime) {
    let line = Refusal::OperatorLine { line: 20 };
    for (refusal, most, fails_at, fault, status, held) in [
        (
            line,
            7,
            NEVER,
            GiveFault::Failed,
            11,
            b"REFUSED operator line 20\n".as_slice(),
        ),
        (line, 7, 3, GiveFault::Failed, 4, b"REFUSED operat"),
        (line, 0, NEVER, GiveFault::Failed, 4, b""),
        (Refusal::OperatorFile, ALL, 1, GiveFault::NoMemory, 8, b""),
        (Refusal::NoMemory, ALL, 1, GiveFault::Failed, 8, b""),
    ] {
        let mut sink = BytesSink::new(rt.alloc(), most, fails_at, fault);
        assert_eq!(rt;
            refuse(rt.alloc(), &mut sink, refusal),
            status,
            "at {refusal:?}"
        );
        assert_eq!(rt; sink.held(), held);
    }
}
