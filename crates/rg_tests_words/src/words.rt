use rg_words::words::{Admits, Words, WordsFault, read_admitted, read_words};
use std::alloc::{AllocError, Global};
use std::test::Fail;

fn words_of(alloc: Global, texts: &[&str]) -> Result<Vec<String>, AllocError> {
    let mut words = Vec::new(alloc);
    for text in texts {
        words.push(String::from_str(alloc, text)?)?;
    }
    Ok(words)
}

#[test]
fn reads_commands(rt: HostRuntime) -> Result<(), Fail> {
    let least = Words::Gen { seed: 0, rows: 1 };
    let greatest = Words::Gen {
        seed: u64::MAX,
        rows: 20_000,
    };
    for (texts, want) in [
        (["play"].as_slice(), Words::Play { full: false }),
        (&["play", "--layout", "brief"], Words::Play { full: false }),
        (&["play", "--layout=full"], Words::Play { full: true }),
        (&["threads"], Words::Threads { full: false }),
        (
            &["threads", "--layout", "full"],
            Words::Threads { full: true },
        ),
        (&["gen", "--seed", "0", "--rows", "1"], least),
        (&["gen", "--rows=1", "--seed", "0"], least),
        (
            &["gen", "--rows", "20000", "--seed=18446744073709551615"],
            greatest,
        ),
        (
            &["gen", "--seed=18446744073709551615", "--rows=20000"],
            greatest,
        ),
        (&["judge"], Words::Judge),
        (&["layout"], Words::Layout),
    ] {
        let words = words_of(rt.alloc(), texts)?;
        assert_eq!(rt; read_words(&words), Ok(want), "at {texts:?}");
    }
    Ok(())
}

#[test]
fn refuses_other_words(rt: HostRuntime) -> Result<(), Fail> {
    for texts in [
        [].as_slice(),
        &[""],
        &["Play"],
        &["--help"],
        &["play", ""],
        &["play", "--"],
        &["play", "--layout"],
        &["play", "--layout="],
        &["play", "--layout", ""],
        &["play", "--layout=", "full"],
        &["play", "--layout=full="],
        &["play", "--layout", "wide"],
        &["play", "--layout", "full", "--layout", "full"],
        &["gen", "--seed", "1"],
        &["gen", "--rows", "1"],
        &["gen", "--seed", "1", "--seed", "1"],
        &["gen", "--seed", "1", "--rows", "1", "--rows", "1"],
        &["gen", "--seed", "1", "--rows", "0"],
        &["gen", "--seed", "1", "--rows", "20001"],
        &["gen", "--seed", "18446744073709551616", "--rows", "1"],
        &["gen", "--seed", "01", "--rows", "1"],
        &["gen", "--seed", "+1", "--rows", "1"],
        &["gen", "--seed", "-1", "--rows", "1"],
        &["judge", "judge"],
        &["judge", "--layout=full"],
        &["layout", "--layout=full"],
    ] {
        let words = words_of(rt.alloc(), texts)?;
        assert_eq!(rt;
            read_words(&words),
            Err(WordsFault::Unknown),
            "at {texts:?}"
        );
    }
    Ok(())
}

// How many of the callers, from the one that plays least, don't play a command.
#[test]
fn admits_commands(rt: HostRuntime) -> Result<(), Fail> {
    let callers = [
        Admits::Play,
        Admits::Layout,
        Admits::Judge,
        Admits::Gen,
        Admits::Every,
    ];
    for (texts, want) in [
        (["play", "--layout=full"].as_slice(), 0),
        (&["layout"], 1),
        (&["judge"], 2),
        (&["gen", "--seed=1", "--rows=1"], 3),
        (&["threads"], 4),
        (&["other"], 5),
    ] {
        let words = words_of(rt.alloc(), texts)?;
        for (place, admits) in callers.iter().enumerate() {
            let admitted = read_admitted(&words, *admits).is_ok();
            assert_eq!(rt; admitted, want <= place, "{texts:?} at {admits:?}");
        }
    }
    Ok(())
}
