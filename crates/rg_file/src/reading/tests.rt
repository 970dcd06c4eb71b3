use super::{FileFault, read_file, read_front};
use crate::faults::Faults;
use crate::faulty::{Faulty, name_of};
use std::fs;
use std::io::ErrorKind;
use std::test::Fail;

const INTERRUPTED: ErrorKind = ErrorKind::Interrupted;

const OTHER: ErrorKind = ErrorKind::Other;

// A file of five bytes, of which at most 9, 5, 3 or none are asked for.
#[test]
fn reads_what_the_reader_gives(rt: HostRuntime) -> Result<(), Fail> {
    for (errors, piece, most, read, calls, faults) in [
        ([].as_slice(), 9, 9, Ok(b"abcde".as_slice()), 2, 0),
        (&[], 2, 9, Ok(b"abcde"), 4, 0),
        (&[], 9, 5, Ok(b"abcde"), 1, 0),
        (&[], 2, 3, Ok(b"abc"), 2, 0),
        (&[], 9, 0, Ok(b""), 0, 0),
        (&[INTERRUPTED], 9, 9, Ok(b"abcde"), 3, 1),
        (&[OTHER], 9, 9, Err(FileFault::Failed), 1, 1),
        (
            &[ErrorKind::OutOfMemory],
            9,
            9,
            Err(FileFault::Failed),
            1,
            1,
        ),
        (&[INTERRUPTED, OTHER], 9, 9, Err(FileFault::Failed), 2, 2),
        (&[], 9, usize::MAX, Err(FileFault::NoMemory), 0, 0),
    ] {
        let mut reader = Faulty::new(errors, piece, b"abcde".to_vec(rt.alloc())?);
        let mut counted = Faults::none();
        let came = read_front(rt.alloc(), &mut reader, most, &mut counted);
        match (&came, read) {
            (Ok(bytes), Ok(wanted)) => assert_eq!(rt; bytes.as_slice(), wanted),
            (Err(fault), Err(wanted)) => assert_eq!(rt; *fault, wanted),
            _ => assert!(rt; false, "at {errors:?}, {piece} and {most}"),
        }
        assert_eq!(rt; (reader.calls, counted.count()), (calls, faults));
    }
    Ok(())
}

#[test]
fn reads_real_files(rt: HostRuntime) -> Result<(), Fail> {
    let name = name_of(&rt, "read")?;
    for (bytes, most, read) in [
        (b"".as_slice(), 9, b"".as_slice()),
        (b"", 0, b""),
        (b"abcde", 9, b"abcde"),
        (b"abcde", 6, b"abcde"),
        (b"abcde", 5, b"abcde"),
        (b"abcde", 4, b"abcd"),
    ] {
        fs::write(&rt, &name, bytes)?;
        let mut faults = Faults::none();
        let found = read_file(&rt, rt.alloc(), &name, most, &mut faults);
        assert_eq!(rt;
            found,
            Ok(Some(read.to_vec(rt.alloc())?)),
            "at {bytes:?} and {most}"
        );
    }
    fs::remove_file(&rt, &name)?;
    let mut faults = Faults::none();
    assert_eq!(rt; read_file(&rt, rt.alloc(), &name, 9, &mut faults), Ok(None));
    assert_eq!(rt; faults.count(), 0);
    Ok(())
}

// A folder opens and is not read, and what lies below a file cannot be opened. A folder that is
// missing has no file.
#[test]
fn fails_where_there_is_no_file_to_read(rt: HostRuntime) -> Result<(), Fail> {
    let name = name_of(&rt, "no-folder")?;
    fs::write(&rt, &name, b"abc")?;
    let below = format!(in rt.alloc(); "{name}/below")?;
    for (name, kind) in [
        ("/", ErrorKind::IsADirectory),
        (below.as_str(), ErrorKind::NotADirectory),
    ] {
        let mut faults = Faults::none();
        let found = read_file(&rt, rt.alloc(), name, 9, &mut faults);
        assert_eq!(rt; found, Err(FileFault::Failed), "at {name}");
        let error = faults.last().ok_or("the error is kept")?;
        assert_eq!(rt; (faults.count(), error.kind()), (1, kind), "at {name}");
    }
    fs::remove_file(&rt, &name)?;
    let mut faults = Faults::none();
    assert_eq!(rt;
        read_file(&rt, rt.alloc(), &below, 9, &mut faults),
        Ok(None)
    );
    assert_eq!(rt; faults.count(), 0);
    Ok(())
}
