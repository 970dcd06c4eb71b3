use super::InputSource;
use crate::faulty::Faulty;
use rg_outside::source::{Failed, Source};
use std::io::ErrorKind;
use std::test::Fail;

const INTERRUPTED: ErrorKind = ErrorKind::Interrupted;

const OTHER: ErrorKind = ErrorKind::Other;

// As a caller takes it that knows the trait only.
fn take<S: Source>(source: &mut S, into: &mut [u8]) -> Result<usize, Failed> {
    source.take(into)
}

// An interrupted call is made again, and any other error ends the call, which may be made again.
#[test]
fn takes_what_the_reader_gives(rt: HostRuntime) -> Result<(), Fail> {
    for (errors, most, taken, calls, faults) in [
        ([].as_slice(), 9, [Ok(5), Ok(0)], 2, 0),
        (&[], 3, [Ok(3), Ok(2)], 2, 0),
        (&[INTERRUPTED], 9, [Ok(5), Ok(0)], 3, 1),
        (&[INTERRUPTED, INTERRUPTED], 3, [Ok(3), Ok(2)], 4, 2),
        (&[OTHER], 9, [Err(Failed), Ok(5)], 2, 1),
        (&[INTERRUPTED, OTHER], 9, [Err(Failed), Ok(5)], 3, 2),
        (&[INTERRUPTED; 999], 9, [Ok(5), Ok(0)], 1001, 999),
        (&[INTERRUPTED; 1000], 9, [Err(Failed), Ok(5)], 1001, 1000),
    ] {
        let bytes = b"abcde".to_vec(rt.alloc())?;
        let mut source = InputSource::new(Faulty::new(errors, most, bytes));
        let mut into = [0; 8];
        let came = [take(&mut source, &mut into), take(&mut source, &mut into)];
        assert_eq!(rt; came, taken);
        assert_eq!(rt; source.reader.calls, calls);
        assert_eq!(rt; source.faults.count(), faults);
    }
    Ok(())
}

// It is the one that ended the call, and not an interruption before it.
#[test]
fn keeps_the_last_error(rt: HostRuntime) -> Result<(), Fail> {
    let reader = Faulty::empty(rt.alloc(), &[INTERRUPTED, OTHER], 9);
    let mut source = InputSource::new(reader);
    assert!(rt; source.last_error().is_none());
    assert_eq!(rt; source.take(&mut [0; 8]), Err(Failed));
    let error = source.last_error().ok_or("a call has failed")?;
    assert_eq!(rt; error.kind(), OTHER);
    Ok(())
}
