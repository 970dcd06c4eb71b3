use super::OutputSink;
use crate::faulty::Faulty;
use rg_outside::sink::{GiveFault, Sink};
use std::io::ErrorKind;
use std::test::Fail;

const INTERRUPTED: ErrorKind = ErrorKind::Interrupted;

const OTHER: ErrorKind = ErrorKind::Other;

// As a caller gives that knows the trait only.
fn give<K: Sink>(sink: &mut K, from: &[u8]) -> Result<usize, GiveFault> {
    sink.give(from)
}

#[test]
fn gives_what_the_writer_takes(rt: HostRuntime) -> Result<(), Fail> {
    let failed = Err(GiveFault::Failed);
    for (errors, most, given, written, calls, faults) in [
        ([].as_slice(), 9, [Ok(3), Ok(3)], b"abcabc".as_slice(), 2, 0),
        (&[], 2, [Ok(2), Ok(2)], b"abab", 2, 0),
        // No byte taken of some is passed on, and counted as a fault.
        (&[], 0, [Ok(0), Ok(0)], b"", 2, 2),
        (&[INTERRUPTED], 9, [Ok(3), Ok(3)], b"abcabc", 3, 1),
        (&[OTHER], 9, [failed, Ok(3)], b"abc", 2, 1),
        (&[INTERRUPTED, OTHER], 1, [failed, Ok(1)], b"a", 3, 2),
        (&[ErrorKind::OutOfMemory], 9, [failed, Ok(3)], b"abc", 2, 1),
        (&[INTERRUPTED; 1000], 9, [failed, Ok(3)], b"abc", 1001, 1000),
    ] {
        let mut sink = OutputSink::new(Faulty::empty(rt.alloc(), errors, most));
        let came = [give(&mut sink, b"abc"), give(&mut sink, b"abc")];
        assert_eq!(rt; came, given);
        assert_eq!(rt; sink.writer.bytes.get_ref().as_slice(), written);
        assert_eq!(rt; sink.writer.calls, calls);
        assert_eq!(rt; sink.faults.count(), faults);
    }
    Ok(())
}

// Nothing of nothing is no fault.
#[test]
fn gives_nothing(rt: HostRuntime) {
    let mut sink = OutputSink::new(Faulty::empty(rt.alloc(), &[], 9));
    assert_eq!(rt; sink.give(b""), Ok(0));
    assert_eq!(rt; sink.faults.count(), 0);
}
