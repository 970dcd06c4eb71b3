use super::Faults;
use std::io::ErrorKind;

#[test]
fn count_stands_still_at_its_end(rt: HostRuntime) {
    let mut faults = Faults {
        count: u64::MAX - 1,
        last: None,
    };
    faults.raise(ErrorKind::Other.into());
    assert_eq!(rt; faults.count(), u64::MAX);
    faults.raise(ErrorKind::Other.into());
    assert_eq!(rt; faults.count(), u64::MAX);
}
