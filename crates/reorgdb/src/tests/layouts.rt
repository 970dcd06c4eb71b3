use super::outside::BytesSource;
use super::{ALL, NEVER, played_over, print_for, volume, volume_failing};
use std::test::Fail;

const FULL: [&str; 2] = ["play", "--layout=full"];

const THREE_ROWS: &[u8] = b"1 INSERT 3 10 1 c\n1 INSERT 1 20 1 a\n1 INSERT 2 10 2 b\n1 COMMIT\nL";

const LAYOUT: &[u8] =
    b"LAYOUT copy=1\n  NOW pages=1 rows=3 over=0\n  SPOT 1.0 3 10 HOME\n  SPOT 1.1 1 20 HOME\n  \
        SPOT 1.2 2 10 HOME\n  KEY 1 1.1\n  KEY 2 1.2\n  KEY 3 1.0\n  CLUS 10 1.0\n  \
        CLUS 10 1.2\n  CLUS 20 1.1\n  CAT 1 1.0\n  CAT 1 1.1\n  CAT 2 1.2\n";

// The layout stands in the print of the deck, and alone in the output of `layout` over the volume
// that the deck leaves. That call does not read the source.
#[test]
fn shows_a_full_layout(rt: HostRuntime) -> Result<(), Fail> {
    let alloc = rt.alloc();
    let mut source = BytesSource::new(THREE_ROWS, ALL, NEVER);
    let (came, printed) = print_for(alloc, &FULL, volume(alloc, 1)?, &mut source)?;
    assert_eq!(rt; came, (0, 6));
    let mut print =
        b"0 - OPENED copy=1 rows=0 pages=0\n1 1 OK\n2 1 OK\n3 1 OK\n4 1 OK\n5 - ".to_vec(alloc)?;
    print.extend_from_slice(LAYOUT)?;
    print.extend_from_slice(b"END entries=6 rows=3\n")?;
    assert_eq!(rt; printed.as_slice(), print.as_slice());
    let used = played_over(alloc, volume(alloc, 1)?, THREE_ROWS)?;
    let mut unread = BytesSource::new(THREE_ROWS, ALL, 1);
    let (came, printed) = print_for(alloc, &["layout"], used, &mut unread)?;
    assert_eq!(rt; came, (0, 2));
    assert_eq!(rt; printed.as_slice(), LAYOUT);
    assert_eq!(rt; unread.calls(), 0);
    Ok(())
}

// A call of the volume fails in the opening, or `layout` has an option.
#[test]
fn refuses_a_layout(rt: HostRuntime) -> Result<(), Fail> {
    let alloc = rt.alloc();
    let empty = b"LAYOUT copy=1\n  NOW pages=0 rows=0 over=0\n".as_slice();
    for (words, fails_at, status, output) in [
        (["layout"].as_slice(), NEVER, 0, empty),
        (["layout"].as_slice(), 1, 6, b"REFUSED volume device\n"),
        (["layout"].as_slice(), 2, 6, b"REFUSED volume device\n"),
        (["layout", "full"].as_slice(), NEVER, 1, b"REFUSED words\n"),
    ] {
        let failing = volume_failing(alloc, 1, fails_at)?;
        let mut source = BytesSource::new(b"", ALL, NEVER);
        let (came, printed) = print_for(alloc, words, failing, &mut source)?;
        let entries = if status == 0 { 2 } else { 0 };
        assert_eq!(rt; came, (status, entries), "at {words:?}");
        assert_eq!(rt; printed.as_slice(), output);
    }
    Ok(())
}
