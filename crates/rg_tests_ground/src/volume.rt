ghost use Rattle.std.specs.Prelude.{◌≡◌};
ghost use Rattle.rg_outside.specs.Capacities.{IsPage};

use rg_base::set::Set;
use rg_mem::volume::{Failing, MemVolume};
use rg_outside::volume::Volume;
use std::test::Fail;

type Page = [u8; 4096];

fn page_of(byte: u8) -> Page {
    [byte; 4096]
}

// The first byte of a page as it reads, where its last is the same.
fn byte_at<V: Volume>(volume: &mut V, set: Set, page: u32) -> Option<u8>
    requires { IsPage (V.seen volume.old).capacities set page }
    ensures { (V.seen volume.new).capacities ≡ (V.seen volume.old).capacities }
{
    let mut into = page_of(255);
    match volume.read(set, page, &mut into) {
        Ok(()) if into[0] == into[4095] => Some(into[0]),
        _ => None,
    }
}

// Three writes of page 1 and two of page 2, and a sync between that fails as the fourth call.
fn write_five<V: Volume>(volume: &mut V) -> bool
    requires { IsPage (V.seen volume.old).capacities Set.First 2 }
    ensures { (V.seen volume.new).capacities ≡ (V.seen volume.old).capacities }
{
    let first = volume.write(Set::First, 1, &page_of(1)).is_ok();
    let second = volume.write(Set::First, 2, &page_of(11)).is_ok();
    let third = volume.write(Set::First, 1, &page_of(2)).is_ok();
    let synced = volume.sync().is_ok();
    let fifth = volume.write(Set::First, 2, &page_of(12)).is_ok();
    let sixth = volume.write(Set::First, 1, &page_of(3)).is_ok();
    first && second && third && !synced && fifth && sixth
}

#[test]
fn crash_leaves_each_content(rt: HostRuntime) -> Result<(), Fail> {
    let failing = [Failing {
        call: 4,
        written: false,
    }];
    let mut volume = MemVolume::new(rt.alloc(), 1, 2, 0, 20, 10, &failing, None)?;
    assert!(rt; write_five(&mut volume));
    for (pick, one, two) in [
        (0, 1, 12),
        (1, 2, 0),
        (2, 3, 11),
        (3, 0, 12),
        (4, 1, 0),
        (5, 2, 11),
        (6, 3, 12),
        (7, 0, 0),
    ] {
        let mut left = volume.crash(pick)?;
        assert_eq!(rt;
            byte_at(&mut left, Set::Log, 1),
            Some(0),
            "log, pick {pick}"
        );
        assert_eq!(rt;
            byte_at(&mut left, Set::First, 1),
            Some(one),
            "page 1, pick {pick}"
        );
        assert_eq!(rt;
            byte_at(&mut left, Set::First, 2),
            Some(two),
            "page 2, pick {pick}"
        );
    }
    assert!(rt; volume.sync().is_ok());
    let mut left = volume.crash(5)?;
    assert_eq!(rt; byte_at(&mut left, Set::First, 1), Some(3));
    assert_eq!(rt; byte_at(&mut left, Set::First, 2), Some(12));
    Ok(())
}

#[test]
fn failing_writes_leave_either_content(rt: HostRuntime) -> Result<(), Fail> {
    for (written, reads) in [(false, 0), (true, 7)] {
        let failing = [Failing { call: 1, written }];
        let mut volume = MemVolume::new(rt.alloc(), 0, 0, 1, 9, 9, &failing, Some(4))?;
        assert!(rt; volume.write(Set::Second, 1, &page_of(7)).is_err());
        assert_eq!(rt; byte_at(&mut volume, Set::Second, 1), Some(reads));
        let mut old = volume.crash(1)?;
        assert_eq!(rt; byte_at(&mut old, Set::Second, 1), Some(0));
        let mut new = volume.crash(0)?;
        assert_eq!(rt; byte_at(&mut new, Set::Second, 1), Some(7));
        assert!(rt; volume.sync().is_ok());
        let mut synced = volume.crash(0)?;
        assert_eq!(rt; byte_at(&mut synced, Set::Second, 1), Some(reads));
        assert!(rt; volume.write(Set::Second, 1, &page_of(8)).is_ok());
        // The fifth call and those after it fail, and leave the old content.
        assert!(rt; volume.write(Set::Second, 1, &page_of(9)).is_err());
        assert!(rt; volume.sync().is_err());
        assert_eq!(rt; byte_at(&mut volume, Set::Second, 1), None);
        let mut last = volume.crash(1)?;
        assert_eq!(rt; byte_at(&mut last, Set::Second, 1), Some(9));
    }
    Ok(())
}

#[test]
fn crash_with_leaves_each_image(rt: HostRuntime) -> Result<(), Fail> {
    let mut volume = MemVolume::new(rt.alloc(), 1, 2, 0, 9, 9, &[], None)?;
    assert!(rt; volume.write(Set::First, 1, &page_of(1)).is_ok());
    assert!(rt; volume.write(Set::First, 2, &page_of(2)).is_ok());
    // (the picks of the page of the log and of both pages of the copy, what these hold)
    let cases = [
        ([0, 0, 0], 0, 0),
        ([0, 0, 1], 0, 2),
        ([7, 1, 0], 1, 0),
        ([0, 1, 1], 1, 2),
        ([0, 2, 3], 0, 2),
    ];
    for (picks, one, two) in cases {
        let mut left = volume.crash_with(&picks)?;
        assert_eq!(rt; byte_at(&mut left, Set::Log, 1), Some(0), "{picks:?}");
        assert_eq!(rt; byte_at(&mut left, Set::First, 1), Some(one), "{picks:?}");
        assert_eq!(rt; byte_at(&mut left, Set::First, 2), Some(two), "{picks:?}");
    }
    // A page without a pick holds its oldest content.
    let mut left = volume.crash_with(&[0, 1])?;
    assert_eq!(rt; byte_at(&mut left, Set::First, 1), Some(1));
    assert_eq!(rt; byte_at(&mut left, Set::First, 2), Some(0));
    Ok(())
}
