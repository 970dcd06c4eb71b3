use super::{FileMaker, FileVolume, VolumeFile, offset};
use crate::faults::Faults;
use crate::faulty::Faulty;
use crate::sizes::Sizes;
use rg_base::set::Set;
use rg_outside::source::Failed;
use rg_outside::volume::Volume;
use std::alloc::Global;
use std::io::{self, ErrorKind};
use std::test::Fail;

const INTERRUPTED: ErrorKind = ErrorKind::Interrupted;

const OTHER: ErrorKind = ErrorKind::Other;

// Makes files in memory, whose calls end with these errors. Both of its own calls fail where there
// is an error for them.
#[derive(Drop)]
struct Maker<'a> {
    alloc: Global,
    errors: &'a [ErrorKind],
    make: Option<ErrorKind>,
    sync: Option<ErrorKind>,
}

fn result_of(error: Option<ErrorKind>) -> io::Result<()> {
    match error {
        Some(kind) => Err(kind.into()),
        None => Ok(()),
    }
}

impl<'a> FileMaker for Maker<'a> {
    type File = Faulty<'a>;

    fn make(&self) -> io::Result<Faulty<'a>> {
        result_of(self.make)?;
        Ok(Faulty::empty(self.alloc, self.errors, 9_999))
    }

    fn sync_name(&self) -> io::Result<()> {
        result_of(self.sync)
    }
}

// One whose files are never needed.
fn idle<'a>(alloc: Global) -> Maker<'a> {
    Maker {
        alloc,
        errors: &[],
        make: Some(OTHER),
        sync: Some(OTHER),
    }
}

// One that never fails.
fn working<'a>(alloc: Global) -> Maker<'a> {
    Maker {
        alloc,
        errors: &[],
        make: None,
        sync: None,
    }
}

fn whole<'a>(alloc: Global, file: Faulty<'a>) -> FileVolume<Maker<'a>, Faulty<'a>> {
    let is_whole = true;
    FileVolume::new(
        idle(alloc),
        Sizes::standard(),
        VolumeFile::There { file, is_whole },
    )
}

// The file of a volume that has one.
fn file_of<'a>(volume: FileVolume<Maker<'a>, Faulty<'a>>) -> Result<(Faulty<'a>, bool), Fail> {
    match volume.file {
        VolumeFile::There { file, is_whole } => Ok((file, is_whole)),
        _ => Err("there is a file".into()),
    }
}

#[test]
fn sets_stand_one_after_another(rt: HostRuntime) {
    let sizes = Sizes::standard();
    assert_eq!(rt; offset(sizes, Set::Log, 1), 0);
    assert_eq!(rt; offset(sizes, Set::Log, 8192), 33_550_336);
    assert_eq!(rt; offset(sizes, Set::First, 1), 33_554_432);
    assert_eq!(rt; offset(sizes, Set::First, 4096), 50_327_552);
    assert_eq!(rt; offset(sizes, Set::Second, 1), 50_331_648);
    assert_eq!(rt; offset(sizes, Set::Second, 4096), 67_104_768);
    assert_eq!(rt; sizes.length(), 67_108_864);
}

// The rest follows a short write. A write of nothing fails, and so does an error other than an
// interruption.
#[test]
fn writes_pages_whole(rt: HostRuntime) -> Result<(), Fail> {
    for (errors, most, result, length, calls, faults) in [
        ([].as_slice(), 9_999, Ok(()), 8192, 2, 0),
        (&[], 2_000, Ok(()), 8192, 4, 0),
        (&[], 0, Err(Failed), 0, 2, 1),
        (&[INTERRUPTED], 4_095, Ok(()), 8192, 4, 1),
        (&[OTHER], 9_999, Err(Failed), 0, 1, 1),
        (&[INTERRUPTED, OTHER], 9_999, Err(Failed), 0, 2, 2),
    ] {
        let file = Faulty::empty(rt.alloc(), errors, most);
        let mut volume = whole(rt.alloc(), file);
        assert_eq!(rt; volume.write(Set::Log, 2, &[7; 4096]), result);
        assert_eq!(rt; volume.faults.count(), faults);
        let (file, _) = file_of(volume)?;
        assert_eq!(rt; file.bytes.get_ref().len(), length);
        assert_eq!(rt; file.calls, calls);
    }
    Ok(())
}

// Page 2 of a file of 4,096 + 5 bytes has 5 bytes, and then zeros.
#[test]
fn reads_pages_whole(rt: HostRuntime) -> Result<(), Fail> {
    for (errors, most, result, calls, faults) in [
        ([].as_slice(), 9_999, Ok(()), 3, 0),
        (&[], 2, Ok(()), 5, 0),
        (&[INTERRUPTED], 9_999, Ok(()), 4, 1),
        (&[OTHER], 9_999, Err(Failed), 1, 1),
        (&[INTERRUPTED, OTHER], 9_999, Err(Failed), 2, 2),
    ] {
        let bytes = vec![in rt.alloc(); 7; 4096 + 5]?;
        let mut volume = whole(rt.alloc(), Faulty::new(errors, most, bytes));
        let mut page = [1; 4096];
        assert_eq!(rt; volume.read(Set::Log, 2, &mut page), result);
        let ends = match result {
            Ok(()) => [7, 7, 0, 0],
            Err(_) => [1; 4],
        };
        assert_eq!(rt; [page[0], page[4], page[5], page[4095]], ends);
        assert_eq!(rt; volume.faults.count(), faults);
        let (file, _) = file_of(volume)?;
        assert_eq!(rt; file.calls, calls);
    }
    Ok(())
}

#[test]
fn sync_fails_as_the_file_does(rt: HostRuntime) {
    for (errors, result, faults) in [
        ([].as_slice(), Ok(()), 0),
        (&[OTHER], Err(Failed), 1),
        (&[INTERRUPTED], Err(Failed), 1000),
    ] {
        let mut volume = whole(rt.alloc(), Faulty::empty(rt.alloc(), errors, 9));
        assert_eq!(rt; volume.sync(), result);
        assert_eq!(rt; volume.faults.count(), faults);
    }
}

// A new volume reads as zeros, and its first write makes its file whole. Where that fails the next
// write tries again: to make a file, or to make the one that there is whole.
#[test]
fn first_write_makes_the_file(rt: HostRuntime) -> Result<(), Fail> {
    for (make, errors, sync, result, has_file) in [
        (None, [].as_slice(), None, Ok(()), true),
        (Some(OTHER), &[], None, Err(Failed), false),
        (None, &[OTHER], None, Err(Failed), true),
        (None, &[], Some(OTHER), Err(Failed), true),
    ] {
        let maker = Maker {
            alloc: rt.alloc(),
            errors,
            make,
            sync,
        };
        let mut volume = FileVolume::new(maker, Sizes::standard(), VolumeFile::Missing);
        let mut page = [1; 4096];
        assert_eq!(rt; volume.read(Set::Second, 4096, &mut page), Ok(()));
        assert!(rt; page == [0; 4096]);
        assert_eq!(rt; volume.sync(), Ok(()));
        assert!(rt; matches!(volume.file, VolumeFile::Missing));
        assert_eq!(rt; volume.write(Set::Log, 1, &[7; 4096]), result);
        let faults = u64::from(result.is_err());
        assert_eq!(rt; volume.faults.count(), faults);
        assert_eq!(rt; matches!(volume.file, VolumeFile::There { .. }), has_file);
        let file = match volume.file {
            VolumeFile::There { file, is_whole } => {
                assert_eq!(rt; is_whole, result.is_ok());
                assert_eq!(rt; file.bytes.get_ref().is_empty(), result.is_err());
                let file = Faulty::empty(rt.alloc(), &[], 9_999);
                VolumeFile::There { file, is_whole }
            }
            other => other,
        };
        let mut volume = FileVolume::new(working(rt.alloc()), Sizes::standard(), file);
        assert_eq!(rt; volume.write(Set::Log, 2, &[8; 4096]), Ok(()));
        assert_eq!(rt; volume.faults.count(), 0);
        let (file, is_whole) = file_of(volume)?;
        assert_eq!(rt; (file.bytes.get_ref().len(), is_whole), (8192, true));
    }
    Ok(())
}

// A volume may go to another thread, and a caller that knows the trait only may ask its sizes.
fn capacities<V: Volume + Send>(volume: &V) -> [u32; 3] {
    [Set::Log, Set::First, Set::Second].map(|set| volume.capacity(set))
}

#[test]
fn fails_without_a_file(rt: HostRuntime) -> Result<(), Fail> {
    let error = ErrorKind::PermissionDenied.into();
    let lost = VolumeFile::Lost { error };
    let mut volume = FileVolume::new(idle(rt.alloc()), Sizes::standard(), lost);
    assert_eq!(rt; capacities(&volume), [8192, 4096, 4096]);
    let mut into = [9; 4096];
    assert_eq!(rt; volume.read(Set::Log, 1, &mut into), Err(Failed));
    assert!(rt; into == [9; 4096]);
    assert_eq!(rt; volume.write(Set::First, 1, &into), Err(Failed));
    assert_eq!(rt; volume.sync(), Err(Failed));
    assert_eq!(rt; volume.faults.count(), 3);
    let error = volume.last_error().ok_or("a call has failed")?;
    assert_eq!(rt; error.kind(), ErrorKind::PermissionDenied);
    Ok(())
}
