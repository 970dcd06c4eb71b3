use super::{VolumeRefusal, is_short, lock, open_volume};
use crate::faulty::name_of;
use crate::sizes::Sizes;
use rg_base::set::Set;
use rg_outside::source::Failed;
use rg_outside::volume::Volume;
use std::fs::{self, File};
use std::io::ErrorKind;
use std::os::unix::fs::symlink;
use std::test::Fail;

// What a new folder of this process is named, and the file of a volume of the standard sizes in it.
fn folder_of(rt: &HostRuntime, last: &str) -> Result<(String, String), Fail> {
    let folder = name_of(rt, last)?;
    let file = format!(in rt.alloc(); "{folder}/reorgdb.vol")?;
    fs::create_dir(rt, &folder)?;
    Ok((folder, file))
}

// A volume that a caller may send to another thread.
fn sent<V: Volume + Send>(volume: V) -> V {
    volume
}

// The first write makes the file, with its whole length. What was written is there when the file is
// opened again, and the rest reads as zeros. Volumes of other sizes lie beside each other, and
// neither is opened for the other. The greatest is a sparse file.
#[test]
fn keeps_pages_in_real_files(rt: HostRuntime) -> Result<(), Fail> {
    let (folder, _) = folder_of(&rt, "kept")?;
    for (log, copy, file) in [
        (8192, 4096, "reorgdb.vol"),
        (2, 1, "reorgdb-2-1.vol"),
        (8192, 4095, "reorgdb-8192-4095.vol"),
        (65_536, 65_536, "reorgdb-65536-65536.vol"),
    ] {
        let sizes = Sizes::new(log, copy).ok_or("a volume may have them")?;
        let path = format!(in rt.alloc(); "{folder}/{file}")?;
        let ends = [
            (Set::Log, sizes.log),
            (Set::First, 1),
            (Set::Second, sizes.copy),
        ];
        let Ok(volume) = open_volume(rt, rt.alloc(), &folder, sizes) else {
            return Err("nobody else works on it".into());
        };
        let mut volume = sent(volume);
        let mut into = [9; 4096];
        assert_eq!(rt; volume.read(Set::Log, 1, &mut into), Ok(()));
        assert!(rt; into == [0; 4096]);
        assert_eq!(rt; volume.sync(), Ok(()));
        assert!(rt; !fs::exists(&rt, &path)?);
        for (byte, (set, page)) in (1..).zip(ends) {
            if 1 <= page && page <= volume.capacity(set) {
                assert_eq!(rt; volume.write(set, page, &[byte; 4096]), Ok(()));
            }
            assert_eq!(rt; fs::metadata(&rt, &path)?.len(), sizes.length());
        }
        assert_eq!(rt; volume.sync(), Ok(()));
        drop(volume);
        let Ok(mut volume) = open_volume(rt, rt.alloc(), &folder, sizes) else {
            return Err("nobody else works on it".into());
        };
        for (byte, (set, page)) in (1..).zip(ends) {
            if 1 <= page && page <= volume.capacity(set) {
                assert_eq!(rt; volume.read(set, page, &mut into), Ok(()));
                assert!(rt; into == [byte; 4096]);
            }
        }
        assert_eq!(rt; volume.read(Set::Log, 1, &mut into), Ok(()));
        assert!(rt; into == [0; 4096]);
    }
    fs::remove_dir_all(&rt, &folder)?;
    Ok(())
}

// A lock of the folder or of the file keeps a second program out, until it is given back.
#[test]
fn lets_one_program_in(rt: HostRuntime) -> Result<(), Fail> {
    let (folder, name) = folder_of(&rt, "locked")?;
    fs::write(&rt, &name, b"")?;
    for taken in [folder.as_str(), name.as_str()] {
        let Ok(other) = lock(File::open(&rt, taken)) else {
            return Err("nobody else has it".into());
        };
        let opened = open_volume(rt, rt.alloc(), &folder, Sizes::standard());
        assert!(rt; matches!(opened, Err(VolumeRefusal::Busy)));
        drop(other);
        let Ok(first) = open_volume(rt, rt.alloc(), &folder, Sizes::standard()) else {
            return Err("the lock was given back".into());
        };
        let second = open_volume(rt, rt.alloc(), &folder, Sizes::standard());
        assert!(rt; matches!(second, Err(VolumeRefusal::Busy)));
        drop(first);
    }
    fs::remove_dir_all(&rt, &folder)?;
    Ok(())
}

#[test]
fn knows_a_volume_that_was_cut(rt: HostRuntime) -> Result<(), Fail> {
    for (length, cut) in [
        (0, false),
        (1, true),
        (4096, true),
        (67_108_863, true),
        (67_108_864, false),
        (67_108_865, false),
    ] {
        assert_eq!(rt; is_short(length, Sizes::standard()), cut);
    }
    let (folder, name) = folder_of(&rt, "cut")?;
    fs::write(&rt, &name, b"abc")?;
    let opened = open_volume(rt, rt.alloc(), &folder, Sizes::standard());
    assert!(rt; matches!(opened, Err(VolumeRefusal::Short { length: 3 })));
    assert_eq!(rt; fs::metadata(&rt, &name)?.len(), 3);
    fs::remove_dir_all(&rt, &folder)?;
    Ok(())
}

// A folder in the place of the file, a link that leads nowhere, and a folder that is missing: each
// call fails, and nothing is made.
#[test]
fn makes_nothing_where_a_volume_is_out_of_reach(rt: HostRuntime) -> Result<(), Fail> {
    let (within, inner) = folder_of(&rt, "folder-in-its-place")?;
    let (beside, link) = folder_of(&rt, "link-to-nothing")?;
    let target = format!(in rt.alloc(); "{beside}/target")?;
    let missing = name_of(&rt, "missing-folder")?;
    fs::create_dir(&rt, &inner)?;
    symlink(&rt, &target, &link)?;
    for (folder, reads, kind) in [
        (&within, Err(Failed), ErrorKind::IsADirectory),
        (&beside, Err(Failed), ErrorKind::NotFound),
        (&missing, Ok(()), ErrorKind::NotFound),
    ] {
        let Ok(mut volume) = open_volume(rt, rt.alloc(), folder, Sizes::standard()) else {
            return Err("nobody else works on it".into());
        };
        assert_eq!(rt; volume.read(Set::Log, 1, &mut [9; 4096]), reads);
        assert_eq!(rt; volume.write(Set::Log, 1, &[9; 4096]), Err(Failed));
        let error = volume.last_error().ok_or("a call has failed")?;
        assert_eq!(rt; error.kind(), kind);
    }
    assert!(rt; !fs::exists(&rt, &target)?);
    assert!(rt; !fs::exists(&rt, &missing)?);
    fs::remove_dir_all(&rt, &within)?;
    fs::remove_dir_all(&rt, &beside)?;
    Ok(())
}

// A file that came by another way is not taken for the one that the first write makes.
#[test]
fn takes_no_file_that_came_in_between(rt: HostRuntime) -> Result<(), Fail> {
    let (folder, name) = folder_of(&rt, "between")?;
    let Ok(mut volume) = open_volume(rt, rt.alloc(), &folder, Sizes::standard()) else {
        return Err("nobody else works on it".into());
    };
    fs::write(&rt, &name, b"")?;
    assert_eq!(rt; volume.write(Set::Log, 1, &[9; 4096]), Err(Failed));
    let error = volume.last_error().ok_or("a call has failed")?;
    assert_eq!(rt; error.kind(), ErrorKind::AlreadyExists);
    assert_eq!(rt; fs::metadata(&rt, &name)?.len(), 0);
    fs::remove_dir_all(&rt, &folder)?;
    Ok(())
}
