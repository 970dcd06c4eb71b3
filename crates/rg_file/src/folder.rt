// The folder of a volume, on the system.
// (1) A program that works on a volume holds two locks to its end: the lock of the folder that it
//     runs in, and the lock of the volume's file, as soon as there is one. The kernel gives both
//     back when the process ends, however it ends.
// (2) The folder is locked first. So two programs in one folder never both pass, also where there
//     is no file yet and both would make it. The lock of the file keeps out programs that reach it
//     from another folder, by a link.
// (3) A folder that cannot be opened or locked lets the file be used, under the lock of the file,
//     but makes no new one.
// (4) A new file is made under the lock of the folder, by a call that fails where the name is
//     taken. It is used only once it is locked and still has no byte.
// (5) A link that leads nowhere is no missing volume: the table that it named is out of reach, so
//     each call of the volume fails, and nothing is made.
ghost use Rattle.std.specs.Prelude.{◌≡◌, ◌↔◌, IfOk, IfErr, IsTrue};
ghost use Rattle.rg_file.specs.Pages.{IsShort, IsVolumeCause};
ghost use Rattle.rg_file.specs.State.{IsLost};

use crate::sizes::Sizes;
use crate::volume::{FileMaker, FileVolume, VolumeFile};
use std::alloc::Global;
use std::fs::{self, File, Files, OpenOptions, TryLockError};
use std::io::{self, Error, ErrorKind};

#[cfg(test)]
mod tests;

/// Why a volume is not opened. Nothing of it was changed.
#[derive(Clone, Copy, Debug, PartialEq, Eq)]
pub enum VolumeRefusal {
    /// Another program works on the volume.
    Busy,
    /// The file has bytes, and is shorter than a volume: `length` bytes.
    Short { length: u64 },
    /// There is no memory for its name.
    NoMemory,
}

/// The folder of a volume, and the path of the volume's file.
#[derive(Drop)]
pub struct Folder<R> {
    rt: R,
    path: String,
    // Locked; or why it is not.
    folder: io::Result<File>,
}

impl<R: Files<File = File>> FileMaker for Folder<R> {
    type File = File;

    fn make(&self) -> io::Result<File> {
        if let Err(error) = &self.folder {
            return Err(*error);
        }
        let file = File::create_new(&self.rt, &self.path)?;
        file.try_lock()?;
        // A program in another folder may have come in between.
        if file.metadata()?.len() > 0 {
            return Err(ErrorKind::AlreadyExists.into());
        }
        Ok(file)
    }

    fn sync_name(&self) -> io::Result<()> {
        match &self.folder {
            Ok(folder) => folder.sync_all(),
            Err(error) => Err(*error),
        }
    }
}

/// The volume of these sizes in this folder. Where its file is missing the volume is new, and its
/// first write makes one. Where there is one that cannot be used, or where a link leads nowhere,
/// each call of the volume fails.
pub fn open_volume<R: Files<File = File> + Drop>(
    rt: R,
    alloc: Global,
    folder: &str,
    sizes: Sizes,
) -> Result<FileVolume<Folder<R>, File>, VolumeRefusal>
    ensures volume { IfOk result (λ volume. volume.sizes ≡ sizes) }
    ensures cause { IfErr result (IsVolumeCause sizes) }
{
    let Ok(name) = sizes.file_name(alloc) else {
        return Err(VolumeRefusal::NoMemory);
    };
    let Ok(path) = format!(in alloc; "{folder}/{name}") else {
        return Err(VolumeRefusal::NoMemory);
    };
    let folder = match lock(File::open(&rt, folder)) {
        Ok(folder) => Ok(folder),
        Err(TryLockError::WouldBlock) => return Err(VolumeRefusal::Busy),
        Err(TryLockError::Error(error)) => Err(error),
    };
    let file = open_file(&rt, &path, sizes)?;
    Ok(FileVolume::new(Folder { rt, path, folder }, sizes, file))
}

/// A volume of which nothing is opened, for this reason. Each call of it fails.
pub fn lost_volume<R: Files<File = File> + Drop>(
    rt: R,
    alloc: Global,
    sizes: Sizes,
    error: Error,
) -> FileVolume<Folder<R>, File>
    ensures lost { IsLost result.file }
    ensures sizes { result.sizes ≡ sizes }
{
    let path = String::new(alloc);
    let folder = Err(error);
    FileVolume::new(
        Folder { rt, path, folder },
        sizes,
        VolumeFile::Lost { error },
    )
}

// Takes the lock of a file that was opened.
fn lock(opened: io::Result<File>) -> Result<File, TryLockError> {
    match opened {
        Ok(file) => {
            file.try_lock()?;
            Ok(file)
        }
        Err(error) => Err(TryLockError::Error(error)),
    }
}

// What there is of the volume's file, once it is locked.
fn open_file<R: Files<File = File>>(
    rt: &R,
    path: &str,
    sizes: Sizes,
) -> Result<VolumeFile<File>, VolumeRefusal>
    ensures { IfErr result (IsVolumeCause sizes) }
{
    let opened = OpenOptions::new().read(true).write(true).open(rt, path);
    match lock(opened) {
        Ok(file) => of_length(file, sizes),
        Err(TryLockError::WouldBlock) => Err(VolumeRefusal::Busy),
        Err(TryLockError::Error(error)) => Ok(missing_or_lost(rt, path, error)),
    }
}

// A file that is locked, by its length. A pipe or a device is no volume.
fn of_length(file: File, sizes: Sizes) -> Result<VolumeFile<File>, VolumeRefusal>
    ensures { IfErr result (IsVolumeCause sizes) }
{
    match file.metadata() {
        Ok(found) if !found.is_file() => {
            Ok(VolumeFile::Lost {
                error: ErrorKind::Unsupported.into(),
            })
        }
        Ok(found) if is_short(found.len(), sizes) => {
            Err(VolumeRefusal::Short {
                length: found.len(),
            })
        }
        Ok(found) => {
            Ok(VolumeFile::There {
                file,
                is_whole: found.len() > 0,
            })
        }
        Err(error) => Ok(VolumeFile::Lost { error }),
    }
}

// Whether a file of this length was cut: it has bytes, and is shorter than a volume.
fn is_short(length: u64, sizes: Sizes) -> bool
    ensures { IsTrue result ↔ IsShort sizes length }
{
    0 < length && length < sizes.length()
}

// A file that was not opened, by the error. It is missing where its name is.
fn missing_or_lost<R: Files<File = File>>(rt: &R, path: &str, error: Error) -> VolumeFile<File> {
    if error.kind() != ErrorKind::NotFound {
        return VolumeFile::Lost { error };
    }
    match fs::symlink_metadata(rt, path) {
        Err(found) if found.kind() == ErrorKind::NotFound => VolumeFile::Missing,
        Err(error) => VolumeFile::Lost { error },
        // A link that leads nowhere.
        Ok(_) => VolumeFile::Lost { error },
    }
}
