// The standard descriptors, 0 to 2: input, output and error.
// (1) A file that is opened gets the least number that is free. So where a program is started with
//     one of the three closed, the next file that it opened would stand in its place: a volume
//     would be written by printing.
// (2) Before any other file is opened, the folder that the program runs in is opened as often as it
//     takes that all three are taken, and it stays open. A folder can be neither read nor written
//     as a file, so a closed input fails where it is read, and a closed output where it is written.
// (3) A folder that must not be read is opened nowhere; the root of all folders stands in for it.
use std::fs::{File, Files};
use std::io;
use std::os::fd::AsRawFd;

#[cfg(test)]
mod tests;

/// The files that stand in for the standard descriptors that were closed.
#[derive(Drop)]
pub struct HeldDescriptors {
    files: [Option<File>; 3],
}

impl HeldDescriptors {
    /// Takes each of the standard descriptors that is free, until this value is dropped.
    pub fn take<R: Files<File = File>>(rt: &R) -> io::Result<HeldDescriptors> {
        let mut files = [None, None, None];
        for place in files.iter_mut() {
            let file = open_folder(rt)?;
            if file.as_raw_fd() > 2 {
                break;
            }
            *place = Some(file);
        }
        Ok(HeldDescriptors { files })
    }

    /// How many were free.
    pub fn count(&self) -> usize {
        self.files.iter().filter(|file| file.is_some()).count()
    }
}

fn open_folder<R: Files<File = File>>(rt: &R) -> io::Result<File> {
    match File::open(rt, ".") {
        Ok(folder) => Ok(folder),
        Err(_) => File::open(rt, "/"),
    }
}
