// A file for tests, in memory, and names for real ones. The one in memory fails where a test says
// so, moves few bytes at a time, and counts its calls. The program never uses it.
use std::alloc::Global;
use std::fs::{Metadata, OpenFile};
use std::io::{self, Cursor, ErrorKind, Read, Seek, SeekFrom, Write};
use std::test::Fail;

/// A file in memory. A call moves at most `most` bytes. The first calls end with the errors that
/// are listed. A sync that is not among them succeeds, and so does a change of the length, which
/// changes nothing.
#[derive(Drop)]
pub struct Faulty<'a> {
    errors: &'a [ErrorKind],
    most: usize,
    pub bytes: Cursor<Vec<u8>>,
    pub calls: u64,
}

impl<'a> Faulty<'a> {
    pub fn new(errors: &'a [ErrorKind], most: usize, bytes: Vec<u8>) -> Self {
        Faulty {
            errors,
            most,
            bytes: Cursor::new(bytes),
            calls: 0,
        }
    }

    /// A file without a byte.
    pub fn empty(alloc: Global, errors: &'a [ErrorKind], most: usize) -> Self {
        Faulty::new(errors, most, Vec::new(alloc))
    }

    // Counts a call, and says how it fails.
    fn next_error(&mut self) -> Option<ErrorKind> {
        self.calls = self.calls.saturating_add(1);
        let (first, rest) = self.errors.split_first()?;
        self.errors = rest;
        Some(*first)
    }
}

impl Read for Faulty<'_> {
    fn read(&mut self, into: &mut [u8]) -> io::Result<usize> {
        if let Some(kind) = self.next_error() {
            return Err(kind.into());
        }
        let n = self.most.min(into.len());
        self.bytes.read(&mut into[..n])
    }
}

impl Write for Faulty<'_> {
    fn write(&mut self, from: &[u8]) -> io::Result<usize> {
        if let Some(kind) = self.next_error() {
            return Err(kind.into());
        }
        let n = self.most.min(from.len());
        // A file stays as it is at a write of nothing, also past its end.
        if n == 0 {
            return Ok(0);
        }
        self.bytes.write(&from[..n])
    }

    fn flush(&mut self) -> io::Result<()> {
        Ok(())
    }
}

impl Seek for Faulty<'_> {
    fn seek(&mut self, to: SeekFrom) -> io::Result<u64> {
        if let Some(kind) = self.next_error() {
            return Err(kind.into());
        }
        self.bytes.seek(to)
    }
}

impl OpenFile for Faulty<'_> {
    fn metadata(&self) -> io::Result<Metadata> {
        Err(ErrorKind::Unsupported.into())
    }

    // Neither this nor a sync takes an error off the list.
    fn set_len(&self, _size: u64) -> io::Result<()> {
        self.sync_all()
    }

    fn sync_all(&self) -> io::Result<()> {
        match self.errors.first() {
            Some(kind) => Err((*kind).into()),
            None => Ok(()),
        }
    }

    fn sync_data(&self) -> io::Result<()> {
        self.sync_all()
    }
}

/// A name of this process in the folder for files that do not stay.
pub fn name_of(rt: &HostRuntime, last: &str) -> Result<String, Fail> {
    let folder = std::env::temp_dir(rt)?;
    let process = std::process::id(rt.process());
    Ok(format!(in rt.alloc(); "{}/rg_file-{process}-{last}", folder.as_path().as_str())?)
}
