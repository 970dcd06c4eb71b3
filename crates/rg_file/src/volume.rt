// A volume over one file.
// (1) The file holds the log, then the first and the second copy of the table. A page has 4,096
//     bytes, and the pages of a set stand in the order of their numbers, with no gap.
// (2) A volume without a file, or with one that has no byte, is new: each of its pages reads as
//     zeros, and a sync has nothing to do. So does what stands past the end of a file.
// (3) The first write makes the file of a new volume and gives it its whole length. The length is
//     durable before the name of the file is, and the name before the first page is written. So a
//     file that has bytes and is shorter was cut.
// (4) After a short read or write the rest is read or written, until the page is whole.
// (5) A page that could not be read leaves the caller's bytes as they were.
// (6) A sync reaches the device.
ghost use Rattle.std.specs.Prelude.{◌≡◌, length, IsOk, IsErr, OnOk, OnErr, IfSome};
ghost use Rattle.std.specs.Io.KnownBytes.{Appends, Keeps};
ghost use Rattle.std.specs.Io.Seek.{MovesTo};
ghost use Rattle.rg_outside.specs.Capacities.{IsPage};
ghost use Rattle.rg_outside.specs.Faults.{HasCause};
ghost use Rattle.rg_file.specs.Pages.{offset_of, padded, ReadsPage};
ghost use Rattle.rg_file.specs.Sizes.{file_capacities};
ghost use Rattle.rg_file.specs.State.{IsLost, IsNotWhole, IsWhole, BecomesWhole};

use crate::calls::{fill, seek_through, sync_through, write_through};
use crate::faults::Faults;
use crate::sizes::Sizes;
use rg_base::set::Set;
use rg_outside::source::Failed;
use rg_outside::volume::Volume;
use std::fs::OpenFile;
use std::io::{self, Error, Read, Seek, Write};

#[cfg(test)]
mod tests;

// How many bytes a page has.
const PAGE: u64 = 4096;

/// What makes the file of a new volume.
pub trait FileMaker {
    type File;

    /// Makes the file, without a byte and for this program alone.
    fn make(&self) -> io::Result<Self::File>;

    /// Makes the name of the file durable.
    fn sync_name(&self) -> io::Result<()>;
}

/// What there is of a volume's file.
#[derive(Drop)]
pub enum VolumeFile<F> {
    /// No file: the volume is new.
    Missing,
    /// A file. Where it is not whole it has no byte, and the volume is new.
    There { file: F, is_whole: bool },
    /// The file cannot be used, for this reason. Each call of the volume fails.
    Lost { error: Error },
}

/// A volume over one file: the pages of the log, and then those of each copy of the table, as many
/// as its sizes say. It reports nothing of its contents. Each interrupted read, write, seek and sync of a page is tried
/// again, at most [`TRIES`](crate::TRIES) times in all. Making the file and giving it its length
/// are not: the next write tries that again. Each call of the system that ended with an error, and
/// each write that took none of some bytes, is counted as a fault.
#[derive(Drop)]
pub struct FileVolume<M, F> {
    maker: M,
    sizes: Sizes,
    file: VolumeFile<F>,
    faults: Faults,
}

impl<M: FileMaker<File = F>, F: OpenFile + Drop> FileVolume<M, F> {
    /// A volume of these sizes over this file. Where there is none yet, `maker` makes it.
    pub fn new(maker: M, sizes: Sizes, file: VolumeFile<F>) -> Self
        ensures { result ≡ record { maker = maker; sizes = sizes; file = file; faults = 0 } }
    {
        FileVolume {
            maker,
            sizes,
            file,
            faults: Faults::none(),
        }
    }

    /// The error of the last call that failed.
    pub fn last_error(&self) -> Option<Error> {
        self.faults.last()
    }

    // Makes the file of a new volume, where it is missing, and gives it its length.
    fn make_whole(&mut self) -> Result<(), Failed>
        ensures whole { OnOk result (BecomesWhole self.old.file self.new.file) }
        ensures waits { OnErr result (IsNotWhole self.new.file) }
        ensures lost { IsLost self.old.file → IsErr result }
        ensures sizes { self.new.sizes ≡ self.old.sizes }
        ensures cause { HasCause self.old.faults self.new.faults result }
    {
        match &mut self.file {
            VolumeFile::There { is_whole: true, .. } => Ok(()),
            VolumeFile::There { file, is_whole } => {
                let stretched = stretch(&self.maker, file, self.sizes.length());
                self.faults.pass(stretched)?;
                *is_whole = true;
                Ok(())
            }
            VolumeFile::Missing => self.make(),
            VolumeFile::Lost { error } => self.faults.pass(Err(*error)),
        }
    }

    // Makes the file, and gives it its length.
    fn make(&mut self) -> Result<(), Failed>
        requires { IsNotWhole self.now.file }
        ensures whole { OnOk result (IsWhole self.new.file) }
        ensures waits { OnErr result (IsNotWhole self.new.file) }
        ensures sizes { self.new.sizes ≡ self.old.sizes }
        ensures cause { HasCause self.old.faults self.new.faults result }
    {
        let made = self.maker.make();
        let file = self.faults.pass(made)?;
        let stretched = stretch(&self.maker, &file, self.sizes.length());
        self.file = VolumeFile::There {
            file,
            is_whole: stretched.is_ok(),
        };
        self.faults.pass(stretched)
    }
}

// Gives a file without a byte its length, and makes both its length and its name durable.
fn stretch<M: FileMaker<File = F>, F: OpenFile>(
    maker: &M,
    file: &F,
    length: u64,
) -> io::Result<()> {
    file.set_len(length)?;
    file.sync_all()?;
    maker.sync_name()
}

impl<M: FileMaker<File = F>, F: Read + Write + Seek + OpenFile + Drop> Volume for FileVolume<M, F> {
    ghost use Rattle.std.specs.Prelude.{None};
    ghost use Rattle.rg_file.specs.State.{IsLost, IsNew, ReadsFrom, WritesInto};

    ghost seen = { λ v. record {
      told = None;
      faults = v.faults;
      capacities = file_capacities v.sizes;
    } };

    fn capacity(&self, set: Set) -> u32 {
        self.sizes.capacity(set)
    }

    fn read(&mut self, set: Set, page: u32, into: &mut [u8; 4096]) -> Result<(), Failed>
        requires { IsPage (file_capacities self.now.sizes) set page }
        ensures kept { OnErr result (into.new ≡ into.old) }
        ensures cause { HasCause self.old.faults self.new.faults result }
        ensures lost { IsLost self.old.file → IsErr result }
        ensures new { IsNew self.old.file → IsOk result × (self.new.file ≡ self.old.file) }
        ensures sizes { self.new.sizes ≡ self.old.sizes }
        ensures page { OnOk result (ReadsFrom self.old.sizes F.stream_position F.stream_bytes F.remaining
            self.old.file set page into.new) }
    {
        match &mut self.file {
            VolumeFile::There {
                file,
                is_whole: true,
            } => read_page(file, self.sizes, set, page, into, &mut self.faults),
            VolumeFile::There { .. } | VolumeFile::Missing => {
                *into = [0; 4096];
                Ok(())
            }
            VolumeFile::Lost { error } => self.faults.pass(Err(*error)),
        }
    }

    fn write(&mut self, set: Set, page: u32, from: &[u8; 4096]) -> Result<(), Failed>
        requires { IsPage (file_capacities self.now.sizes) set page }
        ensures cause { HasCause self.old.faults self.new.faults result }
        ensures lost { IsLost self.old.file → IsErr result }
        ensures sizes { self.new.sizes ≡ self.old.sizes }
        ensures page { OnOk result (WritesInto self.old.sizes F.stream_position F.stream_bytes F.contents
            self.old.file set page from.now self.new.file) }
    {
        self.make_whole()?;
        let VolumeFile::There { file, .. } = &mut self.file else {
            unreachable!();
        };
        seek_page(file, self.sizes, set, page, &mut self.faults)?;
        write_whole(file, from, &mut self.faults)
    }

    fn sync(&mut self) -> Result<(), Failed>
        ensures cause { HasCause self.old.faults self.new.faults result }
        ensures lost { IsLost self.old.file → IsErr result }
        ensures new { IsNew self.old.file → IsOk result }
        ensures sizes { self.new.sizes ≡ self.old.sizes }
        ensures same { self.new.file ≡ self.old.file }
    {
        match &self.file {
            VolumeFile::There {
                file,
                is_whole: true,
            } => sync_through(file, &mut self.faults),
            VolumeFile::There { .. } | VolumeFile::Missing => Ok(()),
            VolumeFile::Lost { error } => self.faults.pass(Err(*error)),
        }
    }

    ghost told_capacities = { λ _. tt };

    ghost told_faults = { λ _. tt };

    ghost whole_pages = { λ _. tt };
}

// The place of a page's first byte in the file.
fn offset(sizes: Sizes, set: Set, page: u32) -> u64
    requires { IsPage (file_capacities sizes) set page }
    ensures { result ≡ offset_of sizes set page }
{
    let before = match set {
        Set::Log => 0,
        Set::First => u64::from(sizes.log),
        Set::Second => u64::from(sizes.log) + u64::from(sizes.copy),
    };
    (before + (page as u64 - 1)) * PAGE
}

// Goes to the first byte of a page.
fn seek_page<F: Seek>(
    file: &mut F,
    sizes: Sizes,
    set: Set,
    page: u32,
    faults: &mut Faults,
) -> Result<(), Failed>
    requires { IsPage (file_capacities sizes) set page }
    ensures moved { MovesTo
        (F.stream_position file.old) (F.stream_position file.new) (offset_of sizes set page) result }
    ensures bytes { Keeps (F.stream_bytes file.old) (F.stream_bytes file.new) }
    ensures cause { HasCause faults.old faults.new result }
{
    seek_through(file, offset(sizes, set, page), faults)
}

// Reads a page from its place.
fn read_page<F: Read + Seek>(
    file: &mut F,
    sizes: Sizes,
    set: Set,
    page: u32,
    into: &mut [u8; 4096],
    faults: &mut Faults,
) -> Result<(), Failed>
    requires { IsPage (file_capacities sizes) set page }
    ensures kept { OnErr result (into.new ≡ into.old) }
    ensures page { OnOk result (ReadsPage sizes F.stream_position F.stream_bytes F.remaining
        file.old set page into.new) }
    ensures cause { HasCause faults.old faults.new result }
{
    seek_page(file, sizes, set, page, faults)?;
    let mut bytes = [0; 4096];
    read_padded(file, &mut bytes, faults)?;
    *into = bytes;
    Ok(())
}

// Reads until `into` is full, with zeros for what stands past the end.
fn read_padded<R: Read>(reader: &mut R, into: &mut [u8], faults: &mut Faults) -> Result<(), Failed>
    ensures bytes { OnOk result (IfSome (R.remaining reader.old)
        (λ bytes. into.new ≡ padded (length into.old) bytes)) }
    ensures cause { HasCause faults.old faults.new result }
{
    let n = fill(reader, into, faults)?;
    into[n..].fill(0);
    Ok(())
}

// Writes all of `from`.
fn write_whole<W: Write>(writer: &mut W, from: &[u8], faults: &mut Faults) -> Result<(), Failed>
    ensures kept { OnOk result
        (Appends (W.contents writer.old) (W.contents writer.new) from.now) }
    ensures cause { HasCause faults.old faults.new result }
{
    let mut rest = from;
    while !rest.is_empty() {
        match write_through(writer, rest, faults)? {
            0 => return Err(Failed),
            n => rest = &rest[n..],
        }
    }
    Ok(())
}
