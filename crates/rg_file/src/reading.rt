// How a small file is read whole.
// (1) A file that is not there is no fault. Any other error of opening it is one.
// (2) Memory for all bytes that may be read is taken before the first is read.
// (3) Reading starts at the file's first byte. It ends at the end of the file, or where so many
//     bytes were read.
// (4) After a short read the rest is read.
// The rules for calls that fail or are interrupted are those of `calls.rt`.
ghost use Rattle.std.specs.Prelude.{◌≡◌, ◌<◌, ◌≤◌, ◌↔◌, IsNone, IsOk, IfOk, IfErr, IfSome, length};
ghost use Rattle.std.specs.IoError.{error_kind};
ghost use Rattle.std.specs.Io.KnownBytes.{Consumes, IsAtEnd};
ghost use Rattle.rg_outside.specs.Faults.{HasCause};
ghost use Rattle.rg_file.specs.Fault.{Explains, IsCounted};

use crate::calls::fill;
use crate::faults::Faults;
use std::alloc::{AllocError, Global};
use std::fs::{File, Files};
use std::io::{Error, ErrorKind, Read};

#[cfg(test)]
mod tests;

/// Why a file was not read.
#[derive(Clone, Copy, Debug, PartialEq, Eq)]
pub enum FileFault {
    /// The file could not be opened, though not because it is missing; or it could not be read.
    Failed,
    /// Out of memory.
    NoMemory,
}

/// The first bytes of the file of this name, at most `most` of them: fewer where the file has
/// fewer. None where there is no such file. Memory for `most` bytes is taken at once, whatever the
/// length of the file. Each call of the system that failed is counted in `faults`.
pub fn read_file<R: Files>(
    rt: &R,
    alloc: Global,
    name: &str,
    most: usize,
    faults: &mut Faults,
) -> Result<Option<Vec<u8>>, FileFault>
    ensures short { IfOk result (λ found. IfSome found (λ bytes. length bytes.items ≤ most)) }
    ensures fault { IfErr result (IsCounted faults.old faults.new) }
{
    match File::open(rt, name) {
        Ok(mut file) => match read_front(alloc, &mut file, most, faults) {
            Ok(bytes) => Ok(Some(bytes)),
            Err(fault) => Err(fault),
        },
        Err(error) => absent_or_failed(error, faults),
    }
}

// What an error of opening a file comes to.
fn absent_or_failed(error: Error, faults: &mut Faults) -> Result<Option<Vec<u8>>, FileFault>
    ensures absent { IsOk result ↔ (error_kind error ≡ ErrorKind.NotFound) }
    ensures none { IfOk result (λ found. IsNone found) }
    ensures failed { IfErr result (λ fault. fault ≡ FileFault.Failed) }
    ensures cause { HasCause faults.old faults.new result }
{
    if error.kind() == ErrorKind::NotFound {
        Ok(None)
    } else {
        faults.raise(error);
        Err(FileFault::Failed)
    }
}

// Reads until `most` bytes were read or the reader is at its end.
fn read_front<R: Read>(
    alloc: Global,
    reader: &mut R,
    most: usize,
    faults: &mut Faults,
) -> Result<Vec<u8>, FileFault>
    ensures short { IfOk result (λ bytes. length bytes.items ≤ most) }
    ensures read { IfOk result
        (λ bytes. Consumes (R.remaining reader.old) (R.remaining reader.new) bytes.items) }
    ensures end { IfOk result
        (λ bytes. length bytes.items < most → IsAtEnd (R.remaining reader.new)) }
    ensures fault { IfErr result
        (Explains (R.remaining reader.old) (R.remaining reader.new) faults.old faults.new) }
{
    let Ok(mut bytes) = zeros(alloc, most) else {
        return Err(FileFault::NoMemory);
    };
    match fill(reader, &mut bytes, faults) {
        Ok(n) => {
            bytes.truncate(n);
            Ok(bytes)
        }
        Err(_) => Err(FileFault::Failed),
    }
}

fn zeros(alloc: Global, count: usize) -> Result<Vec<u8>, AllocError>
    ensures { IfOk result (λ bytes. length bytes.items ≡ count) }
{
    vec![in alloc; 0u8; count]
}
