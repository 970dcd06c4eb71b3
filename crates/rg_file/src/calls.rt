// Calls of the system, and what they do to a count of faults.
// (1) Each call that ends with an error is one fault, also where it was interrupted.
// (2) A write that took none of some bytes is one fault.
// (3) The count stands still at 2 ^ 64 - 1.
// (4) An interrupted call is tried again, at most TRIES times in all. Any other error ends it.
ghost use Rattle.std.specs.Prelude.{◌≡◌, ◌<◌, ◌≤◌, ◌+◌, ◌↔◌, length, take, IfOk, OnOk, OnErr};
ghost use Rattle.std.specs.IoError.{error_kind};
ghost use Rattle.std.specs.Io.KnownBytes.{Appends, Consumes, IsAtEnd, Keeps};
ghost use Rattle.std.specs.Io.Seek.{MovesTo};
ghost use Rattle.rg_outside.specs.Faults.{HasCause, Rose};
ghost use Rattle.rg_outside.specs.Counts.{count_after};
ghost use Rattle.rg_file.specs.Calls.{TakesNothing};

use crate::faults::Faults;
use rg_outside::source::Failed;
use std::fs::OpenFile;
use std::io::{Error, ErrorKind, Read, Seek, SeekFrom, Write};

/// How often a call is made at most, where each try is interrupted.
pub const TRIES: u32 = 1_000;

// How one try failed.
#[derive(Clone, Copy, Debug, PartialEq, Eq)]
enum Fault {
    Interrupted,
    Other,
}

// Counts an error as a fault.
fn count_error(error: Error, faults: &mut Faults) -> Fault
    ensures kind { (result ≡ Fault.Interrupted) ↔ (error_kind error ≡ ErrorKind.Interrupted) }
    ensures raised { faults.new ≡ count_after faults.old }
    ensures later { faults.old ≤ faults.new }
    ensures rose { Rose faults.old faults.new }
{
    faults.raise(error);
    if error.kind() == ErrorKind::Interrupted {
        Fault::Interrupted
    } else {
        Fault::Other
    }
}

fn read_once<R: Read>(reader: &mut R, into: &mut [u8], faults: &mut Faults) -> Result<usize, Fault>
    ensures count { IfOk result (λ n. n ≤ length into.old) }
    ensures taken { IfOk result
        (λ n. Consumes (R.remaining reader.old) (R.remaining reader.new) (take n into.new)) }
    ensures end { IfOk result
        (λ n. 0 < length into.old → n ≡ 0 → IsAtEnd (R.remaining reader.new)) }
    ensures kept { OnErr result (Keeps (R.remaining reader.old) (R.remaining reader.new)) }
    ensures same_count { OnOk result (faults.new ≡ faults.old) }
    ensures raised { OnErr result (faults.new ≡ count_after faults.old) }
    ensures cause { HasCause faults.old faults.new result }
{
    match reader.read(into) {
        Ok(n) => Ok(n),
        Err(error) => Err(count_error(error, faults)),
    }
}

/// Reads once, and again after an interruption.
pub fn read_through<R: Read>(
    reader: &mut R,
    into: &mut [u8],
    faults: &mut Faults,
) -> Result<usize, Failed>
    ensures count { IfOk result (λ n. n ≤ length into.old) }
    ensures taken { IfOk result
        (λ n. Consumes (R.remaining reader.old) (R.remaining reader.new) (take n into.new)) }
    ensures end { IfOk result
        (λ n. 0 < length into.old → n ≡ 0 → IsAtEnd (R.remaining reader.new)) }
    ensures failed { OnErr result (Keeps (R.remaining reader.old) (R.remaining reader.new)) }
    ensures cause { HasCause faults.old faults.new result }
    ensures tries { faults.new ≤ faults.old + TRIES }
{
    for _ in 1..TRIES {
        match read_once(reader, into, faults) {
            Ok(n) => return Ok(n),
            Err(Fault::Interrupted) => {}
            Err(Fault::Other) => return Err(Failed),
        }
    }
    match read_once(reader, into, faults) {
        Ok(n) => Ok(n),
        Err(_) => Err(Failed),
    }
}

/// Reads until `into` is full or the reader at its end, and returns how many bytes that were.
pub fn fill<R: Read>(reader: &mut R, into: &mut [u8], faults: &mut Faults) -> Result<usize, Failed>
    ensures count { IfOk result (λ n. n ≤ length into.old) }
    ensures taken { IfOk result
        (λ n. Consumes (R.remaining reader.old) (R.remaining reader.new) (take n into.new)) }
    ensures end { IfOk result (λ n. n < length into.old → IsAtEnd (R.remaining reader.new)) }
    ensures cause { HasCause faults.old faults.new result }
{
    let mut at = 0;
    while at < into.len() {
        match read_through(reader, &mut into[at..], faults)? {
            0 => return Ok(at),
            n => at += n,
        }
    }
    Ok(at)
}

fn write_once<W: Write>(writer: &mut W, from: &[u8], faults: &mut Faults) -> Result<usize, Fault>
    ensures count { IfOk result (λ n. n ≤ length from.now) }
    ensures kept { IfOk result
        (λ n. Appends (W.contents writer.old) (W.contents writer.new) (take n from.now)) }
    ensures refused { OnErr result (Keeps (W.contents writer.old) (W.contents writer.new)) }
    ensures nothing { IfOk result
        (λ n. TakesNothing n (length from.now) → faults.new ≡ count_after faults.old) }
    ensures nothing_rose { IfOk result
        (λ n. TakesNothing n (length from.now) → Rose faults.old faults.new) }
    ensures same_count { IfOk result
        (λ n. ¬ (TakesNothing n (length from.now)) → faults.new ≡ faults.old) }
    ensures raised { OnErr result (faults.new ≡ count_after faults.old) }
    ensures cause { HasCause faults.old faults.new result }
{
    match writer.write(from) {
        Ok(n) => {
            if n == 0 && !from.is_empty() {
                faults.raise(ErrorKind::WriteZero.into());
            }
            Ok(n)
        }
        Err(error) => Err(count_error(error, faults)),
    }
}

/// Writes once, and again after an interruption.
pub fn write_through<W: Write>(
    writer: &mut W,
    from: &[u8],
    faults: &mut Faults,
) -> Result<usize, Failed>
    ensures count { IfOk result (λ n. n ≤ length from.now) }
    ensures kept { IfOk result
        (λ n. Appends (W.contents writer.old) (W.contents writer.new) (take n from.now)) }
    ensures refused { OnErr result (Keeps (W.contents writer.old) (W.contents writer.new)) }
    ensures nothing { IfOk result
        (λ n. TakesNothing n (length from.now) → Rose faults.old faults.new) }
    ensures cause { HasCause faults.old faults.new result }
    ensures tries { faults.new ≤ faults.old + TRIES }
{
    for _ in 1..TRIES {
        match write_once(writer, from, faults) {
            Ok(n) => return Ok(n),
            Err(Fault::Interrupted) => {}
            Err(Fault::Other) => return Err(Failed),
        }
    }
    match write_once(writer, from, faults) {
        Ok(n) => Ok(n),
        Err(_) => Err(Failed),
    }
}

fn seek_once<F: Seek>(file: &mut F, to: u64, faults: &mut Faults) -> Result<(), Fault>
    ensures moved { MovesTo (F.stream_position file.old) (F.stream_position file.new) to result }
    ensures bytes { Keeps (F.stream_bytes file.old) (F.stream_bytes file.new) }
    ensures same_count { OnOk result (faults.new ≡ faults.old) }
    ensures raised { OnErr result (faults.new ≡ count_after faults.old) }
    ensures cause { HasCause faults.old faults.new result }
{
    match file.seek(SeekFrom::Start(to)) {
        Ok(_) => Ok(()),
        Err(error) => Err(count_error(error, faults)),
    }
}

/// Goes to a place of the file, and tries again after an interruption.
pub fn seek_through<F: Seek>(file: &mut F, to: u64, faults: &mut Faults) -> Result<(), Failed>
    ensures moved { MovesTo (F.stream_position file.old) (F.stream_position file.new) to result }
    ensures bytes { Keeps (F.stream_bytes file.old) (F.stream_bytes file.new) }
    ensures cause { HasCause faults.old faults.new result }
    ensures tries { faults.new ≤ faults.old + TRIES }
{
    for _ in 1..TRIES {
        match seek_once(file, to, faults) {
            Ok(()) => return Ok(()),
            Err(Fault::Interrupted) => {}
            Err(Fault::Other) => return Err(Failed),
        }
    }
    match seek_once(file, to, faults) {
        Ok(()) => Ok(()),
        Err(_) => Err(Failed),
    }
}

fn sync_once<F: OpenFile>(file: &F, faults: &mut Faults) -> Result<(), Fault>
    ensures same_count { OnOk result (faults.new ≡ faults.old) }
    ensures raised { OnErr result (faults.new ≡ count_after faults.old) }
    ensures cause { HasCause faults.old faults.new result }
{
    match file.sync_data() {
        Ok(()) => Ok(()),
        Err(error) => Err(count_error(error, faults)),
    }
}

/// Brings the file's bytes to the device, and tries again after an interruption. What else is known
/// of the file, as the time of its last change, may come later: its length does not change once it
/// has its length, and that was made durable then.
pub fn sync_through<F: OpenFile>(file: &F, faults: &mut Faults) -> Result<(), Failed>
    ensures cause { HasCause faults.old faults.new result }
    ensures tries { faults.new ≤ faults.old + TRIES }
{
    for _ in 1..TRIES {
        match sync_once(file, faults) {
            Ok(()) => return Ok(()),
            Err(Fault::Interrupted) => {}
            Err(Fault::Other) => return Err(Failed),
        }
    }
    match sync_once(file, faults) {
        Ok(()) => Ok(()),
        Err(_) => Err(Failed),
    }
}
