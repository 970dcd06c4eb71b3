// What `main` settles before the call, in this order.
// (1) The standard descriptors that are closed are taken, before any other file is opened.
// (2) The operator is the one of the file `operator.txt`, and where there is no such file that of
//     the clock.
// (3) The volume has the sizes of the file `volume.txt`, and where there is no such file the standard
//     ones.
// (4) The volume is opened, where no other program works on it and it was not cut short. Nothing is
//     made: that is for the first write of the call.
// (5) Where one of these is refused, or there is no memory for it, the call is not made, and the
//     volume is as it was.
// (6) A refusal is given to the sink as the output of a call is. The texts and the statuses are in
//     specs/Refusals.antt.
ghost use Rattle.std.specs.Prelude.{◌≡◌, IfOk, IfErr};
ghost use Rattle.reorgdb.specs.Giving.{GivesOutput};
ghost use Rattle.reorgdb.specs.Operator.{Chooses, IsScriptOf, NamesShort, RefusesScript};
ghost use Rattle.reorgdb.specs.Refusals.{volume_refusal, refusal_status, refusal_text};
ghost use Rattle.reorgdb.specs.SizesFile.{TakesSizes};

use crate::giving::give_output;
use crate::sizes_file::{SIZES_LIMIT, read_sizes};
use rg_base::bytes::Bytes;
use rg_base::no_memory::NoMemory;
use rg_file::descriptors::HeldDescriptors;
use rg_file::faults::Faults;
use rg_file::folder::{Folder, VolumeRefusal, lost_volume, open_volume};
use rg_file::reading::{FileFault, read_file};
use rg_file::sizes::Sizes;
use rg_file::volume::FileVolume;
use rg_mem::script::ScriptOperator;
use rg_opts::operator::{OPERATOR_LIMIT, OperatorFault, read_operator};
use rg_outside::sink::Sink;
use std::alloc::Global;
use std::fs::{File, Files};
use std::io::{self, Write};

/// The operator's file.
pub const OPERATOR: &str = "operator.txt";

/// The file of the volume's sizes.
pub const SIZES: &str = "volume.txt";

/// Why the call is not made.
#[derive(Clone, Copy, Debug, PartialEq, Eq)]
pub enum Refusal {
    /// Line `line` of the operator's file, counted from 1, is the first that is no answer. It is 0
    /// where the file is too long. Status 11.
    OperatorLine { line: u32 },
    /// The operator's file is there, but it could not be opened or read. Status 12.
    OperatorFile,
    /// The file of the volume's sizes is no line of sizes. Status 13.
    SizesFile,
    /// The file of the volume's sizes is there, but it could not be opened or read. Status 14.
    SizesUnread,
    /// Another program works on the volume of these sizes. Status 15.
    VolumeBusy { sizes: Sizes },
    /// The file of the volume of these sizes has `length` bytes, but fewer than the volume has.
    /// Status 16.
    VolumeShort { sizes: Sizes, length: u64 },
    /// Out of memory. Status 8.
    NoMemory,
}

impl Refusal {
    pub fn status(self) -> u8
        ensures { result ≡ refusal_status self }
    {
        match self {
            Refusal::OperatorLine { .. } => 11,
            Refusal::OperatorFile => 12,
            Refusal::SizesFile => 13,
            Refusal::SizesUnread => 14,
            Refusal::VolumeBusy { .. } => 15,
            Refusal::VolumeShort { .. } => 16,
            Refusal::NoMemory => 8,
        }
    }

    /// The whole output.
    pub fn text(self, alloc: Global) -> Result<Bytes, NoMemory>
        ensures { IfOk result (λ text. text ≡ refusal_text self) }
    {
        let mut out = Vec::new(alloc);
        let written = match self {
            Refusal::OperatorLine { line } => writeln!(out, "REFUSED operator line {line}"),
            Refusal::OperatorFile => writeln!(out, "REFUSED operator"),
            Refusal::SizesFile => writeln!(out, "REFUSED volume.txt"),
            Refusal::SizesUnread => writeln!(out, "REFUSED volume.txt read"),
            Refusal::VolumeBusy { .. } => writeln!(out, "REFUSED volume busy"),
            Refusal::VolumeShort { .. } => writeln!(out, "REFUSED volume short"),
            Refusal::NoMemory => Ok(()),
        };
        match written {
            Ok(()) => Ok(Bytes::new(out)),
            Err(_) => Err(NoMemory),
        }
    }
}

/// What the call is made with. There is no operator where that of the clock is to be taken.
#[derive(Drop)]
pub struct Start<R> {
    pub operator: Option<ScriptOperator>,
    pub sizes: Sizes,
    pub volume: FileVolume<Folder<R>, File>,
}

/// Settles what comes before the call. What fails in reading the operator's file and that of the
/// sizes is counted in `faults`.
pub fn settle<R: Files<File = File> + Drop>(
    rt: R,
    alloc: Global,
    held: &io::Result<HeldDescriptors>,
    faults: &mut Faults,
) -> Result<Start<R>, Refusal>
    ensures { IfErr result NamesShort }
{
    let found = read_file(&rt, alloc, OPERATOR, OPERATOR_LIMIT + 1, faults);
    let operator = script(alloc, found)?;
    let found = read_file(&rt, alloc, SIZES, SIZES_LIMIT + 1, faults);
    let sizes = take_sizes(found)?;
    let volume = volume(rt, alloc, held, sizes)?;
    Ok(Start {
        operator,
        sizes,
        volume,
    })
}

/// The operator of what was found of the operator's file, and none where the file is missing.
pub fn script(
    alloc: Global,
    found: Result<Option<Vec<u8>>, FileFault>,
) -> Result<Option<ScriptOperator>, Refusal>
    ensures { Chooses found result }
{
    match found {
        Ok(None) => Ok(None),
        Ok(Some(bytes)) => match read_script(alloc, &bytes) {
            Ok(operator) => Ok(Some(operator)),
            Err(refusal) => Err(refusal),
        },
        Err(FileFault::Failed) => Err(Refusal::OperatorFile),
        Err(FileFault::NoMemory) => Err(Refusal::NoMemory),
    }
}

// The operator over the answers of these bytes.
fn read_script(alloc: Global, bytes: &[u8]) -> Result<ScriptOperator, Refusal>
    ensures script { IfOk result (IsScriptOf bytes.now) }
    ensures refusal { IfErr result (RefusesScript bytes.now) }
{
    let answers = match read_operator(alloc, bytes) {
        Ok(answers) => answers,
        Err(OperatorFault::Line { number }) => return Err(Refusal::OperatorLine { line: number }),
        Err(OperatorFault::NoMemory) => return Err(Refusal::NoMemory),
    };
    match ScriptOperator::new(alloc, &answers) {
        Ok(operator) => Ok(operator),
        Err(_) => Err(Refusal::NoMemory),
    }
}

/// The sizes of what was found of their file, and the standard ones where the file is missing.
pub fn take_sizes(found: Result<Option<Vec<u8>>, FileFault>) -> Result<Sizes, Refusal>
    ensures { TakesSizes found result }
{
    match found {
        Ok(None) => Ok(Sizes::standard()),
        Ok(Some(bytes)) => match read_sizes(&bytes) {
            Some(sizes) => Ok(sizes),
            None => Err(Refusal::SizesFile),
        },
        Err(FileFault::Failed) => Err(Refusal::SizesUnread),
        Err(FileFault::NoMemory) => Err(Refusal::NoMemory),
    }
}

// The volume in the folder that the program runs in. Where the standard descriptors could not be
// taken nothing of it is opened, since printing might write into it: each call of it fails.
fn volume<R: Files<File = File> + Drop>(
    rt: R,
    alloc: Global,
    held: &io::Result<HeldDescriptors>,
    sizes: Sizes,
) -> Result<FileVolume<Folder<R>, File>, Refusal>
    ensures { IfErr result NamesShort }
{
    match held {
        Ok(_) => match open_volume(rt, alloc, ".", sizes) {
            Ok(volume) => Ok(volume),
            Err(refusal) => Err(refuse_volume(sizes, refusal)),
        },
        Err(error) => Ok(lost_volume(rt, alloc, sizes, *error)),
    }
}

fn refuse_volume(sizes: Sizes, refusal: VolumeRefusal) -> Refusal
    ensures { result ≡ volume_refusal sizes refusal }
{
    match refusal {
        VolumeRefusal::Busy => Refusal::VolumeBusy { sizes },
        VolumeRefusal::Short { length } => Refusal::VolumeShort { sizes, length },
        VolumeRefusal::NoMemory => Refusal::NoMemory,
    }
}

/// Gives a refusal to the sink, and returns the status.
pub fn refuse<K: Sink>(alloc: Global, sink: &mut K, refusal: Refusal) -> u8
    ensures { GivesOutput (refusal_status refusal) (refusal_text refusal)
        (K.contents sink.old) (K.contents sink.new) (K.faults sink.old) (K.faults sink.new)
        result }
{
    match refusal.text(alloc) {
        Ok(text) => give_output(sink, text.as_slice(), refusal.status()),
        Err(_) => 8,
    }
}
