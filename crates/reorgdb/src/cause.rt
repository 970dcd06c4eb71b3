// The line on standard error that says why the program ended.
// (1) It comes at the statuses 3 to 6 and 11 to 16 only, and at these unless memory ran out.
// (2) It names the file, and says what is wrong with it in the system's own words, or in the
//     program's where it is the program that refuses.
// (3) It is no part of the output, and nothing depends on it: the status stays where it cannot be
//     written.
ghost use Rattle.std.specs.Prelude.{IfSome};
ghost use Rattle.reorgdb.specs.Refusals.{HasLine};

use crate::edge::{OPERATOR, Refusal, SIZES};
use rg_file::sizes::Sizes;
use std::alloc::{AllocError, Global};
use std::io::Error;

/// The errors of the last failed calls, by what was called, and the sizes of the volume that the
/// call was made with.
#[derive(Clone, Copy)]
pub struct Errors {
    /// That of the files that are read before the call.
    pub files: Option<Error>,
    pub source: Option<Error>,
    pub sink: Option<Error>,
    pub sizes: Sizes,
    pub volume: Option<Error>,
}

/// What is called beside the volume.
#[derive(Clone, Copy)]
pub enum Called {
    Operator,
    Sizes,
    Input,
    Output,
}

impl Called {
    fn name(self) -> &'static str {
        match self {
            Called::Operator => OPERATOR,
            Called::Sizes => SIZES,
            Called::Input => "standard input",
            Called::Output => "standard output",
        }
    }
}

/// Why the program ended.
#[derive(Clone, Copy)]
pub enum Cause {
    /// The system's error at a call of this.
    System { called: Called, error: Error },
    /// The system's error at the file of the volume.
    Volume { sizes: Sizes, error: Error },
    /// The first line of the operator's file that is no answer; 0 where the file is too long.
    Line { line: u32 },
    /// The file of the volume's sizes is no line of sizes.
    NoSizes,
    /// A page of the volume is damaged. The output names it.
    Damaged { sizes: Sizes },
    /// Another program works on the volume.
    Busy { sizes: Sizes },
    /// The volume's file has so many bytes only.
    Short { sizes: Sizes, length: u64 },
}

impl Cause {
    /// The cause of this status, which a refusal before the call gave or the call itself.
    pub fn find(status: u8, refusal: Option<Refusal>, errors: Errors) -> Option<Cause>
        ensures { IfSome result (λ _. HasLine status) }
    {
        match (status, refusal) {
            (3, _) => of_error(Called::Input, errors.source),
            (4, _) => of_error(Called::Output, errors.sink),
            (5, _) => {
                Some(Cause::Damaged {
                    sizes: errors.sizes,
                })
            }
            (6, _) => {
                Some(Cause::Volume {
                    sizes: errors.sizes,
                    error: errors.volume?,
                })
            }
            (11, Some(Refusal::OperatorLine { line })) => Some(Cause::Line { line }),
            (12, _) => of_error(Called::Operator, errors.files),
            (13, _) => Some(Cause::NoSizes),
            (14, _) => of_error(Called::Sizes, errors.files),
            (15, Some(Refusal::VolumeBusy { sizes })) => Some(Cause::Busy { sizes }),
            (16, Some(Refusal::VolumeShort { sizes, length })) => {
                Some(Cause::Short { sizes, length })
            }
            _ => None,
        }
    }

    /// The line, without its end.
    pub fn line(self, alloc: Global) -> Result<String, AllocError> {
        match self {
            Cause::System { called, error } => say_error(alloc, called.name(), error),
            Cause::Volume { sizes, error } => say_error(alloc, &sizes.file_name(alloc)?, error),
            Cause::Line { line: 0 } => format!(in alloc; "reorgdb: {OPERATOR}: File too long"),
            Cause::Line { line } => format!(in alloc;
                "reorgdb: {OPERATOR}: Line {line} is no answer"
            ),
            Cause::NoSizes => format!(in alloc;
                "reorgdb: {SIZES}: Not the line LOG n COPY m, n from 2 and m from 1 to 65536"
            ),
            Cause::Damaged { sizes } => {
                let name = sizes.file_name(alloc)?;
                format!(in alloc; "reorgdb: {name}: A page is damaged")
            }
            Cause::Busy { sizes } => {
                let name = sizes.file_name(alloc)?;
                format!(in alloc; "reorgdb: {name}: In use by another program")
            }
            Cause::Short { sizes, length } => {
                let name = sizes.file_name(alloc)?;
                let whole = sizes.length();
                format!(in alloc; "reorgdb: {name}: Cut short, {length} bytes of {whole}")
            }
        }
    }
}

// The line of an error of the system at a file.
fn say_error(alloc: Global, file: &str, error: Error) -> Result<String, AllocError> {
    let words = format!(in alloc; "{error}")?;
    format!(in alloc; "reorgdb: {file}: {}", without_number(&words))
}

// An error as the system says it. The number behind the words is the library's own addition.
fn without_number(words: &str) -> &str {
    match words.split_once(" (os error ") {
        Some((words, _)) => words,
        None => words,
    }
}

fn of_error(called: Called, error: Option<Error>) -> Option<Cause> {
    let error = error?;
    Some(Cause::System { called, error })
}
