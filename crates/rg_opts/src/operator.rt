// How the operator's file is read.
//
// 1. A file has at most 1048576 bytes. Its lines end with a line feed; the last may lack it. An
//    empty file has no line.
// 2. A line is words, with one space between two of them. They are the moment and the estimate, two
//    numbers of seconds, and then the command.
// 3. The command is nothing, TERM, or ALTER and the options that it changes.
ghost use Rattle.std.specs.Prelude.{◌<◌, ◌↔◌, IfOk, IfErr, IfSome, IfNone, IsErrOf, length};
ghost use Rattle.rg_base.specs.declared.control.Answer.{Answer};
ghost use Rattle.rg_base.specs.declared.control.Command.{Command};
ghost use Rattle.rg_opts.specs.declared.operator.OperatorFault.TheVariants as OperatorFault;
ghost use Rattle.rg_opts.specs.Operator.{IsCommand, IsAnswer, IsAnswerLine, IsOperatorFile};
ghost use Rattle.rg_opts.specs.Operator.{RefusesFile};
ghost use Rattle.rg_opts.specs.Lines.{CutsLine, FindsAnswer};
ghost use Rattle.rg_opts.specs.Statement.{texts};

use crate::setting::read_seconds;
use crate::statement::read_alter;
use crate::words::split_words;
use rg_base::control::{Answer, Command};
use rg_base::no_memory::NoMemory;
use std::alloc::Global;
use std::str;
use thiserror::Error;

/// The most bytes that the operator's file may have.
pub const OPERATOR_LIMIT: usize = 1_048_576;

/// Why the operator's file was not read.
#[derive(Clone, Copy, Debug, PartialEq, Eq, Error)]
pub enum OperatorFault {
    /// Line `number`, counted from 1, is the first that is no answer. It is 0 where the file is too
    /// long.
    #[error("line {number} of the operator's file is no answer")]
    Line { number: u32 },
    #[error("out of memory")]
    NoMemory,
}

/// The answers of the operator's file, one for each line. A file that is too long is refused before
/// its lines are read.
pub fn read_operator(alloc: Global, bytes: &[u8]) -> Result<Vec<Answer>, OperatorFault>
    ensures answers { IfOk result (λ answers. IsOperatorFile bytes.now answers.items) }
    ensures fault { IfErr result (RefusesFile bytes.now) }
    ensures long { (OPERATOR_LIMIT < length bytes.now) ↔ IsErrOf result (OperatorFault.Line 0) }
{
    if bytes.len() > OPERATOR_LIMIT {
        return Err(OperatorFault::Line { number: 0 });
    }
    let mut answers = Vec::new(alloc);
    let mut rest = bytes;
    let mut number: u32 = 0;
    while !rest.is_empty() {
        number += 1;
        let (line, after) = split_line(rest);
        match read_line(alloc, line) {
            Err(_) => return Err(OperatorFault::NoMemory),
            Ok(None) => return Err(OperatorFault::Line { number }),
            Ok(Some(answer)) => {
                if answers.push(answer).is_err() {
                    return Err(OperatorFault::NoMemory);
                }
            }
        }
        rest = after;
    }
    Ok(answers)
}

// The first line without its line feed, and what follows.
fn split_line(bytes: &[u8]) -> (&[u8], &[u8])
    ensures { CutsLine bytes.now result.0.now result.1.now }
{
    for (end, byte) in bytes.iter().enumerate() {
        if *byte == b'\n' {
            return (&bytes[..end], &bytes[end + 1..]);
        }
    }
    (bytes, &[])
}

// The answer of a line.
fn read_line(alloc: Global, line: &[u8]) -> Result<Option<Answer>, NoMemory>
    ensures { IfOk result (FindsAnswer line.now) }
{
    let Ok(text) = str::from_utf8(line) else {
        return Ok(None);
    };
    let words = split_words(alloc, text)?;
    Ok(read_answer(&words))
}

// The answer that words are.
fn read_answer(words: &[&str]) -> Option<Answer>
    ensures none { IfNone result ((answer : Answer) → IsAnswer (texts words.now) answer → ⊥) }
    ensures found { IfSome result (IsAnswer (texts words.now)) }
{
    let (now, rest) = words.split_first()?;
    let (estimate, rest) = rest.split_first()?;
    Some(Answer {
        now: read_seconds(now)?,
        estimate: read_seconds(estimate)?,
        command: read_command(rest)?,
    })
}

// The command that words are.
fn read_command(words: &[&str]) -> Option<Command>
    ensures none { IfNone result ((command : Command) → IsCommand command (texts words.now) → ⊥) }
    ensures found { IfSome result (λ command. IsCommand command (texts words.now)) }
{
    let Some((name, rest)) = words.split_first() else {
        return Some(Command::Nothing);
    };
    match *name {
        "TERM" if rest.is_empty() => Some(Command::Term),
        "ALTER" => read_alter(rest).ok().map(Command::Alter),
        _ => None,
    }
}
