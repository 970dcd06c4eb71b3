//! Plays a deck of statements, read from standard input or made of a seed, over the volume of the
//! folder that it runs in, and prints every reply, or sums them up; or prints the layout of that
//! volume.
#![tactic(auto)]

use cause::{Cause, Errors};
use edge::{Start, refuse, settle};
use rg_file::descriptors::HeldDescriptors;
use rg_file::faults::Faults;
use rg_file::operator::ClockOperator;
use rg_file::sink::OutputSink;
use rg_file::sizes::Sizes;
use rg_file::source::InputSource;
use rg_outside::operator::Operator;
use std::process::ExitCode;
use std::rt::Env;
use std::{env, io};
use top::reorg_main;

/// Why the program ended.
mod cause;
/// What is settled before the call.
mod edge;
/// Giving the output to the sink.
mod giving;
/// What a call comes to.
mod outcome;
/// Reading the deck from the source.
mod reading;
/// Reading the file of the volume's sizes.
mod sizes_file;
/// What is told of a run.
mod telling;
#[cfg(test)]
mod tests;
/// The public call.
mod top;
/// A call up to its output.
mod work;

// The words after the program's name. No command has a word that is not UTF-8, so where one stands
// there are no words: the call refuses them all the same.
fn words<R: Env + AllocGlobal>(rt: &R) -> io::Result<Vec<String>> {
    match env::args(rt) {
        Ok(args) => Ok(args.skip(1).collect(rt.alloc())?),
        Err(error) if error.kind() == io::ErrorKind::OutOfMemory => Err(error),
        Err(_) => Ok(Vec::new(rt.alloc())),
    }
}

// What comes before the call is in `edge.rt`, and what is said of its end in `cause.rt`. Out of
// memory before the call ends with status 8, as it does within.
fn main(rt: HostRuntime) -> ExitCode {
    let alloc = rt.alloc();
    // Before any other file is opened, and to the end.
    let held = HeldDescriptors::take(&rt);
    let mut source = InputSource::new(rt.stdin());
    let mut sink = OutputSink::new(rt.stdout());
    let mut faults = Faults::none();
    let (status, refusal, sizes, volume) = match settle(rt, alloc, &held, &mut faults) {
        Ok(
            Start {
                operator,
                sizes,
                volume,
            },
        ) => {
            let operator: Box<dyn Operator + Send> = match operator {
                Some(operator) => match Box::new(alloc, operator) {
                    Ok(operator) => operator,
                    Err(_) => return ExitCode::from(8),
                },
                None => match Box::new(alloc, ClockOperator::new(rt)) {
                    Ok(operator) => operator,
                    Err(_) => return ExitCode::from(8),
                },
            };
            let Ok(words) = words(&rt) else {
                return ExitCode::from(8);
            };
            let finished = reorg_main(&rt, alloc, &words, &mut source, &mut sink, volume, operator);
            (finished.status, None, sizes, finished.volume.last_error())
        }
        Err(refusal) => {
            let status = refuse(alloc, &mut sink, refusal);
            (status, Some(refusal), Sizes::standard(), None)
        }
    };
    let errors = Errors {
        files: faults.last(),
        source: source.last_error(),
        sink: sink.last_error(),
        sizes,
        volume,
    };
    if let Some(cause) = Cause::find(status, refusal, errors) {
        if let Ok(line) = cause.line(alloc) {
            // Where it fails there is nobody left to say it to.
            let _ = eprintln!(rt; "{line}");
        }
    }
    ExitCode::from(status)
}
