// How the output is given to the sink.
// (1) What a call didn't take is given again by the next one.
// (2) A call that fails, or that takes nothing of what is left, is the last.
// (3) The status is the one that is due where the whole output was given. It is 4 where the sink
//     failed, and 8 where it ran out of memory.
ghost use Rattle.std.specs.Prelude.{◌≤◌};
ghost use Rattle.reorgdb.specs.Giving.{Gives, GivesOutput};

use rg_outside::sink::{GiveFault, Sink};

/// How far a text was given.
#[derive(Clone, Copy, Debug, PartialEq, Eq)]
pub enum Given {
    /// The sink got the whole text.
    Whole,
    /// The sink failed, or took nothing of what was left. It got a prefix of the text.
    Failed,
    /// Out of memory. The sink got a prefix of the text.
    NoMemory,
}

/// Gives a text to a sink, in as many calls as it takes.
pub fn give_all<K: Sink>(sink: &mut K, text: &[u8]) -> Given
    ensures gives { Gives text.now (K.contents sink.old) (K.contents sink.new) (K.faults sink.old)
        (K.faults sink.new) result }
    ensures later { K.faults sink.old ≤ K.faults sink.new }
{
    let mut rest = text;
    while !rest.is_empty() {
        match sink.give(rest) {
            Ok(0) | Err(GiveFault::Failed) => return Given::Failed,
            Ok(n) => rest = rest.split_at(n).1,
            Err(GiveFault::NoMemory) => return Given::NoMemory,
        }
    }
    Given::Whole
}

/// Gives the whole output, and returns the status, which is `due` where the sink got all of it.
pub fn give_output<K: Sink>(sink: &mut K, output: &[u8], due: u8) -> u8
    ensures { GivesOutput due output.now (K.contents sink.old) (K.contents sink.new)
        (K.faults sink.old) (K.faults sink.new) result }
{
    match give_all(sink, output) {
        Given::Whole => due,
        Given::Failed => 4,
        Given::NoMemory => 8,
    }
}
