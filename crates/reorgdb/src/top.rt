// The program's call. All that it promises is in specs/Contract.antt.
ghost use Rattle.std.specs.Prelude.{◌+◌, map, string_bytes};
ghost use Rattle.reorgdb.specs.Answer.{seen, Concludes, Delivers, output_of};
ghost use Rattle.reorgdb.specs.Contract.{Completes};
ghost use Rattle.rg_run.specs.Asked.{HasAnswered, answers_in};
ghost use Rattle.reorgdb.specs.Reading.{TakesAtMost};
ghost use Rattle.reorgdb.specs.Traced.{Traced};

use crate::giving::give_output;
use crate::work::{Conclusion, carry_out};
use rg_deck::read::DECK_LIMIT;
use rg_desk::run::Run;
use rg_outside::operator::Operator;
use rg_outside::sink::Sink;
use rg_outside::source::Source;
use rg_outside::volume::Volume;
use rg_stmt::event::Entry;
use std::alloc::Global;
use std::rt::Clock;
use std::sync::Wait;
use std::thread::Threads;

/// What a call of the program leaves: its status, its trace, and the volume and the operator that
/// it was given.
#[derive(Drop)]
pub struct Finished<V> {
    pub status: u8,
    pub trace: Vec<Entry>,
    pub volume: V,
    pub operator: Box<dyn Operator + Send>,
}

/// The call of the program. For `play` it reads the whole deck from the source, opens the volume,
/// plays the deck over the table that the log stores, and gives the whole print to the sink. For
/// `judge` it does the same, and a last line says whether the trace is legal. For `gen` it makes
/// the deck, reads nothing, and gives a line that sums up the run. For `layout` it reads nothing,
/// opens the volume, and gives its layout in full. It does all that `reorg_alone` says, in one call
/// of it; no command uses the runtime yet.
pub fn reorg_main<R: Threads + Wait + Clock + Sync, S: Source, K: Sink, V: Volume + Send>(
    rt: &R,
    alloc: Global,
    words: &[String],
    source: &mut S,
    sink: &mut K,
    volume: V,
    operator: Box<dyn Operator + Send>,
) -> Finished<V>
    ensures completes { Completes (map string_bytes words.now)
        (seen S.left S.faults source.old) (seen S.left S.faults source.new)
        (seen K.contents K.faults sink.old) (seen K.contents K.faults sink.new)
        (V.seen volume) (V.seen result.volume) result.status result.trace.items }
    // The operator was asked for the entries that have its answer, and for no other.
    ensures asked { HasAnswered ((Operator-box operator).answers operator.value)
        (answers_in result.trace.items)
        ((Operator-box result.operator).answers result.operator.value) }
{
    reorg_alone(alloc, words, source, sink, volume, operator)
}

/// The same, on one thread and without a runtime, so it returns.
pub fn reorg_alone<S: Source, K: Sink, V: Volume + Send>(
    alloc: Global,
    words: &[String],
    source: &mut S,
    sink: &mut K,
    volume: V,
    operator: Box<dyn Operator + Send>,
) -> Finished<V>
    ensures completes { Completes (map string_bytes words.now)
        (seen S.left S.faults source.old) (seen S.left S.faults source.new)
        (seen K.contents K.faults sink.old) (seen K.contents K.faults sink.new)
        (V.seen volume) (V.seen result.volume) result.status result.trace.items }
    // The operator was asked for the entries that have its answer, and for no other.
    ensures asked { HasAnswered ((Operator-box operator).answers operator.value)
        (answers_in result.trace.items)
        ((Operator-box result.operator).answers result.operator.value) }
{
    let run = answer(alloc, words, source, sink, volume, operator);
    let Run {
        volume,
        operator,
        trace,
        end: status,
    } = run;
    Finished {
        status,
        trace,
        volume,
        operator,
    }
}

// Gives the output, and returns the status.
fn deliver<K: Sink>(sink: &mut K, told: &Conclusion) -> u8
    ensures delivered { Delivers told.now.outcome (output_of told.now.outcome told.now.text)
        (seen K.contents K.faults sink.old) (seen K.contents K.faults sink.new) result }
{
    give_output(sink, told.output(), told.outcome.status())
}

// Reads, plays and gives. The operator is of any type.
fn answer<S: Source, K: Sink, V: Volume, O: Operator>(
    alloc: Global,
    words: &[String],
    source: &mut S,
    sink: &mut K,
    volume: V,
    operator: O,
) -> Run<V, O, u8>
    ensures concludes { Concludes (map string_bytes words.now)
        (seen S.left S.faults source.old) (seen S.left S.faults source.new)
        (seen K.contents K.faults sink.old) (seen K.contents K.faults sink.new)
        (V.seen volume) (V.seen result.volume) result.end result.trace.items }
    ensures traced { Traced (V.seen volume) (V.seen result.volume) result.trace.items }
    ensures bounded { TakesAtMost (DECK_LIMIT + 1) (S.left source.old) (S.left source.new) }
    ensures asked { HasAnswered (O.answers operator) (answers_in result.trace.items)
        (O.answers result.operator) }
{
    let work = carry_out(alloc, words, source, volume, operator);
    let status = deliver(sink, &work.end);
    work.ended(status)
}
