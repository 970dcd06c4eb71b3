// A call up to its output.
// (1) The words are looked at first. Where they ask for neither `play` nor `judge`, the source is
//     not read.
// (2) The whole deck is read before any line of it is played. For `gen` it is made, not read.
// (3) The whole output is made before any of it is given.
// (4) The volume is opened after the deck was read or made, and before any line is played. A call
//     that is refused before calls it not.
// (5) The judge is asked where what it says is told, and not for `play`.
// (6) A layout that is asked for is the one of a deck of a single line `L`, in full.
ghost use Rattle.std.specs.Prelude.{ℕ, ◌≡◌, ◌≢◌, ◌≤◌, ◌+◌, [], ◌∷◌, List, length, map, IfOk};
ghost use Rattle.std.specs.Prelude.{OnErr, string_bytes};
ghost use Rattle.std.specs.List.{AllByRecursion};
ghost use Rattle.rg_stmt.specs.declared.line.Line.{Line};
ghost use Rattle.rg_outside.specs.Volume.{VolumeSeen};
ghost use Rattle.rg_gen.specs.Deck.{deck_of};
ghost use Rattle.rg_run.specs.Asked.{HasAnswered, answers_in};
ghost use Rattle.rg_run.specs.Outside.{IsEnd};
ghost use Rattle.rg_run.specs.Shown.{ShowsOpened};
ghost use Rattle.rg_run.specs.Played.{IsPlayed};
ghost use Rattle.rg_run.specs.Table.{Ends};
ghost use Rattle.rg_run.specs.Whole.{Whole};
ghost use Rattle.reorgdb.specs.Answer.{AsksDeck, Seen, seen, IsShow, IsRefusedAt, DealsWithLines};
ghost use Rattle.reorgdb.specs.Answer.{Comes, DealsWithBytes, Finds, IsLayoutText, PlaysTo};
ghost use Rattle.reorgdb.specs.Answer.{ShowsTo, output_of};
ghost use Rattle.reorgdb.specs.Reading.{TakesAtMost};
ghost use Rattle.reorgdb.specs.Telling.{IsTold};
ghost use Rattle.reorgdb.specs.Traced.{Traced};
ghost use Rattle.reorgdb.specs.declared.telling.Tells.{Tells};

use crate::outcome::{Outcome, damaged_refusal, deck_refusal};
use crate::reading::{ReadFault, read_source};
use crate::telling::{Tells, run_text};
use rg_base::bytes::Bytes;
use rg_base::no_memory::NoMemory;
use rg_deck::read::{DECK_LIMIT, DeckFault, read_deck};
use rg_desk::run::Run;
use rg_gen::make::{ROWS_LIMIT, make};
use rg_outside::operator::Operator;
use rg_outside::source::Source;
use rg_outside::volume::Volume;
use rg_print::print::{Close, print_layout};
use rg_run::played::{Judged, JudgedEnd, Played, RunEnd};
use rg_run::run::{run, run_judged};
use rg_stmt::event::{Entry, Event};
use rg_stmt::line::Line;
use rg_words::words;
use rg_words::words::{Words, WordsFault};
use std::alloc::Global;

/// What a call comes to before its output is given, and the text of the run or of the refusal of a
/// deck.
#[derive(Drop)]
pub struct Conclusion {
    pub outcome: Outcome,
    pub text: Bytes,
}

impl Conclusion {
    // The outcome, and no text. It takes no memory.
    fn bare(alloc: Global, outcome: Outcome) -> Conclusion
        ensures { result.outcome ≡ outcome }
    {
        Conclusion {
            outcome,
            text: Bytes::new(Vec::new(alloc)),
        }
    }

    // The outcome with its text, or out of memory where there was none for the text.
    fn with_text(alloc: Global, outcome: Outcome, text: Result<Bytes, NoMemory>) -> Conclusion
        ensures ok { IfOk text (λ made. (result.outcome ≡ outcome) × (result.text ≡ made)) }
        ensures err { OnErr text (result.outcome ≡ Outcome.NoMemory) }
    {
        match text {
            Ok(text) => Conclusion { outcome, text },
            Err(_) => Conclusion::bare(alloc, Outcome::NoMemory),
        }
    }

    /// The whole output.
    pub fn output(&self) -> &[u8]
        ensures { result.now ≡ output_of self.now.outcome self.now.text }
    {
        match self.outcome {
            Outcome::Played
            | Outcome::Down
            | Outcome::Shown
            | Outcome::Deck { .. }
            | Outcome::Damaged { .. } => self.text.as_slice(),
            other => other.fixed_text(),
        }
    }
}

/// A call before its output is given.
pub type Work<V, O> = Run<V, O, Conclusion>;

// A call in which no volume was opened. It takes no memory.
fn bare<V, O>(alloc: Global, outcome: Outcome, volume: V, operator: O) -> Work<V, O>
    ensures outcome { result.end.outcome ≡ outcome }
    ensures trace { result.trace.items ≡ [] }
    ensures volume { result.volume ≡ volume }
    ensures operator { result.operator ≡ operator }
{
    Run {
        volume,
        operator,
        trace: Vec::new(alloc),
        end: Conclusion::bare(alloc, outcome),
    }
}

/// Reads the words. For `play` and `judge` it reads the whole deck and plays it, for `gen` it makes
/// the deck and plays it, and for `layout` it opens the volume and makes its layout.
pub fn carry_out<S: Source, V: Volume, O: Operator>(
    alloc: Global,
    words: &[String],
    source: &mut S,
    volume: V,
    operator: O,
) -> Work<V, O>
    ensures comes { Comes result.end.outcome (map string_bytes words.now)
        (seen S.left S.faults source.old) (seen S.left S.faults source.new)
        (V.seen volume) (V.seen result.volume) result.trace.items result.end.text }
    ensures traced { Traced (V.seen volume) (V.seen result.volume) result.trace.items }
    ensures bounded { TakesAtMost (DECK_LIMIT + 1) (S.left source.old) (S.left source.new) }
    ensures later { S.faults source.old ≤ S.faults source.new }
    ensures finds { Finds result.end.outcome (V.seen volume) (V.seen result.volume)
        result.trace.items }
    ensures asked { HasAnswered (O.answers operator) (answers_in result.trace.items)
        (O.answers result.operator) }
{
    match words::read_admitted(words, words::Admits::Gen) {
        Ok(Words::Play { full }) => {
            play_source(alloc, Tells::Print { full }, source, volume, operator)
        }
        Ok(Words::Judge) => play_source(alloc, Tells::Verdict, source, volume, operator),
        Ok(Words::Gen { seed, rows }) => play_made(alloc, seed, rows, volume, operator),
        Ok(Words::Layout) => show_layout(alloc, volume, operator),
        Ok(Words::Threads { .. }) => unreachable!(),
        Err(WordsFault::Unknown) => bare(alloc, Outcome::Words, volume, operator),
    }
}

// Reads the whole deck, and plays it.
fn play_source<S: Source, V: Volume, O: Operator>(
    alloc: Global,
    tells: Tells,
    source: &mut S,
    volume: V,
    operator: O,
) -> Work<V, O>
    ensures plays { (words : List (List ℕ)) → AsksDeck tells words
        → PlaysTo result.end.outcome words
        (seen S.left S.faults source.old) (seen S.left S.faults source.new)
        (V.seen volume) (V.seen result.volume) result.trace.items result.end.text }
    ensures traced { Traced (V.seen volume) (V.seen result.volume) result.trace.items }
    ensures bounded { TakesAtMost (DECK_LIMIT + 1) (S.left source.old) (S.left source.new) }
    ensures later { S.faults source.old ≤ S.faults source.new }
    ensures finds { Finds result.end.outcome (V.seen volume) (V.seen result.volume)
        result.trace.items }
    ensures asked { HasAnswered (O.answers operator) (answers_in result.trace.items)
        (O.answers result.operator) }
{
    match read_source(alloc, source) {
        Ok(bytes) => play_bytes(alloc, tells, &bytes, volume, operator),
        Err(ReadFault::Failed) => bare(alloc, Outcome::Source, volume, operator),
        Err(ReadFault::Long) => bare(alloc, Outcome::Long, volume, operator),
        Err(ReadFault::NoMemory) => bare(alloc, Outcome::NoMemory, volume, operator),
    }
}

fn play_bytes<V: Volume, O: Operator>(
    alloc: Global,
    tells: Tells,
    bytes: &[u8],
    volume: V,
    operator: O,
) -> Work<V, O>
    requires { length bytes.now ≤ DECK_LIMIT }
    ensures deals { DealsWithBytes tells (V.seen volume)
        (V.seen result.volume) bytes.now result.end.outcome result.trace.items result.end.text }
    ensures traced { Traced (V.seen volume) (V.seen result.volume) result.trace.items }
    ensures finds { Finds result.end.outcome (V.seen volume) (V.seen result.volume)
        result.trace.items }
    ensures asked { HasAnswered (O.answers operator) (answers_in result.trace.items)
        (O.answers result.operator) }
{
    match read_deck(alloc, bytes) {
        Ok(lines) => play_lines(alloc, tells, volume, operator, lines),
        Err(DeckFault::Line { number }) => refuse_line(alloc, number, volume, operator),
        Err(DeckFault::NoMemory) => bare(alloc, Outcome::NoMemory, volume, operator),
    }
}

// Makes the deck of a seed and a number of rows, and plays it.
fn play_made<V: Volume, O: Operator>(
    alloc: Global,
    seed: u64,
    rows: u32,
    volume: V,
    operator: O,
) -> Work<V, O>
    requires least { 1 ≤ rows }
    requires greatest { rows ≤ ROWS_LIMIT }
    ensures deals { DealsWithLines (Tells.Summary seed rows)
        (V.seen volume) (V.seen result.volume) (deck_of seed rows)
        result.end.outcome result.trace.items result.end.text }
    ensures traced { Traced (V.seen volume) (V.seen result.volume) result.trace.items }
    ensures finds { Finds result.end.outcome (V.seen volume) (V.seen result.volume)
        result.trace.items }
    ensures asked { HasAnswered (O.answers operator) (answers_in result.trace.items)
        (O.answers result.operator) }
{
    match make(alloc, seed, rows) {
        Ok(lines) => {
            play_lines(
                alloc,
                Tells::Summary { seed, rows },
                volume,
                operator,
                lines,
            )
        }
        Err(_) => bare(alloc, Outcome::NoMemory, volume, operator),
    }
}

// Plays the lines, and makes the text of their run.
fn play_lines<V: Volume, O: Operator>(
    alloc: Global,
    tells: Tells,
    volume: V,
    operator: O,
    lines: Vec<Line>,
) -> Work<V, O>
    requires { AllByRecursion IsPlayed lines.items }
    ensures deals { DealsWithLines tells (V.seen volume)
        (V.seen result.volume) lines.items result.end.outcome result.trace.items result.end.text }
    ensures traced { Traced (V.seen volume) (V.seen result.volume) result.trace.items }
    ensures finds { Finds result.end.outcome (V.seen volume) (V.seen result.volume)
        result.trace.items }
    ensures asked { HasAnswered (O.answers operator) (answers_in result.trace.items)
        (O.answers result.operator) }
{
    tell_run(
        alloc,
        tells,
        run_lines(alloc, tells, volume, operator, lines),
    )
}

// The run of the lines. Its trace is judged where it is told what the judge says of it.
fn run_lines<V: Volume, O: Operator>(
    alloc: Global,
    tells: Tells,
    volume: V,
    operator: O,
    lines: Vec<Line>,
) -> Judged<V, O>
    requires { AllByRecursion IsPlayed lines.items }
    ensures whole { Whole (V.seen volume) (V.seen result.volume) lines.items
        result.trace.items result.end.end }
    ensures asked { HasAnswered (O.answers operator) (answers_in result.trace.items)
        (O.answers result.operator) }
    ensures told { result.end.end ≢ RunEnd.NoMemory
        → IsTold tells (V.seen volume) (V.seen result.volume)
        result.trace.items result.end.verdict }
{
    match tells {
        Tells::Print { .. } => {
            let played = run(alloc, volume, operator, lines);
            let end = JudgedEnd {
                end: played.end,
                verdict: None,
            };
            played.ended(end)
        }
        Tells::Verdict | Tells::Summary { .. } => run_judged(alloc, volume, operator, lines),
    }
}

// Opens the volume and makes its layout, which is that of a deck of one line.
fn show_layout<V: Volume, O: Operator>(alloc: Global, volume: V, operator: O) -> Work<V, O>
    ensures shows { (words : List (List ℕ)) (source : Seen) → IsShow words
        → ShowsTo result.end.outcome words source source
        (V.seen volume) (V.seen result.volume) result.trace.items result.end.text }
    ensures traced { Traced (V.seen volume) (V.seen result.volume) result.trace.items }
    ensures finds { Finds result.end.outcome (V.seen volume) (V.seen result.volume)
        result.trace.items }
    ensures asked { HasAnswered (O.answers operator) (answers_in result.trace.items)
        (O.answers result.operator) }
{
    let mut lines = Vec::new(alloc);
    match lines.push(Line::Show) {
        Ok(()) => print_shown(alloc, run(alloc, volume, operator, lines)),
        Err(_) => bare(alloc, Outcome::NoMemory, volume, operator),
    }
}

// The refusal of a deck by the number of a line.
fn refuse_line<V, O>(alloc: Global, line: u32, volume: V, operator: O) -> Work<V, O>
    ensures deals { (tells : Tells) (before after : VolumeSeen) (bytes : List ℕ)
        → IsRefusedAt bytes line
        → DealsWithBytes tells before after bytes result.end.outcome result.trace.items
        result.end.text }
    ensures outcome { (before : VolumeSeen) (trace : List Entry)
        → Finds result.end.outcome before before trace }
    ensures trace { result.trace.items ≡ [] }
    ensures volume { result.volume ≡ volume }
    ensures operator { result.operator ≡ operator }
{
    match deck_refusal(alloc, line) {
        Ok(text) => Run {
            volume,
            operator,
            trace: Vec::new(alloc),
            end: Conclusion {
                outcome: Outcome::Deck { line },
                text,
            },
        },
        Err(_) => bare(alloc, Outcome::NoMemory, volume, operator),
    }
}

// The text of a run, by what is to be told of it.
fn tell_run<V, O>(alloc: Global, tells: Tells, judged: Judged<V, O>) -> Work<V, O>
    ensures deals { (before after : VolumeSeen) (lines : List Line)
        → Ends before after lines judged.trace.items judged.end.end
        → IsEnd before after judged.trace.items judged.end.end
        → (judged.end.end ≢ RunEnd.NoMemory
        → IsTold tells before after judged.trace.items judged.end.verdict)
        → DealsWithLines tells before after lines result.end.outcome result.trace.items
        result.end.text }
    ensures finds { (before after : VolumeSeen)
        → IsEnd before after judged.trace.items judged.end.end
        → Finds result.end.outcome before after result.trace.items }
    ensures trace { result.trace.items ≡ judged.trace.items }
    ensures volume { result.volume ≡ judged.volume }
    ensures operator { result.operator ≡ judged.operator }
{
    let JudgedEnd { end, verdict } = judged.end;
    let conclusion = conclude(alloc, tells, &judged.trace, end, verdict);
    judged.ended(conclusion)
}

// What the trace of a run and its end come to.
fn conclude(
    alloc: Global,
    tells: Tells,
    trace: &[Entry],
    end: RunEnd,
    verdict: Option<usize>,
) -> Conclusion
    ensures deals { (before after : VolumeSeen) (lines : List Line)
        → Ends before after lines trace.now end → IsEnd before after trace.now end
        → (end ≢ RunEnd.NoMemory → IsTold tells before after trace.now verdict)
        → DealsWithLines tells before after lines result.outcome trace.now result.text }
    ensures finds { (before after : VolumeSeen) → IsEnd before after trace.now end
        → Finds result.outcome before after trace.now }
{
    match end {
        RunEnd::NoMemory => Conclusion::bare(alloc, Outcome::NoMemory),
        RunEnd::DeviceAtOpening => {
            // In the first opening nothing was played. After a death it is told what was.
            if trace.is_empty() {
                return Conclusion::bare(alloc, Outcome::Device);
            }
            let text = run_text(alloc, tells, trace, Close::Down, verdict);
            Conclusion::with_text(alloc, Outcome::Down, text)
        }
        RunEnd::Damaged { set, page } => {
            let outcome = Outcome::Damaged { set, page };
            if trace.is_empty() {
                let text = damaged_refusal(alloc, set, page);
                return Conclusion::with_text(alloc, outcome, text);
            }
            let text = run_text(alloc, tells, trace, Close::Damaged { set, page }, verdict);
            Conclusion::with_text(alloc, outcome, text)
        }
        RunEnd::Down => {
            let text = run_text(alloc, tells, trace, Close::Down, verdict);
            Conclusion::with_text(alloc, Outcome::Down, text)
        }
        RunEnd::Whole { rows } => {
            let text = run_text(alloc, tells, trace, Close::Rows(rows), verdict);
            Conclusion::with_text(alloc, Outcome::Played, text)
        }
    }
}

// A run of one line, which asks for the layout. That run does not end down.
fn print_shown<V, O>(alloc: Global, played: Played<V, O>) -> Work<V, O>
    ensures shows { (before after : VolumeSeen) (words : List (List ℕ)) (source : Seen)
        → Ends before after (Line.Show ∷ []) played.trace.items played.end
        → ShowsOpened before after played.trace.items → IsShow words
        → ShowsTo result.end.outcome words source source before after result.trace.items
        result.end.text }
    ensures finds { (before after : VolumeSeen)
        → Ends before after (Line.Show ∷ []) played.trace.items played.end
        → IsEnd before after played.trace.items played.end
        → Finds result.end.outcome before after result.trace.items }
    ensures trace { result.trace.items ≡ played.trace.items }
    ensures volume { result.volume ≡ played.volume }
    ensures operator { result.operator ≡ played.operator }
{
    let conclusion = conclude_shown(alloc, &played.trace, played.end);
    played.ended(conclusion)
}

// What the trace of a run of one line that asks for the layout, and its end, come to.
fn conclude_shown(alloc: Global, trace: &[Entry], end: RunEnd) -> Conclusion
    ensures shows { (before after : VolumeSeen) (words : List (List ℕ)) (source : Seen)
        → Ends before after (Line.Show ∷ []) trace.now end → ShowsOpened before after trace.now
        → IsShow words
        → ShowsTo result.outcome words source source before after trace.now result.text }
    ensures finds { (before after : VolumeSeen)
        → Ends before after (Line.Show ∷ []) trace.now end → IsEnd before after trace.now end
        → Finds result.outcome before after trace.now }
{
    match end {
        RunEnd::NoMemory => Conclusion::bare(alloc, Outcome::NoMemory),
        RunEnd::DeviceAtOpening | RunEnd::Down => Conclusion::bare(alloc, Outcome::Device),
        RunEnd::Damaged { set, page } => {
            let text = damaged_refusal(alloc, set, page);
            Conclusion::with_text(alloc, Outcome::Damaged { set, page }, text)
        }
        RunEnd::Whole { .. } => {
            let text = layout_text(alloc, trace);
            Conclusion::with_text(alloc, Outcome::Shown, text)
        }
    }
}

// The layout in full that a trace of an opening and a layout has. There is none where there was no
// memory for it.
fn layout_text(alloc: Global, trace: &[Entry]) -> Result<Bytes, NoMemory>
    ensures { IfOk result (λ text. IsLayoutText trace.now text) }
{
    match trace {
        [_, entry] => match &entry.event {
            Event::Layout { copy, side } => print_layout(alloc, *copy, side),
            _ => Err(NoMemory),
        },
        _ => Err(NoMemory),
    }
}
