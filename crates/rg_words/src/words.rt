// How the words after the program's name ask for a command.
//
// 1. The first word names the command. The other words are its options.
// 2. An option is its name and its value: two words, or one word in which `=` joins them. A name
//    never has a `=`, so the first `=` is the one that joins.
// 3. `play` and `threads` take `--layout brief` or `--layout full`; without it the layout is brief.
// 4. `gen` takes `--seed n` and `--rows m`, both, in either order. n is 0 to 18446744073709551615
//    and m is 1 to 20000; both are decimal digits, without a sign or a leading zero.
// 5. `judge` and `layout` take no option. No option stands twice, and there are no other words.
ghost use Rattle.std.specs.Prelude.{ℕ, ◌≡◌, ◌≢◌, ◌≤◌, Bool, IfOk, OnErr, IfSome, IfNone, IsTrue};
ghost use Rattle.std.specs.Prelude.{◌↔◌, map, string_bytes};
ghost use Rattle.std.specs.Fmt.{decimal};
ghost use Rattle.rg_words.specs.Spelling.{IsLayout, IsSize, Spells, IsAdmitted};
ghost use Rattle.rg_words.specs.declared.words.Words.{Words};

use crate::option::{only_option, take_option};
use rg_base::number::read_number;
use thiserror::Error;

/// A command, with its options.
#[derive(Clone, Copy, Debug, PartialEq, Eq)]
pub enum Words {
    /// Plays the deck. `full` asks for each spot and index entry of a layout.
    Play { full: bool },
    /// Plays the deck, with a thread for each session.
    Threads { full: bool },
    /// Plays a deck that is made from `seed`, with `rows` inserts.
    Gen { seed: u64, rows: u32 },
    /// Plays the deck, and says whether its trace is legal.
    Judge,
    /// Prints the layout of the volume.
    Layout,
}

/// Which commands a caller plays. Each variant admits what those above it do, and one command more.
#[derive(Clone, Copy, Debug, PartialEq, Eq)]
pub enum Admits {
    /// `play` only, with either layout.
    Play,
    /// `layout` too.
    Layout,
    /// `judge` too.
    Judge,
    /// `gen` too.
    Gen,
    /// Each command: `threads` too.
    Every,
}

/// Why words were not read. Reading takes no memory, so there is no variant for that.
#[derive(Clone, Copy, Debug, PartialEq, Eq, Error)]
pub enum WordsFault {
    /// The words ask for no command, or for one that is not admitted.
    #[error("the words name no command")]
    Unknown,
}

/// The command that the words ask for, of all commands. It takes no memory.
pub fn read_words(words: &[String]) -> Result<Words, WordsFault>
    ensures command { IfOk result (λ asked. Spells asked (map string_bytes words.now)) }
    ensures unknown { OnErr result ((asked : Words) →
        Spells asked (map string_bytes words.now) → ⊥) }
{
    read_admitted(words, Admits::Every)
}

/// The command that the words ask for, where the caller plays it. It takes no memory.
pub fn read_admitted(words: &[String], admits: Admits) -> Result<Words, WordsFault>
    ensures command { IfOk result (λ asked.
        Spells asked (map string_bytes words.now) × IsAdmitted admits asked) }
    ensures unknown { OnErr result ((asked : Words) → Spells asked (map string_bytes words.now) →
        IsAdmitted admits asked → ⊥) }
{
    match read_command(words) {
        Some(asked) if is_admitted(admits, asked) => Ok(asked),
        _ => Err(WordsFault::Unknown),
    }
}

fn is_admitted(admits: Admits, asked: Words) -> bool
    ensures { IsTrue result ↔ IsAdmitted admits asked }
{
    match asked {
        Words::Play { .. } => true,
        Words::Layout => admits != Admits::Play,
        Words::Judge => !matches!(admits, Admits::Play | Admits::Layout),
        Words::Gen { .. } => matches!(admits, Admits::Gen | Admits::Every),
        Words::Threads { .. } => admits == Admits::Every,
    }
}

fn read_command(words: &[String]) -> Option<Words>
    ensures none { IfNone result ((asked : Words) → Spells asked (map string_bytes words.now) → ⊥) }
    ensures found { IfSome result (λ asked. Spells asked (map string_bytes words.now)) }
{
    let (command, options) = words.split_first()?;
    match command.as_str() {
        "play" => Some(Words::Play {
            full: read_layout(options)?,
        }),
        "threads" => Some(Words::Threads {
            full: read_layout(options)?,
        }),
        "gen" => {
            let (seed, rows) = read_size(options)?;
            Some(Words::Gen { seed, rows })
        }
        "judge" if options.is_empty() => Some(Words::Judge),
        "layout" if options.is_empty() => Some(Words::Layout),
        _ => None,
    }
}

// Whether the layout is to be full.
fn read_layout(options: &[String]) -> Option<bool>
    ensures none { IfNone result ((full : Bool) →
        IsLayout full (map string_bytes options.now) → ⊥) }
    ensures found { IfSome result (λ full. IsLayout full (map string_bytes options.now)) }
{
    if options.is_empty() {
        return Some(false);
    }
    match only_option(options, "--layout")? {
        "brief" => Some(false),
        "full" => Some(true),
        _ => None,
    }
}

// The seed and the number of rows.
fn read_size(options: &[String]) -> Option<(u64, u32)>
    ensures none { IfNone result ((seed rows : ℕ) →
        IsSize seed rows (map string_bytes options.now) → ⊥) }
    ensures found { IfSome result (λ size. IsSize size.0 size.1 (map string_bytes options.now)) }
{
    if let Some((seed, rest)) = take_option(options, "--seed") {
        let rows = only_option(rest, "--rows")?;
        return Some((read_number(seed)?, read_rows(rows)?));
    }
    let (rows, rest) = take_option(options, "--rows")?;
    let seed = only_option(rest, "--seed")?;
    Some((read_number(seed)?, read_rows(rows)?))
}

fn read_rows(word: &str) -> Option<u32>
    ensures none { IfNone result ((rows : ℕ) → 1 ≤ rows → rows ≤ 20000 → word.now ≢ decimal rows) }
    ensures found { IfSome result (λ rows.
        (1 ≤ rows) × (rows ≤ 20000) × (word.now ≡ decimal rows)) }
{
    match read_number(word)? {
        rows @ 1..=20_000 => Some(rows as u32),
        _ => None,
    }
}
