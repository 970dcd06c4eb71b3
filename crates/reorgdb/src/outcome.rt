// What a call comes to: its status, and the text of its refusal. Both are in specs/Refusals.antt.
ghost use Rattle.std.specs.Prelude.{◌≡◌, IfOk};
ghost use Rattle.rg_print.specs.Print.{damaged_text};
ghost use Rattle.reorgdb.specs.Refusals.{status_of, fixed_text, deck_refusal};

use rg_base::bytes::Bytes;
use rg_base::no_memory::NoMemory;
use rg_base::set::Set;
use rg_print::print::push_damaged;
use std::alloc::Global;
use std::io::Write;

/// What a call comes to, before its output is given.
#[derive(Clone, Copy, Debug, PartialEq, Eq)]
pub enum Outcome {
    /// The deck was read to its end, or made, and played. Status 0.
    Played,
    /// The same, and the device refused a COMMIT or the switch to a new copy; or the device failed
    /// in the opening after a death of the process, and the lines before were played. Status 6.
    Down,
    /// The volume was opened and its layout made. Status 0.
    Shown,
    /// The words are not those of a command. Status 1.
    Words,
    /// Line `line` of the deck, counted from 1, is the first that is outside the grammar. Status 2.
    Deck { line: u32 },
    /// The source failed. Status 3.
    Source,
    /// This page of the volume breaks a rule of a sound volume. Status 5.
    Damaged { set: Set, page: u32 },
    /// A call of the volume failed in the first opening. Status 6.
    Device,
    /// The deck is longer than its limit. Status 7.
    Long,
    /// Out of memory. Status 8.
    NoMemory,
}

impl Outcome {
    pub fn status(self) -> u8
        ensures { result ≡ status_of self }
    {
        match self {
            Outcome::Played | Outcome::Shown => 0,
            Outcome::Words => 1,
            Outcome::Deck { .. } => 2,
            Outcome::Source => 3,
            Outcome::Damaged { .. } => 5,
            Outcome::Down | Outcome::Device => 6,
            Outcome::Long => 7,
            Outcome::NoMemory => 8,
        }
    }

    /// The whole output of a refusal that has no number in it. The other outcomes have no such
    /// text.
    pub fn fixed_text(self) -> &'static [u8]
        ensures { result.now ≡ fixed_text self }
    {
        match self {
            Outcome::Words => b"REFUSED words\n",
            Outcome::Source => b"REFUSED source\n",
            Outcome::Device => b"REFUSED volume device\n",
            Outcome::Long => b"REFUSED deck long\n",
            Outcome::Played
            | Outcome::Down
            | Outcome::Shown
            | Outcome::Deck { .. }
            | Outcome::Damaged { .. }
            | Outcome::NoMemory => b"",
        }
    }
}

/// The whole output of the refusal of a deck.
pub fn deck_refusal(alloc: Global, line: u32) -> Result<Bytes, NoMemory>
    ensures { IfOk result (λ text. text ≡ deck_refusal line) }
{
    let mut out = Vec::new(alloc);
    match writeln!(out, "REFUSED deck line {line}") {
        Ok(()) => Ok(Bytes::new(out)),
        Err(_) => Err(NoMemory),
    }
}

/// The whole output of the refusal of a volume by this page.
pub fn damaged_refusal(alloc: Global, set: Set, page: u32) -> Result<Bytes, NoMemory>
    ensures { IfOk result (λ text. text ≡ damaged_text set page) }
{
    let mut out = Vec::new(alloc);
    push_damaged(&mut out, set, page)?;
    Ok(Bytes::new(out))
}
