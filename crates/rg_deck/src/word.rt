// Words of a line.
//
// 1. One space parts two words, so no word has one.
// 2. A number has one spelling: decimal digits, no sign, and no zero before another digit.
// 3. A text that is empty or has only `-` is written with one `-` more. So each text has one
//    spelling, and no word is empty.
ghost use Rattle.std.specs.Prelude.{ℕ, List, ◌≡◌, ◌≢◌, ◌<◌, ◌^◌, ◌++◌, ◌∷◌, ◌↔◌, MatchOption};
ghost use Rattle.std.specs.Prelude.{IsTrue, IfOk, IfSome, IfNone};
ghost use Rattle.std.specs.Fmt.{decimal};
ghost use Rattle.rg_base.specs.Text.{IsText};
ghost use Rattle.rg_base.specs.Words.{text_word};
ghost use Rattle.rg_deck.specs.Reading.{Lacks, Finds, BeginsWithNumber, IsRange};

use rg_base::no_memory::NoMemory;
use rg_base::number::read_digits;
use rg_base::text::{TEXT_LIMIT, Text, is_dashes};
use std::alloc::Global;

/// The bytes before the first `mark`, and those after it.
pub fn split_at_byte(bytes: &[u8], mark: u8) -> Option<(&[u8], &[u8])>
    ensures none { IfNone result (Lacks mark bytes.now) }
    ensures front { IfSome result (λ parts. Lacks mark parts.0.now) }
    ensures whole { IfSome result (λ parts. bytes.now ≡ parts.0.now ++ mark ∷ parts.1.now) }
{
    for (i, byte) in bytes.iter().enumerate() {
        if *byte == mark {
            return Some((&bytes[..i], &bytes[i + 1..]));
        }
    }
    None
}

/// A number without a sign or a leading zero.
pub fn read_number(word: &[u8]) -> Option<u64>
    ensures { Finds (λ n. n < 2 ^ 64) decimal word.now result }
{
    read_digits(word)
}

/// A number and what stands behind the space after it.
#[tactic(auto, using(crate::proofs::Words::no_number_lacks))]
pub fn split_number(bytes: &[u8]) -> Option<(u64, &[u8])>
    ensures none { IfNone result ((n : ℕ) (rest : List ℕ) → BeginsWithNumber bytes.now n rest → ⊥) }
    ensures found { IfSome result (λ found. BeginsWithNumber bytes.now found.0 found.1.now) }
{
    let (word, rest) = split_at_byte(bytes, b' ')?;
    Some((read_number(word)?, rest))
}

/// Two numbers.
pub fn read_range(bytes: &[u8]) -> Option<(u64, u64)>
    ensures none { IfNone result ((lo hi : ℕ) → IsRange bytes.now lo hi → ⊥) }
    ensures found { IfSome result (λ range. IsRange bytes.now range.0 range.1) }
{
    let (lo, rest) = split_number(bytes)?;
    Some((lo, read_number(rest)?))
}

// The bytes are a text.
fn is_text(bytes: &[u8]) -> bool
    ensures { IsTrue result ↔ IsText bytes.now }
{
    bytes.len() <= TEXT_LIMIT && bytes.iter().all(|byte| matches!(byte, b'!'..=b'~'))
}

// The bytes that this word is of: its own, or all but the first where each is `-`.
#[tactic(auto, using(crate::proofs::Words::dashes_but_one))]
fn unescape(word: &[u8]) -> Option<&[u8]>
    ensures none { IfNone result ((text : List ℕ) → word.now ≢ text_word text) }
    ensures found { IfSome result (λ text. word.now ≡ text_word text.now) }
{
    if is_dashes(word) {
        word.get(1..)
    } else {
        Some(word)
    }
}

/// A text of 0 to 800 bytes.
pub fn read_text(alloc: Global, word: &[u8]) -> Result<Option<Text>, NoMemory>
    ensures { IfOk result (Finds IsText text_word word.now) }
{
    match unescape(word) {
        Some(text) if is_text(text) => Ok(Some(Text::new(text.to_vec(alloc)?))),
        _ => Ok(None),
    }
}
