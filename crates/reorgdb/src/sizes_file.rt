// How the file of a volume's sizes is read.
// (1) It is one line, `LOG n COPY m`: the pages of the log, and those of each copy of the table. One
//     space parts two words, and the line feed at the end may be left out.
// (2) A number has no sign and no leading zero, and is one that a volume may have.
ghost use Rattle.std.specs.Prelude.{ℕ, ◌≡◌, ◌≢◌, List, ◌++◌, IfSome, IfNone, MatchOption};
ghost use Rattle.rg_file.specs.declared.sizes.Sizes.{Sizes};
ghost use Rattle.reorgdb.specs.SizesFile.{sizes_line, IsSizesFile};

use rg_deck::word::{read_number, split_number};
use rg_file::sizes::Sizes;

/// The most bytes that the file of sizes may have: those of `LOG 65536 COPY 65536` and a line feed.
pub const SIZES_LIMIT: usize = 21;

/// The sizes that these bytes of the file are.
pub fn read_sizes(bytes: &[u8]) -> Option<Sizes>
    ensures none { IfNone result ((sizes : Sizes) → IsSizesFile bytes.now sizes → ⊥) }
    ensures found { IfSome result (IsSizesFile bytes.now) }
{
    match before(bytes, b"\n") {
        Some(line) => read_line(line),
        None => read_line(bytes),
    }
}

// The sizes that a line is.
fn read_line(line: &[u8]) -> Option<Sizes>
    ensures none { IfNone result ((sizes : Sizes) → line.now ≢ sizes_line sizes) }
    ensures found { IfSome result (λ sizes. line.now ≡ sizes_line sizes) }
{
    let numbers = behind(line, b"LOG ")?;
    let (log, rest) = split_number(numbers)?;
    let word = behind(rest, b"COPY ")?;
    let copy = read_number(word)?;
    Sizes::new(log, copy)
}

// What stands behind these bytes at the front.
fn behind<'a>(bytes: &'a [u8], front: &[u8]) -> Option<&'a [u8]>
    ensures { MatchOption result ((rest : List ℕ) → bytes.now ≢ front.now ++ rest)
        (λ rest. bytes.now ≡ front.now ++ rest.now) }
{
    bytes.strip_prefix(front)
}

// What stands before these bytes at the end.
fn before<'a>(bytes: &'a [u8], end: &[u8]) -> Option<&'a [u8]>
    ensures { MatchOption result ((front : List ℕ) → bytes.now ≢ front ++ end.now)
        (λ front. bytes.now ≡ front.now ++ end.now) }
{
    bytes.strip_suffix(end)
}
