// Numbers as words spell them.
//
// 1. A number has one spelling: decimal digits, without a sign, and without a zero before another.
// 2. A word that spells no number, or one past the limit, is not read.
ghost use Rattle.std.specs.Prelude.{ℕ, ◌≡◌, ◌≢◌, ◌<◌, ◌≤◌, ◌^◌, ◌↔◌, SomeIff, IfSome, IfNone};
ghost use Rattle.std.specs.Prelude.{IsTrue};
ghost use Rattle.std.specs.Fmt.{decimal};
ghost use Rattle.std.specs.Str.Parse.{AllDigits, digits_value};
ghost use Rattle.rg_base.specs.Number.{IsUnpadded};

/// The number that bytes spell: decimal digits, without a sign or a leading zero. None is returned
/// where they spell no number, or one that 64 bits don't hold.
#[tactic(auto, using(crate::proofs::Numerals::no_padded, crate::proofs::Numerals::digits_none))]
pub fn read_digits(word: &[u8]) -> Option<u64>
    ensures none { IfNone result ((n : ℕ) → n < 2 ^ 64 → word.now ≢ decimal n) }
    ensures found { IfSome result (λ n. (n < 2 ^ 64) × (word.now ≡ decimal n)) }
{
    if !is_unpadded(word) {
        return None;
    }
    value_of(word)
}

/// The number that a word spells, as its bytes do.
#[tactic(auto, using(crate::proofs::Numerals::number_found))]
pub fn read_number(word: &str) -> Option<u64>
    ensures none { IfNone result ((n : ℕ) → n < 2 ^ 64 → word.now ≢ decimal n) }
    ensures found { IfSome result (λ n. word.now ≡ decimal n) }
{
    read_digits(word.as_bytes())
}

/// The number that a word spells, where it is at most `limit`.
pub fn read_number_within(word: &str, limit: u64) -> Option<u64>
    ensures none { IfNone result ((n : ℕ) → n ≤ limit → word.now ≢ decimal n) }
    ensures found { IfSome result (λ n. (n ≤ limit) × (word.now ≡ decimal n)) }
{
    let number = read_number(word)?;
    if number > limit {
        return None;
    }
    Some(number)
}

// The number that digits stand for, where 64 bits hold it.
#[tactic(auto, using(crate::proofs::Numerals::value_so_far))]
fn value_of(digits: &[u8]) -> Option<u64>
    ensures { SomeIff result (AllDigits 10 digits.now × (digits_value 10 digits.now < 2 ^ 64))
        (digits_value 10 digits.now) }
{
    let mut value: u64 = 0;
    for byte in digits {
        let digit = char::from(*byte).to_digit(10)?;
        value = value.checked_mul(10)?.checked_add(u64::from(digit))?;
    }
    Some(value)
}

// There is a byte, and no zero stands before another.
fn is_unpadded(word: &[u8]) -> bool
    ensures { IsTrue result ↔ IsUnpadded word.now }
{
    !word.is_empty() && (word[0] != b'0' || word.len() == 1)
}
