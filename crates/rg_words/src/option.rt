ghost use Rattle.std.specs.Prelude.{ℕ, List, [], ◌∷◌, ◌++◌, ◌≡◌, ◌≢◌, IfSome, IfNone, map};
ghost use Rattle.std.specs.Prelude.{string_bytes};
ghost use Rattle.rg_words.specs.Spelling.{BeginsWithOption};

// The value of this option, with which the words begin, and the words after it.
pub fn take_option<'a>(words: &'a [String], name: &str) -> Option<(&'a str, &'a [String])>
    ensures none { IfNone result ((value : List ℕ) (rest : List (List ℕ)) →
        BeginsWithOption name.now value (map string_bytes words.now) rest → ⊥) }
    ensures found { IfSome result (λ found. BeginsWithOption name.now found.0.now
        (map string_bytes words.now) (map string_bytes found.1.now)) }
{
    let (first, rest) = words.split_first()?;
    if first.as_str() == name {
        let (value, rest) = rest.split_first()?;
        return Some((value.as_str(), rest));
    }
    Some((joined_value(first.as_str(), name)?, rest))
}

// The value of this option, where the words are nothing else.
pub fn only_option<'a>(words: &'a [String], name: &str) -> Option<&'a str>
    ensures none { IfNone result ((value : List ℕ) →
        BeginsWithOption name.now value (map string_bytes words.now) [] → ⊥) }
    ensures found { IfSome result (λ value.
        BeginsWithOption name.now value.now (map string_bytes words.now) []) }
{
    match take_option(words, name)? {
        (value, []) => Some(value),
        _ => None,
    }
}

// The value that `=` joins to this name.
fn joined_value<'a>(word: &'a str, name: &str) -> Option<&'a str>
    ensures none { IfNone result ((value : List ℕ) → word.now ≢ name.now ++ 61 ∷ value) }
    ensures found { IfSome result (λ value. word.now ≡ name.now ++ 61 ∷ value.now) }
{
    word.strip_prefix(name)?.strip_prefix('=')
}
