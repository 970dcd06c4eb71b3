ghost use Rattle.std.specs.Prelude.{◌≡◌, ◌≢◌, ◌↔◌, IfNone, IfSome, IsTrue};
ghost use Rattle.rg_opts.specs.Spelling.{keyword_word, IsAlterable};
ghost use Rattle.rg_opts.specs.declared.keyword.Keyword.{Keyword};

/// The name of an option.
#[derive(Clone, Copy, Debug, PartialEq, Eq)]
pub enum Keyword {
    Maxro,
    Longlog,
    Delay,
    Deadline,
    Drain,
    DrainWait,
    Retry,
    RetryDelay,
    Pctfree,
    Freepage,
}

impl Keyword {
    /// Whether an ALTER may set the option.
    pub fn is_alterable(self) -> bool
        ensures { IsTrue result ↔ IsAlterable self }
    {
        matches!(
            self,
            Keyword::Maxro | Keyword::Longlog | Keyword::Delay | Keyword::Deadline
        )
    }
}

// The option that has this name.
pub fn read_keyword(word: &str) -> Option<Keyword>
    ensures none { IfNone result ((keyword : Keyword) → word.now ≢ keyword_word keyword) }
    ensures found { IfSome result (λ keyword. word.now ≡ keyword_word keyword) }
{
    match word {
        "MAXRO" => Some(Keyword::Maxro),
        "LONGLOG" => Some(Keyword::Longlog),
        "DELAY" => Some(Keyword::Delay),
        "DEADLINE" => Some(Keyword::Deadline),
        "DRAIN" => Some(Keyword::Drain),
        "DRAIN_WAIT" => Some(Keyword::DrainWait),
        "RETRY" => Some(Keyword::Retry),
        "RETRY_DELAY" => Some(Keyword::RetryDelay),
        "PCTFREE" => Some(Keyword::Pctfree),
        "FREEPAGE" => Some(Keyword::Freepage),
        _ => None,
    }
}
