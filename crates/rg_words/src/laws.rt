ghost use Rattle.std.specs.Prelude.{ℕ, ◌≡◌, List};
ghost use Rattle.rg_words.specs.Spelling.{Spells};
ghost use Rattle.rg_words.specs.declared.words.Words.{Words};

/// A list of words asks for one command at most.
pub fn one_command()
    ensures { (words : List (List ℕ)) (a b : Words) → Spells a words → Spells b words → a ≡ b }
{}
