ghost use Rattle.std.specs.Prelude.{ℕ, ◌≡◌, List};
ghost use Rattle.rg_stmt.specs.declared.line.Line.{Line};
ghost use Rattle.rg_deck.specs.Grammar.{LinesOf, IsFirstOutside};
ghost use Rattle.rg_deck.specs.declared.read.Admits.{Admits};

/// Bytes spell one list of lines at most, whichever lines are taken.
pub fn one_reading()
    ensures { (admitted : Admits) (bytes : List ℕ) (a b : List Line) → LinesOf admitted bytes a
        → LinesOf admitted bytes b → a ≡ b }
{}

/// One line at most is the first that is outside.
pub fn first_outside_is_one()
    ensures { (admitted : Admits) (bytes : List ℕ) (a b : ℕ) → IsFirstOutside admitted bytes a
        → IsFirstOutside admitted bytes b → a ≡ b }
{}
