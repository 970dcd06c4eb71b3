ghost use Rattle.std.specs.Prelude.{ℕ, ◌≡◌, List};
ghost use Rattle.rg_base.specs.declared.control.Alteration.{Alteration};
ghost use Rattle.rg_base.specs.declared.control.Answer.{Answer};
ghost use Rattle.rg_base.specs.declared.options.Options.{Options};
ghost use Rattle.rg_opts.specs.Operator.{IsOperatorFile, RefusesFile};
ghost use Rattle.rg_opts.specs.Statement.{AreWords, IsControlStatement, IsAlteration};
ghost use Rattle.rg_opts.specs.Stops.{StopsAt, AcceptsControl, AcceptsAlteration};
ghost use Rattle.rg_opts.specs.declared.operator.OperatorFault.TheVariants as OperatorFault;

/// Words are one control statement at most.
pub fn one_control()
    ensures { (words : List (List ℕ)) (a b : Options) →
        IsControlStatement words a → IsControlStatement words b → a ≡ b }
{}

/// The words of a control statement have printing characters only. So a line of them is cut at its
/// spaces.
pub fn control_has_words()
    ensures { (words : List (List ℕ)) (options : Options) →
        IsControlStatement words options → AreWords words }
{}

/// Words are one alteration at most.
pub fn one_alteration()
    ensures { (words : List (List ℕ)) (a b : Alteration) →
        IsAlteration words a → IsAlteration words b → a ≡ b }
{}

/// Words that are not accepted stop at one word.
pub fn one_fault()
    ensures control { (words : List (List ℕ)) (a b : ℕ) →
        StopsAt AcceptsControl words a → StopsAt AcceptsControl words b → a ≡ b }
    ensures alteration { (words : List (List ℕ)) (a b : ℕ) →
        StopsAt AcceptsAlteration words a → StopsAt AcceptsAlteration words b → a ≡ b }
{}

/// A file has one list of answers at most.
pub fn one_file()
    ensures { (bytes : List ℕ) (a b : List Answer) →
        IsOperatorFile bytes a → IsOperatorFile bytes b → a ≡ b }
{}

/// A file that is refused by the number of a line has no list of answers. It is refused by no other
/// number.
pub fn one_refusal()
    ensures no_answers { (bytes : List ℕ) (number : ℕ) (answers : List Answer) →
        RefusesFile bytes (OperatorFault.Line number) → IsOperatorFile bytes answers → ⊥ }
    ensures one_line { (bytes : List ℕ) (a b : ℕ) →
        RefusesFile bytes (OperatorFault.Line a) →
        RefusesFile bytes (OperatorFault.Line b) → a ≡ b }
{}
