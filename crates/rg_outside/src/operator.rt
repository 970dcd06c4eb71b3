ghost use Rattle.std.specs.Prelude.{List, ℕ, Option};
ghost use Rattle.rg_base.specs.declared.control.Answer.{Answer};
ghost use Rattle.rg_outside.specs.Told.{AddsAnswer, HandsOver};

use rg_base::control::Answer;

/// Who answers the utility before each of its steps. An operator may report its answers; such an
/// operator is called known.
pub trait Operator: Drop {
    /// The answers so far, where it reports them.
    ghost answers: { Self → Option (List Answer) };

    /// How many changes it was last told to be left, where it reports that.
    ghost last: { Self → Option ℕ };

    /// Answers, at a moment at which `left` changes are still to be caught up with.
    fn ask(&mut self, left: u64) -> Answer
        ensures answered { AddsAnswer (answers self.old) result (answers self.new) }
        ensures handed { HandsOver left (answers self.new) (last self.new) };
}
