//! Each function's contract is a law of the definitions. None of them runs anything.
ghost use Rattle.rg_rules.specs.Stage.Laws.{BoundsGrow, EntryIsAllowed, NumbersAreBounded};
ghost use Rattle.rg_rules.specs.Stage.Laws.{StartIsBounded, SwitchIsAllowed};

/// A utility starts within the bounds of its numbers, and what others do to the table and the trace
/// keeps them.
pub fn bounds_law()
    ensures start { StartIsBounded }
    ensures grow { BoundsGrow }
    ensures numbers { NumbersAreBounded }
{}

/// An entry that a stage follows is allowed in each state that shows the stage, and leaves a state
/// that shows the next one; so is a switch, where it is right.
pub fn booked_law()
    ensures entry { EntryIsAllowed }
    ensures switch { SwitchIsAllowed }
{}
