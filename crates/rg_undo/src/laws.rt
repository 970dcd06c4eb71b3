//! Each function's contract is a law of the definitions. None of them runs anything.
ghost use Rattle.rg_undo.specs.Laws.{UnitGoesBack};

/// A unit that is undone has its committed rows back, and no other unit's rows have changed.
pub fn unit_law()
    ensures { UnitGoesBack }
{}
