//! Each function's contract is a law of the definitions. None of them runs anything.
ghost use Rattle.rg_check.specs.PageTests.Laws.{TestsTie, TestsGiveTable, TurnsJoin};

/// What it shows that no place is named before undo.
pub fn ties_law()
    ensures { TestsTie }
{}

/// What it shows that units are undone, each Change tested at its turn.
pub fn turns_law()
    ensures { TurnsJoin }
{}

/// What it shows that both tests after undo pass.
pub fn table_law()
    ensures { TestsGiveTable }
{}
