//! Each function's contract is a law of the definitions. None of them runs anything.
ghost use Rattle.rg_laws_utility.specs.RecordChanges.Laws.{ChangesAreAbove, ChangesAreLoud};
ghost use Rattle.rg_laws_utility.specs.RecordChanges.Laws.{ChangesMoveRows};
ghost use Rattle.rg_laws_utility.specs.RecordChanges.Laws.{UndosAreCounted, UndosTell};

/// The changes of lawful records, one after the other, lead to the rows that the records leave.
pub fn rows_law()
    ensures { ChangesMoveRows }
{}

/// The changes have the positions of their records, which rise.
pub fn order_law()
    ensures { ChangesAreAbove }
{}

/// No change has a quiet key, where no write has one, and none that is undone.
pub fn keys_law()
    ensures { ChangesAreLoud }
{}

/// Undos make as many changes as they undo writes, each to the row before its write.
pub fn undos_law()
    ensures counted { UndosAreCounted }
    ensures told { UndosTell }
{}
