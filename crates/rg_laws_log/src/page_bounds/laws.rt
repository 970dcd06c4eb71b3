//! The function's contract is a law of the definitions. It runs nothing.
ghost use Rattle.rg_laws_log.specs.PageBounds.Within.{ChangeIsWithin, DropIsWithin, PurgeIsWithin};
ghost use Rattle.rg_laws_log.specs.PageBounds.Within.{PutIsWithin, UndoIsWithin};

/// The plans of writes, and purges, name pages within the copy.
pub fn within_law()
    ensures put { PutIsWithin }
    ensures change { ChangeIsWithin }
    ensures drop { DropIsWithin }
    ensures undo { UndoIsWithin }
    ensures purge { PurgeIsWithin }
{}
