//! Each function's contract is a law of the definitions. None of them runs anything.
ghost use Rattle.rg_translate.specs.RightCopy.Laws.{BatchIsCaughtUp, CaughtUpClaims};
ghost use Rattle.rg_translate.specs.RightCopy.Laws.{CaughtUpIsQuiet, CaughtUpIsRight};
ghost use Rattle.rg_translate.specs.RightCopy.Laws.{FullIsSent, LoadIsCaughtUp};
ghost use Rattle.rg_translate.specs.RightCopy.Laws.{MoreIsCaughtUp, SameSlotsAreCaughtUp};
ghost use Rattle.rg_translate.specs.RightCopy.Laws.{StagesAreCaughtUp};

/// A new copy is caught up once it is loaded.
pub fn load_law()
    ensures { LoadIsCaughtUp }
{}

/// It stays caught up as the next changes are taken.
pub fn batch_law()
    ensures { BatchIsCaughtUp }
{}

/// It stays caught up while its indexes are made.
pub fn stages_law()
    ensures { StagesAreCaughtUp }
{}

/// It stays caught up as more is received, and where its pages are others with the same slots.
pub fn more_law()
    ensures more { MoreIsCaughtUp }
    ensures slots { SameSlotsAreCaughtUp }
{}

/// What its pages claim, and when a change has no room in it.
pub fn claim_law()
    ensures claims { CaughtUpClaims }
    ensures full { FullIsSent }
{}

/// Once all pages were copied and all changes are taken, the new copy is right for the table.
pub fn right_law()
    ensures quiet { CaughtUpIsQuiet }
    ensures right { CaughtUpIsRight }
{}
