//! Each function's contract is a law of the definitions. None of them runs anything.
ghost use Rattle.rg_laws_utility.specs.QuietKeys.Laws.{EntryHushesNone, QuietInRun, SaidIsLoud};

/// Each trace tells its locks, and no quiet key has one.
pub fn run_law()
    ensures { QuietInRun }
{}

/// What no entry makes quiet, and which keys are not quiet after a statement.
pub fn loud_law()
    ensures none { EntryHushesNone }
    ensures said { SaidIsLoud }
{}
