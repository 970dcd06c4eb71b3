//! Each function's contract is a law of the definitions. None of them runs anything.
ghost use Rattle.rg_check.specs.OpenUnits.Laws.{LeftAreChanges, LeftAreOf, LeftCount, LeftOwners};
ghost use Rattle.rg_check.specs.OpenUnits.Laws.{OpenAll, OpenAre, OpenBelow, OpenOwed};
ghost use Rattle.rg_check.specs.OpenUnits.Laws.{TransBelowGreatest};

/// What is left are Changes.
pub fn changes_law()
    ensures { LeftAreChanges }
{}

/// What is left are records of the transaction.
pub fn records_law()
    ensures { LeftAreOf }
{}

/// As many are left as are not undone.
pub fn count_law()
    ensures { LeftCount }
{}

/// What is left was written by the transaction.
pub fn owners_law()
    ensures { LeftOwners }
{}

/// The open transactions are owed what the log owes.
pub fn owed_law()
    ensures { OpenOwed }
{}

/// Numbers of open transactions are between 1 and the greatest, and have no end.
pub fn below_law()
    ensures { OpenBelow }
{}

/// The transactions listed as open are open.
pub fn open_law()
    ensures { OpenAre }
{}

/// Each open transaction is listed.
pub fn all_law()
    ensures { OpenAll }
{}

/// No record is of a transaction above the greatest.
pub fn greatest_law()
    ensures { TransBelowGreatest }
{}
