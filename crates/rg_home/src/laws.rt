//! Each function's contract is a law of the definitions. None of them runs anything.
ghost use Rattle.rg_home.specs.Laws.{PurgeDoes, PutDoes, ChangeDoes, DropDoes, RowLies, FirstFit};
ghost use Rattle.rg_home.specs.Laws.{FullMeans};

/// What plans do, once they are carried out: to rows, to where they lie, and to the bytes of pages.
pub fn plans_law()
    ensures purge { PurgeDoes }
    ensures put { PutDoes }
    ensures change { ChangeDoes }
    ensures drop { DropDoes }
    ensures lies { RowLies }
{}

/// Where a new area goes, and when there is no place for one.
pub fn first_fit_law()
    ensures first { FirstFit }
    ensures full { FullMeans }
{}
