//! Each function's contract is a law of the definitions. None of them runs anything.
ghost use Rattle.rg_feed.specs.Fold.Laws.{CopiesLoad, OneIsTaken, AllAreTaken, BatchIsTaken};
ghost use Rattle.rg_feed.specs.Fold.Laws.{UnnamedStays, LastDecides, CopiesAreApart, OrderIsFree};
ghost use Rattle.rg_feed.specs.Fold.Laws.{BeginIsFed, ChangeIsOrdered, ChangeIsFed, CopyIsOrdered};
ghost use Rattle.rg_feed.specs.Fold.Laws.{CopyIsFed, BookedIsFed, LaterIsOrdered, SameIsFed};
ghost use Rattle.rg_feed.specs.Fold.Laws.{CopiedIsTable};

/// The rows after the copies and some of the changes.
pub fn taken_law()
    ensures load { CopiesLoad }
    ensures one { OneIsTaken }
    ensures all { AllAreTaken }
{}

/// Several changes at once.
pub fn batch_law()
    ensures batch { BatchIsTaken }
    ensures unnamed { UnnamedStays }
    ensures net { LastDecides }
{}

/// The rows of copies, in whatever order.
pub fn rows_law()
    ensures apart { CopiesAreApart }
    ensures order { OrderIsFree }
{}

/// What each item that is sent keeps of the feed's order.
pub fn ordered_law()
    ensures change { ChangeIsOrdered }
    ensures copy { CopyIsOrdered }
    ensures later { LaterIsOrdered }
{}

/// What each item that is sent keeps of the rows.
pub fn fed_law()
    ensures begin { BeginIsFed }
    ensures change { ChangeIsFed }
    ensures copy { CopyIsFed }
    ensures booked { BookedIsFed }
    ensures same { SameIsFed }
    ensures table { CopiedIsTable }
{}
