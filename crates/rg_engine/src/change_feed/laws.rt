//! Each function's contract is a law of the definitions. None of them runs anything.
ghost use Rattle.rg_engine.specs.ChangeFeed.Laws.{BookedCopiesNone, CopyIsKept, EntryIsKept};
ghost use Rattle.rg_engine.specs.ChangeFeed.Laws.{OpeningBegins};
ghost use Rattle.rg_engine.specs.ChangeFeed.Laws.{SaidIsKept, StartIsKept, SwitchIsKept};
ghost use Rattle.rg_engine.specs.ChangeFeed.Laws.{UnloadCopies};

/// What is kept is kept by a statement, and begins with an opening.
pub fn said_law()
    ensures opening { OpeningBegins }
    ensures said { SaidIsKept }
{}

/// So it is by each entry of which an item is sent.
pub fn sent_law()
    ensures start { StartIsKept }
    ensures copy { CopyIsKept }
{}

/// So it is by each entry of which none is sent.
pub fn still_law()
    ensures entry { EntryIsKept }
    ensures switched { SwitchIsKept }
{}

/// Which events copy a page.
pub fn turn_law()
    ensures booked { BookedCopiesNone }
    ensures unload { UnloadCopies }
{}
