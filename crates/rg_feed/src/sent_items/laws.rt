//! Each function's contract is a law of the definitions. None of them runs anything.
ghost use Rattle.rg_feed.specs.SentItems.Laws.{CopyIsSent, EntryIsPassed, MovesAreSent};
ghost use Rattle.rg_feed.specs.SentItems.Laws.{StartIsSent};
ghost use Rattle.rg_feed.specs.SentItems.Laws.{SwitchIsPassed};

/// The start of a utility is sent.
pub fn begin_law()
    ensures { StartIsSent }
{}

/// The changes that a statement makes are sent, in their order.
pub fn move_law()
    ensures { MovesAreSent }
{}

/// The copy of a page is sent.
pub fn copy_law()
    ensures { CopyIsSent }
{}

/// Where no row changes nothing need be sent, and so where the copies are switched.
pub fn still_law()
    ensures passed { EntryIsPassed }
    ensures switched { SwitchIsPassed }
{}
