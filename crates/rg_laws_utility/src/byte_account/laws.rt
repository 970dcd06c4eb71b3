//! Each function's contract is a law of the definitions. None of them runs anything.
//!
//! 1. The state that entries lead to, and what they have allowed, go on by one entry (`run_law`).
//! 2. While a utility runs that has not switched, a new copy may have to take no more than they
//!    have allowed (`reach_law`).
ghost use Rattle.rg_laws_utility.specs.ByteAccount.Laws.{AccountGoesOn, BeginReaches, EntryReaches};
ghost use Rattle.rg_laws_utility.specs.ByteAccount.Laws.{FeedIsAllowed, FoundElsewhere};
ghost use Rattle.rg_laws_utility.specs.ByteAccount.Laws.{FoundGoesOn};
ghost use Rattle.rg_laws_utility.specs.ByteAccount.Laws.{SaidReaches, StateGoesOn};

/// One entry more.
pub fn run_law()
    ensures state { StateGoesOn }
    ensures account { AccountGoesOn }
    ensures found { FoundGoesOn }
    ensures others { FoundElsewhere }
{}

/// What is sent.
pub fn reach_law()
    ensures said { SaidReaches }
    ensures entry { EntryReaches }
    ensures start { BeginReaches }
    ensures feed { FeedIsAllowed }
{}
