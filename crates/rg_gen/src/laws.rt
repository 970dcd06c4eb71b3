// What holds of every deck that is made.
// (1) The sessions of its statements are those that there are.
// (2) The process does not die in it. So its run has one opening.
ghost use Rattle.std.specs.Prelude.{ℕ};
ghost use Rattle.std.specs.List.{AllByRecursion};
ghost use Rattle.rg_gen.specs.Deck.{IsOfSessions, deck_of};

/// Each statement of a deck that is made is of a session that there is, and the process does not
/// die in it.
pub fn has_sessions()
    ensures { (seed rows : ℕ) → AllByRecursion IsOfSessions (deck_of seed rows) }
{}
