//! A function's contract is a law of the definitions. It runs nothing.
ghost use Rattle.rg_translate.specs.Laws.{LoadIsCaught, MoreIsCaught};

/// How a new copy comes to be caught up, and stays so as more is received.
pub fn caught_law()
    ensures load { LoadIsCaught }
    ensures more { MoreIsCaught }
{}
