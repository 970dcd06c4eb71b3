//! Each function's contract is a law of the definitions. None of them runs anything.
ghost use Rattle.rg_redo.specs.CurrentCopy.Laws.{CurrentCovers, RedoIsSound};

/// What redo leaves of sound pages.
pub fn sound_law()
    ensures { RedoIsSound }
{}

/// What a log that is sound says of its current copy.
pub fn covers_law()
    ensures { CurrentCovers }
{}
