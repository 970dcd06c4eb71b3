//! The function's contract is a law of the definitions. It runs nothing.
ghost use Rattle.rg_restart.specs.Laws.{SoundBreaksNone};

/// A sound volume breaks no rule.
pub fn sound_law()
    ensures { SoundBreaksNone }
{}
