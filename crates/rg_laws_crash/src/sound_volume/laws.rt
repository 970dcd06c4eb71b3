//! Each function's contract is a law of the definitions. None of them runs anything.
ghost use Rattle.rg_laws_crash.specs.SoundVolume.ClosingLaws.{ClosingsReopen, ClosingsTell};
ghost use Rattle.rg_laws_crash.specs.SoundVolume.Laws.{AppendedReopen, ImageIsSound, ImageOwners};
ghost use Rattle.rg_laws_crash.specs.SoundVolume.Laws.{StandsMore, StandsReopens};

/// What a crash leaves of an engine's volume is sound.
pub fn image_law()
    ensures sound { ImageIsSound }
    ensures owners { ImageOwners }
{}

/// A log that an engine appended to can be opened.
pub fn reopen_law()
    ensures more { StandsMore }
    ensures reopens { StandsReopens }
    ensures appended { AppendedReopen }
{}

/// A log whose open units are being closed can be opened at any moment.
pub fn closing_law()
    ensures reopens { ClosingsReopen }
    ensures tells { ClosingsTell }
{}
