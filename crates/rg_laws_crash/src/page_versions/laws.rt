//! Each function's contract is a law of the definitions. None of them runs anything.
ghost use Rattle.rg_laws_crash.specs.PageVersions.Laws.{AgainIsNothing, GoesOn, IsSettled};
ghost use Rattle.rg_laws_crash.specs.PageVersions.Laws.{StaysLow, MoreIsLater, IsTaken, StillFits};
ghost use Rattle.rg_laws_crash.specs.PageVersions.Laws.{OfAllPages};
ghost use Rattle.rg_laws_crash.specs.PageVersions.Laws.{MayBeWritten, StaysThere, ReadsBack};
ghost use Rattle.rg_laws_crash.specs.PageVersions.Laws.{BeginsThere};
ghost use Rattle.rg_laws_crash.specs.PageVersions.ImageLaws.{WriteKeeps, OtherKeeps, SyncKeeps};
ghost use Rattle.rg_laws_crash.specs.PageVersions.ImageLaws.{ReadKeeps, MoreKeeps, CallsKeep};

/// Redo of a page goes on from whatever version of it was found.
pub fn version_law()
    ensures again { AgainIsNothing }
    ensures goes_on { GoesOn }
    ensures settled { IsSettled }
    ensures low { StaysLow }
    ensures later { MoreIsLater }
    ensures taken { IsTaken }
    ensures fits { StillFits }
    ensures written { MayBeWritten }
    ensures stays { StaysThere }
    ensures back { ReadsBack }
    ensures all { OfAllPages }
    ensures begins { BeginsThere }
{}

/// Whatever a crash leaves of the pages of a copy may stand there, over all calls of the volume.
pub fn image_law()
    ensures write { WriteKeeps }
    ensures other { OtherKeeps }
    ensures sync { SyncKeeps }
    ensures read { ReadKeeps }
    ensures more { MoreKeeps }
    ensures calls { CallsKeep }
{}
