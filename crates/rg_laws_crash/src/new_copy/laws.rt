//! Each function's contract is a law of the definitions. None of them runs anything.
ghost use Rattle.rg_laws_crash.specs.NewCopy.Anew.{NewCopyCanSwitch, SwitchBegins};
ghost use Rattle.rg_laws_crash.specs.NewCopy.Forcing.{SwitchIsEither, VersionsAreOld};
ghost use Rattle.rg_laws_crash.specs.NewCopy.Writing.{OldThroughout, SyncLeavesCopy, WriteReads};

/// A log may turn to a copy that has its rows, and the table begins anew on it.
pub fn begin_law()
    ensures can { NewCopyCanSwitch }
    ensures begins { SwitchBegins }
{}

/// While the Switch is forced, what a crash leaves is left of the one copy or of the other.
pub fn either_law()
    ensures either { SwitchIsEither }
    ensures versions { VersionsAreOld }
{}

/// While the pages of a new copy are written, its set has old pages. After the sync whatever a
/// crash leaves has the copy.
pub fn writing_law()
    ensures old { OldThroughout }
    ensures reads { WriteReads }
    ensures leaves { SyncLeavesCopy }
{}
