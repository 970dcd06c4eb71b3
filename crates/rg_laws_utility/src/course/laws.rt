//! Each function's contract is a law of the definitions. None of them runs anything.
ghost use Rattle.rg_laws_utility.specs.Course.Course.{EndsInTime};
ghost use Rattle.rg_laws_utility.specs.Course.Drained.{NobodyWritesUnderDrain};
ghost use Rattle.rg_laws_utility.specs.Course.Drained.{NothingChangesUnderDrain, WrittenAtWritten};
ghost use Rattle.rg_laws_utility.specs.Course.Loading.{LoadedGoesOn, LoadingGoesOn};
ghost use Rattle.rg_laws_utility.specs.Course.Switching.{CaughtUpAtSwitch};

/// A utility that nothing hinders ends after as many steps as its pages, its RELOAD steps and
/// thirteen more; twelve under DRAIN ALL. MAXRO may be any time, and every option but it and DRAIN
/// as well: with the defaults it is so.
pub fn course_law()
    ensures { EndsInTime }
{}

/// Between a grant and the switch nothing is loaded, and each LAST takes 64 of the changes that
/// were left.
pub fn switching_law()
    ensures { CaughtUpAtSwitch }
{}

/// How many pages of the new copy are filled is told by the entries. Once a list is sorted all rows
/// are reloaded.
pub fn loading_law()
    ensures filled { LoadingGoesOn }
    ensures loaded { LoadedGoesOn }
{}

/// From the grant of a drain up to the switch nobody writes, and the changes that the last LAST
/// leaves are none. The new copy is written with WRITTEN.
pub fn drain_law()
    ensures nobody { NobodyWritesUnderDrain }
    ensures nothing { NothingChangesUnderDrain }
    ensures written { WrittenAtWritten }
{}
