//! Each function's contract is a law of the definitions. None of them runs anything.
ghost use Rattle.rg_laws_crash.specs.SwitchRecord.Laws.{SwitchIsLeft, SwitchOwners, SwitchReopens};
ghost use Rattle.rg_laws_crash.specs.SwitchRecord.Laws.{SwitchStands};
ghost use Rattle.rg_laws_crash.specs.SwitchRecord.Laws.{SwitchStores, SwitchTells, SwitchTurns};

/// A log that ends with a Switch can be opened, of the copy that it names.
pub fn switch_law()
    ensures stores { SwitchStores }
    ensures tells { SwitchTells }
    ensures stands { SwitchStands }
    ensures reopens { SwitchReopens }
    ensures owners { SwitchOwners }
    ensures turns { SwitchTurns }
{}

/// What a crash leaves of such a log, and of the pages that were written before, is left of that
/// copy.
pub fn image_law()
    ensures { SwitchIsLeft }
{}
