//! A function's contract is a law of the definitions. It runs nothing.
ghost use Rattle.rg_engine.specs.CopyPages.Stamped.{NextIsStamped, StampedAreOfCopy, StampedDiffer};
ghost use Rattle.rg_engine.specs.CopyPages.Stamped.{StampsKeepCount, StampsKeepSlots};

/// Pages that are stamped one after another are as many as before, with the same slots, and each
/// differs by its position alone.
pub fn stamped_law()
    ensures count { StampsKeepCount }
    ensures slots { StampsKeepSlots }
    ensures next { NextIsStamped }
    ensures each { StampedDiffer }
    ensures are { StampedAreOfCopy }
{}
