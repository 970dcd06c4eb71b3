//! Each function's contract is a law of the definitions. None of them runs anything.
ghost use Rattle.rg_laws_utility.specs.TraceLocks.Laws.{BothBegin, FreeGoesOn, QuietStays};
ghost use Rattle.rg_laws_utility.specs.TraceLocks.Laws.{ToldGoesOn};
ghost use Rattle.rg_laws_utility.specs.TraceLocks.Laws.{SameRising, SwitchIsRight};

/// Each entry that is allowed keeps what the trace tells of the locks, and that a quiet key has no
/// lock. A table at rest begins so.
pub fn told_law()
    ensures told { ToldGoesOn }
    ensures free { FreeGoesOn }
    ensures begins { BothBegin }
{}

/// A key that is quiet after a statement was quiet before it, and is not the one that it wrote.
pub fn quiet_law()
    ensures stays { QuietStays }
{}

/// What makes a switch right, and when two lists of spots are one.
pub fn switch_law()
    ensures right { SwitchIsRight }
    ensures same { SameRising }
{}
