//! Each function's contract is a law of the definitions. None of them runs anything.
ghost use Rattle.rg_laws_utility.specs.TraceStage.Laws.{DrainIsGranted, KeptGoesOn, OpenedTends};
ghost use Rattle.rg_laws_utility.specs.TraceStage.Laws.{PlainIsNeither};
ghost use Rattle.rg_laws_utility.specs.TraceStage.Laws.{RefusedTends, SaidTends, StartTends};
ghost use Rattle.rg_laws_utility.specs.TraceStage.Laws.{StepTends};
ghost use Rattle.rg_laws_utility.specs.TraceStage.Laws.{SwitchIsUnderAll, SwitchTurn, SystemTends};

/// Each entry keeps what a desk keeps of its utility. An opening begins it.
pub fn entries_law()
    ensures said { SaidTends }
    ensures system { SystemTends }
    ensures refused { RefusedTends }
    ensures opened { OpenedTends }
    ensures start { StartTends }
    ensures step { StepTends }
{}

/// What a turn keeps of the stage, when it switches or brings the engine down, and when a drain is
/// granted.
pub fn turns_law()
    ensures kept { KeptGoesOn }
    ensures plain { PlainIsNeither }
    ensures switch { SwitchTurn }
    ensures under_all { SwitchIsUnderAll }
    ensures granted { DrainIsGranted }
{}
