//! Each function's contract is a law of the definitions. None of them runs anything.
//!
//! 1. When a utility starts, the bound is what the pages claim (`begin_law`).
//! 2. A change adds at most its row to the bound. A copy adds nothing, and nor does an entry that
//!    changes no row (`send_law`).
//! 3. Once all pages are copied, the copies and the changes that are made weigh no more than the
//!    bound (`bound_law`).
ghost use Rattle.rg_laws_utility.specs.CopyWeight.Laws.{AllReach, ChangesReach, ClaimsReach};
ghost use Rattle.rg_laws_utility.specs.CopyWeight.Laws.{CopyReaches};
ghost use Rattle.rg_laws_utility.specs.CopyWeight.Laws.{OrderWeighsNothing, StartReaches};
ghost use Rattle.rg_laws_utility.specs.CopyWeight.Laws.{StillReaches};

/// The start of a utility.
pub fn begin_law()
    ensures start { StartReaches }
    ensures claims { ClaimsReach }
{}

/// What is sent, and an entry of which nothing is.
pub fn send_law()
    ensures changes { ChangesReach }
    ensures copy { CopyReaches }
    ensures still { StillReaches }
{}

/// What the new copy is made of.
pub fn bound_law()
    ensures all { AllReach }
    ensures order { OrderWeighsNothing }
{}
