//! Each function's contract is a law of the definitions. None of them runs anything.
ghost use Rattle.rg_laws_utility.specs.LockClaims.Unlocked.{ClaimedBegins, ClaimedGoesOn};
ghost use Rattle.rg_laws_utility.specs.LockClaims.Unlocked.{ClaimedInRun, NoneLocked};

/// Whoever has locked a key holds Writer, in each state of a trace. So where nobody holds Writer no
/// key is locked.
pub fn claimed_law()
    ensures begins { ClaimedBegins }
    ensures goes_on { ClaimedGoesOn }
    ensures run { ClaimedInRun }
    ensures unlocked { NoneLocked }
{}
