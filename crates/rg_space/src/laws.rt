//! Each function's contract is a law of the definitions. None of them runs anything.
ghost use Rattle.rg_space.specs.Laws.{PlansNext, PlansCarry, PlansApply};

/// What plans do, once their records are applied: to rows, and to pages.
pub fn plans_law()
    ensures next { PlansNext }
    ensures carry { PlansCarry }
    ensures apply { PlansApply }
{}
