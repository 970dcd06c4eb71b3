//! Each function's contract is a law of the definitions. None of them runs anything.
ghost use Rattle.rg_laws_pages.specs.ByteClaims.Laws.{PutClaims, ChangeClaims, DropClaims};
ghost use Rattle.rg_laws_pages.specs.ByteClaims.Laws.{UndoClaims, PurgeClaims, FewerClaim, Holders};
ghost use Rattle.rg_laws_pages.specs.ByteClaims.Laws.{OpenedClaims, FullBound, FullTop};
ghost use Rattle.rg_laws_pages.specs.ByteClaims.Laws.{PlansLackArea, RowsClaim, ChangeWeighs};
ghost use Rattle.rg_laws_pages.specs.ByteClaims.Laws.{Switched};

/// What a write, an undo or a purge adds to the bytes that are claimed.
pub fn plans_law()
    ensures put { PutClaims }
    ensures change { ChangeClaims }
    ensures drop { DropClaims }
    ensures undo { UndoClaims }
    ensures purge { PurgeClaims }
{}

/// What the start and the end of units, and a switch, do to them.
pub fn holders_law()
    ensures fewer { FewerClaim }
    ensures holders { Holders }
    ensures switched { Switched }
{}

/// When there can be no new area, and so no plan.
pub fn full_law()
    ensures opened { OpenedClaims }
    ensures lack { PlansLackArea }
    ensures bound { FullBound }
    ensures top { FullTop }
{}

/// What the home rows weigh, against what their pages claim, and when one of them changes.
pub fn weight_law()
    ensures rows { RowsClaim }
    ensures change { ChangeWeighs }
{}
