// Laws of what claims keep. None of these functions does anything.
ghost use Rattle.std.specs.Prelude.{◌≡◌};
ghost use Rattle.std.specs.FinMap as map;
ghost use Rattle.rg_base.specs.declared.options.DrainFor.TheVariants.{All};
ghost use Rattle.rg_base.specs.declared.options.DrainState.TheVariants.{Granted};
ghost use Rattle.rg_claim.specs.ClaimState.{ClaimState};
ghost use Rattle.rg_claim.specs.Drains.{GrantIsKept};

/// While a drain for ALL is granted, nobody has a claim.
pub fn drain_for_all_leaves_no_claim()
    ensures { (seen : ClaimState) → GrantIsKept seen → seen.drain ≡ Granted All →
        seen.claims ≡ map.empty }
{}
