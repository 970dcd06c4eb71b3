// The rules of the mapping table.
//
// 1. Each place in the old copy has at most one target in the new one.
// 2. A change of the target of one place leaves the targets of all others.
ghost use Rattle.std.specs.Prelude.{◌≡◌, Some, None, if◌then◌else◌};
ghost use Rattle.std.specs.FinMap as map;
ghost use Rattle.rg_base.specs.declared.place.Place.{Place};
ghost use Rattle.rg_map.specs.Mapping.{Targets};
ghost use Rattle.rg_base.specs.Place.{same_place};

/// A change of the target of one source leaves the others.
pub fn changes_are_at_one_place()
    ensures put { (targets : Targets) (source target place : Place) →
        map.get (map.insert targets source target) place
        ≡ (if same_place place source then Some target else map.get targets place) }
    ensures take { (targets : Targets) (source place : Place) →
        map.get (map.remove targets source) place
        ≡ (if same_place place source then None else map.get targets place) }
{}
