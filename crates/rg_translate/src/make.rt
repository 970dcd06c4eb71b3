// Changes made in the new copy.
//
// 1. Each change is made by its source, the place of its home in the old copy. The row of that
//    source changes, and that of no other.
// 2. A change that is refused is not made, and no later one is.
ghost use Rattle.std.specs.Prelude.{◌≡◌, [], true, map, OnOk, IfErr};
ghost use Rattle.rg_base.specs.declared.place.Place.{Place};
ghost use Rattle.rg_feed.specs.Fold.Last.{applied_at};
ghost use Rattle.rg_model.specs.Layout.{are_rising};
ghost use Rattle.rg_shadow.specs.Shade.{source_rows};
ghost use Rattle.rg_translate.specs.Caught.{ClaimsMore, IsFullBy, IsRefusedOf, KeepTargets};
ghost use Rattle.rg_translate.specs.Caught.{SameCopy, Unmoved};

use rg_base::change::Change;
use rg_shadow::fault::ShadowFault;
use rg_shadow::shadow::Shadow;

/// Makes these changes, one after another.
pub fn make_changes(shadow: &mut Shadow, changes: &[Change]) -> Result<(), ShadowFault>
    ensures rows { OnOk result ((place : Place) → source_rows shadow.new place
        ≡ applied_at place changes.now (source_rows shadow.old place)) }
    ensures unmoved { Unmoved shadow.old shadow.new changes.now }
    ensures stays { are_rising (map (λ c. c.home) changes.now) ≡ true
        → KeepTargets shadow.old shadow.new }
    ensures copy { SameCopy shadow.old shadow.new }
    ensures idle { changes.now ≡ [] → shadow.new ≡ shadow.old }
    ensures refused { IfErr result (IsRefusedOf shadow.new changes.now) }
    ensures claims { OnOk result (ClaimsMore shadow.old shadow.new changes.now) }
    ensures full { IfErr result (IsFullBy shadow.old changes.now) }
{
    for change in changes {
        shadow.apply(change.home, change.after.as_ref())?;
    }
    Ok(())
}
