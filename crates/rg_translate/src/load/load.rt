// The load of a new copy.
//
// 1. A packer that has placed every row becomes a new copy whose indexes are still to be made.
ghost use Rattle.std.specs.Prelude.{◌≡◌, true, IfOk};
ghost use Rattle.rg_translate.specs.Load.Loaded.{IsLoaded};

use rg_base::no_memory::NoMemory;
use rg_reload::packer::Packer;
use rg_shadow::shadow::Shadow;
use std::alloc::Global;

/// The new copy of the pages that this packer has filled.
pub fn load(alloc: Global, packer: Packer) -> Result<Shadow, NoMemory>
    requires { packer.whole ≡ true }
    ensures { IfOk result (IsLoaded packer) }
{
    let (space, pairs) = packer.finish();
    let shadow = Shadow::load(alloc, space, pairs)?;
    Ok(shadow)
}
