// The mapping table of pairs.
//
// 1. Each pair is a source and its target. No two pairs have a source or a target in common, so the
//    table is one to one.
// 2. The room for all pairs is taken before the first one, so that the table grows once.
ghost use Rattle.std.specs.Prelude.{◌≡◌, IfOk};
ghost use Rattle.std.specs.FinMap as map;
ghost use Rattle.rg_base.specs.declared.place.Place.{Place as ThePlace};
ghost use Rattle.rg_reload.specs.Moved.{AreOneToOne, target_in};

use rg_base::no_memory::NoMemory;
use rg_base::place::Place;
use rg_map::table::MapTable;
use std::alloc::Global;

/// The table of these pairs.
pub fn map_pairs(alloc: Global, pairs: &[(Place, Place)]) -> Result<MapTable, NoMemory>
    requires { AreOneToOne pairs.now }
    ensures { IfOk result (λ table. (source : ThePlace) →
        map.get table.targets source ≡ target_in pairs.now source) }
{
    let Ok(count) = u32::try_from(pairs.len()) else {
        // So many do not fit in a table, whatever memory there is.
        return Err(NoMemory);
    };
    let mut table = MapTable::new(alloc)?;
    table.reserve(count)?;
    for (source, target) in pairs {
        table.put(*source, *target);
    }
    Ok(table)
}
