// The mapping table.
//
// 1. The row of a source, a place of the old copy, stands at its target, a place of the new one. A
//    change of the log names the source; the table says where the row is.
// 2. No two sources have one target, and a source has one target. So a row of the new copy is that
//    of one place of the old.
// 3. Memory is taken in advance: a mapping that is put in takes room that was reserved, and cannot
//    fail. What can fail comes before the new copy is changed.
ghost use Rattle.std.specs.Prelude.{◌≡◌, ◌==◌, ◌&&◌, ◌+◌, ◌<◌, ◌≤◌, IfOk, IsOk, OnOk, None, Some};
ghost use Rattle.std.specs.Bool.{OnTrue, OnFalse};
ghost use Rattle.std.specs.FinMap as map;
ghost use Rattle.std.specs.HashMap.{IsUnique, values};
ghost use Rattle.std.specs.List.{list_any};
ghost use Rattle.rg_map.specs.Mapping.{IsFree, IsOneToOne, IsTarget};
ghost use Rattle.rg_base.specs.Place.{same_place};

use rg_base::no_memory::NoMemory;
use rg_base::place::Place;
use std::alloc::Global;
use std::collections::HashMap;
use std::marker::Model;

/// The target of each source, one to one, with room for more. `get`, `put` and `take` take the same
/// time, however many there are.
#[derive(Drop)]
pub struct MapTable {
    // By page and slot of the source.
    targets: HashMap<(u32, u16), Place>,
}

impl Model for MapTable {
    ghost use Rattle.rg_map.specs.Mapping.{Mapping, mapping_code};

    ghost Value = { Mapping };

    ghost coded = { mapping_code };

    ghost use Rattle.std.specs.HashMap.{spare};
    ghost use Rattle.rg_map.specs.Mapping.{IsOneToOne, targets_of};

    ghost view = { λ t.
        record { targets = targets_of t.targets.entries; spare = spare t.targets } };

    ghost invariant = { λ t. IsOneToOne (targets_of t.targets.entries) };
}

// Whether a place is a value of the map.
fn has_value(targets: &HashMap<(u32, u16), Place>, target: Place) -> bool
    ensures value { result ≡ list_any (λ value. same_place value target) (values targets.now) }
    ensures unique { IsUnique (λ a b. a.0 == b.0 && a.1 == b.1) targets.now }
{
    targets.values().any(|value| value.page == target.page && value.slot == target.slot)
}

impl MapTable {
    /// A table without mappings and without room.
    pub fn new(alloc: Global) -> Result<MapTable, NoMemory>
        ensures { IfOk result (λ table. table.targets ≡ map.empty) }
    {
        Ok(MapTable {
            targets: HashMap::new(alloc),
        })
    }

    /// The target of a source.
    pub fn get(&self, source: Place) -> Option<Place>
        ensures target { result ≡ map.get self.now.targets source }
        ensures single { IsOneToOne self.now.targets }
    {
        self.targets.get(&(source.page, source.slot)).copied()
    }

    /// Whether a source has this target. It walks the whole table.
    pub fn has_target(&self, target: Place) -> bool
        ensures taken { OnTrue result (IsTarget self.now.targets target) }
        ensures free { OnFalse result (IsFree self.now.targets target) }
    {
        has_value(&self.targets, target)
    }

    /// Takes room, so that at least `more` mappings can be put in.
    pub fn reserve(&mut self, more: u32) -> Result<(), NoMemory>
        ensures targets { self.new.targets ≡ self.old.targets }
        ensures spare { self.old.spare ≤ self.new.spare }
        ensures ok { OnOk result (more ≤ self.new.spare) }
        ensures reserved { more ≤ self.old.spare → IsOk result }
    {
        match self.targets.reserve(more as usize) {
            Ok(()) => Ok(()),
            Err(_) => Err(NoMemory),
        }
    }

    /// Puts a mapping in. It takes no memory.
    pub fn put(&mut self, source: Place, target: Place)
        requires source { map.get self.old.targets source ≡ None }
        requires target { IsFree self.old.targets target }
        requires spare { 0 < self.old.spare }
        ensures targets { self.new.targets ≡ map.insert self.old.targets source target }
        ensures spare { self.old.spare ≤ self.new.spare + 1 }
    {
        // There is room for one more, so it is put in.
        let _ = self.targets.insert((source.page, source.slot), target);
    }

    /// Takes a mapping out, and answers the target that the source had. The target is free then.
    pub fn take(&mut self, source: Place) -> Option<Place>
        ensures target { result ≡ map.get self.old.targets source }
        ensures targets { self.new.targets ≡ map.remove self.old.targets source }
        ensures spare { self.old.spare ≤ self.new.spare }
    {
        self.targets.remove(&(source.page, source.slot))
    }
}
