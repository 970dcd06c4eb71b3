// The table, row by row.
//
// 1. The index by key lists each key with a row, and where the row lies.
// 2. They are gone through from the last to the first.
ghost use Rattle.std.specs.Prelude.{◌≡◌, ℕ, IfOk};
ghost use Rattle.rg_model.specs.State.{State};
ghost use Rattle.rg_engine.specs.Shows.{IsShown, Shows};
ghost use Rattle.rg_engine.specs.Wrote.{SameEngine};

use crate::engine::Engine;
use rg_base::map::NumberMap;
use rg_base::no_memory::NoMemory;
use rg_base::table::Table;

impl Engine {
    /// The table, as the statements so far have left it.
    pub fn table(&mut self) -> Result<Table, NoMemory>
        requires shown { IsShown self.old }
        ensures same { SameEngine self.old self.new }
        ensures table { IfOk result (λ table. (st : State) (allowed : ℕ)
            → Shows st allowed self.old → table ≡ st.table) }
    {
        let listing = self.indexes.keys.listing()?;
        let entries = listing.as_slice();
        let mut table = NumberMap::new(self.alloc);
        let mut left = entries.len();
        while left > 0 {
            left -= 1;
            let (key, home) = entries[left];
            if let Some(row) = self.row_at(home)? {
                table.insert(key, row)?;
            }
        }
        Ok(table)
    }
}
