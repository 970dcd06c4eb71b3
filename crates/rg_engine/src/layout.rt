// The layout of the copy.
ghost use Rattle.std.specs.Prelude.{◌≡◌, ℕ, true, IfOk};
ghost use Rattle.rg_home.specs.Pages.{slot_of};
ghost use Rattle.rg_home.specs.Rows.{row_at};
ghost use Rattle.rg_home.specs.Table.{IsTable};
ghost use Rattle.rg_model.specs.Layout.{is_right_side};
ghost use Rattle.rg_model.specs.State.{State, Table, row_of};
ghost use Rattle.rg_engine.specs.Engine.{HasPages, slots_in};
ghost use Rattle.rg_engine.specs.Shows.{Shows};
ghost use Rattle.rg_engine.specs.Wrote.{SameEngine};
ghost use Rattle.std.specs.Prelude.{[], Some, None};
ghost use Rattle.rg_model.specs.Possible.{next_state};
ghost use Rattle.rg_stmt.specs.declared.event.Actor.TheVariants as actors;
ghost use Rattle.rg_engine.specs.Layouts.{IsLayout, IsSideOf, ShowsSideOf};

use crate::engine::Engine;
use rg_base::copy::TableCopy;
use rg_base::no_memory::NoMemory;
use rg_layout::side::side;
use rg_stmt::event::Event;
use rg_stmt::layout::Side;

impl Engine {
    /// Where the rows lie, and what the indexes list. It reads each page once.
    pub fn side(&mut self) -> Result<Side, NoMemory>
        requires pages { HasPages self.old }
        ensures same { SameEngine self.old self.new }
        ensures is { IfOk result (IsSideOf (slots_in self.old)) }
        ensures right { IfOk result (λ side. (st : State) (allowed : ℕ) → Shows st allowed self.old
            → is_right_side st.table side ≡ true) }
        ensures table { IfOk result (λ side. (st : State) (allowed : ℕ) → Shows st allowed self.old
            → (t : Table) → IsTable (row_at (slot_of (slots_in self.old))) (row_of t)
            → is_right_side t side ≡ true) }
    {
        match side(self.alloc, &mut self.space, &self.indexes) {
            Ok(side) => Ok(side),
            Err(_) => Err(NoMemory),
        }
    }

    /// Makes frames spare for a statement or a layout, before it touches a page. All frames of a
    /// list are in memory, and so are always spare: there is nothing to let go.
    pub fn make_spare(&self) {}

    /// The event of a layout.
    pub fn layout(&mut self, copy: TableCopy) -> Event
        requires pages { HasPages self.old }
        ensures same { SameEngine self.old self.new }
        ensures is { IsLayout copy result }
        ensures side { ShowsSideOf (slots_in self.old) result }
        ensures right { (st : State) (allowed : ℕ) → Shows st allowed self.old → st.copy ≡ copy
            → next_state [] None actors.System result st ≡ Some st }
    {
        match self.side() {
            Ok(side) => Event::Layout { copy, side },
            Err(_) => Event::LayoutNoMemory,
        }
    }
}
