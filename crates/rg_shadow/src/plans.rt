// Plans of a space in memory, and how they are carried out.
//
// 1. No unit is live in a new copy. A plan may purge every dead area, and what it leaves dead is of
//    owner 0.
// 2. Nothing goes to the log, so every part is made at position 0.
ghost use Rattle.std.specs.Prelude.{◌≡◌, List, Some, None, IfOk, IfErr, true, length};
ghost use Rattle.std.specs.Option.{option_copied};
ghost use Rattle.rg_base.specs.declared.part.Part.{Part};
ghost use Rattle.rg_home.specs.Able.{Proper};
ghost use Rattle.rg_home.specs.Pages.{applied, row_or_empty, slot_of};
ghost use Rattle.rg_home.specs.Plan.{is_home, pages_after};
ghost use Rattle.rg_space.specs.Carries.{AllThere, Carries};
ghost use Rattle.rg_space.specs.Ready.{AllReady, CanApply, IsAtHand};
ghost use Rattle.rg_space.specs.Space.{capacity_in, frames_of};
ghost use Rattle.rg_shadow.specs.Planned.{AreUnlogged, HasPages, IsRefusal, SameSpace, change_plan};
ghost use Rattle.rg_shadow.specs.Planned.{drop_plan, pages_in, put_plan, seen_in, slots_in};

use crate::fault::ShadowFault;
use rg_base::no_memory::NoMemory;
use rg_base::part::Part;
use rg_base::place::Place;
use rg_base::position::Position;
use rg_base::row::Row;
use rg_base::tran::Tran;
use rg_home::plan::Plan;
use rg_page::list::ListFrames;
use rg_space::fault::SpaceFault;
use rg_space::space::Space;

/// The plan of a new row.
pub fn plan_put(space: &mut Space<ListFrames>, row: &Row) -> Result<Plan, ShadowFault>
    requires { HasPages space.old }
    ensures has { HasPages space.new }
    ensures same { SameSpace space.old space.new }
    ensures plan { IfOk result (λ plan.
        put_plan row.now (capacity_in space.new) (slots_in space.new) ≡ Some plan) }
    ensures hand { IfOk result (IsAtHand (seen_in space.new) (capacity_in space.new)) }
    ensures refusal { IfErr result (IsRefusal
        (put_plan row.now (capacity_in space.new) (slots_in space.new))) }
{
    match space.plan_put(row, &[]) {
        Ok(plan) => Ok(plan),
        Err(SpaceFault::Full { .. }) => Err(ShadowFault::NoSpace),
        Err(_) => Err(ShadowFault::NoMemory),
    }
}

/// The plan of a row in the place of the one whose home this is.
pub fn plan_change(
    space: &mut Space<ListFrames>,
    home: Place,
    row: &Row,
) -> Result<Plan, ShadowFault>
    requires { HasPages space.old }
    ensures has { HasPages space.new }
    ensures same { SameSpace space.old space.new }
    ensures plan { IfOk result (λ plan.
        change_plan row.now (capacity_in space.new) (slots_in space.new) home ≡ Some plan) }
    ensures hand { IfOk result (IsAtHand (seen_in space.new) (capacity_in space.new)) }
    ensures refusal { IfErr result (IsRefusal
        (change_plan row.now (capacity_in space.new) (slots_in space.new) home)) }
{
    match space.plan_change(home, row, &[]) {
        Ok(plan) => Ok(plan),
        Err(SpaceFault::Full { .. }) => Err(ShadowFault::NoSpace),
        Err(_) => Err(ShadowFault::NoMemory),
    }
}

/// The plan of the drop of the row whose home this is. There is always room for it.
pub fn plan_drop(space: &mut Space<ListFrames>, home: Place) -> Result<Plan, NoMemory>
    requires has { HasPages space.old }
    requires proper { Proper (slots_in space.old) }
    requires home { is_home (slot_of (slots_in space.old) home) ≡ true }
    ensures has { HasPages space.new }
    ensures same { SameSpace space.old space.new }
    ensures plan { IfOk result (λ plan. plan ≡ drop_plan (slots_in space.new) home) }
    ensures hand { IfOk result (IsAtHand (seen_in space.new) (capacity_in space.new)) }
{
    match space.plan_drop(home) {
        Ok(plan) => Ok(plan),
        Err(_) => Err(NoMemory),
    }
}

// Applies parts, where they fit.
fn apply(space: &mut Space<ListFrames>, parts: &[Part], row: Option<&Row>)
    requires { HasPages space.old }
    ensures has { HasPages space.new }
    ensures copy { (frames_of space.new).copy ≡ (frames_of space.old).copy }
    ensures capacity { capacity_in space.new ≡ capacity_in space.old }
    ensures slots { CanApply (seen_in space.old) (capacity_in space.old) 0
        (option_copied row.entry) parts.now → slots_in space.new
        ≡ applied 0 (row_or_empty (option_copied row.entry)) (slots_in space.old) parts.now }
    ensures stay { CanApply (seen_in space.old) (capacity_in space.old) 0
        (option_copied row.entry) parts.now
        → AllThere (length (seen_in space.old).pages) parts.now → (others : List Part)
        → AllReady (seen_in space.old) (capacity_in space.old) others
        → AllReady (seen_in space.new) (capacity_in space.old) others }
    ensures positions { CanApply (seen_in space.old) (capacity_in space.old) 0
        (option_copied row.entry) parts.now
        → AreUnlogged (pages_in space.old) → AreUnlogged (pages_in space.new) }
{
    space.apply_parts(parts, Tran(0), row, Position(0));
}

/// Carries a plan out: its purge, and then its parts. It takes no memory.
pub fn carry_out(space: &mut Space<ListFrames>, plan: &Plan, row: Option<&Row>)
    requires has { HasPages space.old }
    requires hand { IsAtHand (seen_in space.old) (capacity_in space.old) plan.now }
    requires carries { Carries 0 0 (capacity_in space.old) (slots_in space.old)
        (option_copied row) plan.now }
    ensures has { HasPages space.new }
    ensures copy { (frames_of space.new).copy ≡ (frames_of space.old).copy }
    ensures capacity { capacity_in space.new ≡ capacity_in space.old }
    ensures slots { slots_in space.new ≡ pages_after 0 (row_or_empty (option_copied row.entry))
        (slots_in space.old) plan.now }
    ensures positions { AreUnlogged (pages_in space.old) → AreUnlogged (pages_in space.new) }
{
    apply(space, plan.purge.as_slice(), None);
    apply(space, plan.parts.as_slice(), row);
}
