// The pieces of a new copy: its space, the mapping table and the indexes. They change together.
//
// 1. A change is planned first, and then all that may be refused is taken: room in the mapping
//    table and in the indexes. After that nothing fails.
// 2. The row of a source is changed at its target. A row that comes gets a target, and one that
//    goes gives it up. No other source is touched.
// 3. To spell a page, or to lay all of them out, changes no slot, no target and no index.
// 4. The values of all rows are read once, for the first list that is sorted. A change forgets
//    them.
ghost use Rattle.std.specs.Prelude.{◌≡◌, ◌≤◌, Some, None, IfOk, IfErr, OnOk, OnErr, is_some};
ghost use Rattle.std.specs.Prelude.{length, true};
ghost use Rattle.std.specs.FinMap as map;
ghost use Rattle.std.specs.Option.{option_copied};
ghost use Rattle.rg_layout.specs.Spots.{spots_of};
ghost use Rattle.rg_page.specs.Content.{content_at};
ghost use Rattle.rg_page.specs.Listed.{stamped};
ghost use Rattle.rg_page.specs.Bytes.Content.{FitsPage};
ghost use Rattle.rg_page.specs.Bytes.PageBytes.{page_bytes};
ghost use Rattle.rg_space.specs.Space.{capacity_in};
ghost use Rattle.rg_shadow.specs.Drafts.{HaveSpare};
ghost use Rattle.rg_shadow.specs.Pieces.{Carried, IsReady, IsWhole, SamePieces, rows_in, shade_of};
ghost use Rattle.rg_shadow.specs.Planned.{IsFull, change_plan, drop_plan, put_plan, slots_in};
ghost use Rattle.rg_shadow.specs.Shade.{Applies, IsRightSideOf, Refuses, shade_slots, stage_in};
ghost use Rattle.rg_shadow.specs.Shade.{with_stage};
ghost use Rattle.rg_shadow.specs.declared.drafts.IndexStage.TheVariants.{Sorted, Built};

use crate::drafts::Drafts;
use crate::fault::ShadowFault;
use crate::plans::{carry_out, plan_change, plan_drop, plan_put};
use crate::sort::{read_pages, sorted_list};
use crate::spell::spell;
use rg_base::no_memory::NoMemory;
use rg_base::note::note;
use rg_base::place::Place;
use rg_base::position::Position;
use rg_base::row::Row;
use rg_base::values::Values;
use rg_base::which::Which;
use rg_home::plan::Plan;
use rg_layout::side::side_of;
use rg_map::table::MapTable;
use rg_page::list::ListFrames;
use rg_record::buffer::PAGE_SIZE;
use rg_space::space::Space;
use rg_stmt::layout::Side;
use std::alloc::Global;

/// A new copy: where its rows lie, where the row of each source has its home, and what its indexes
/// list.
#[derive(Drop)]
pub struct Pieces {
    pub alloc: Global,
    pub space: Space<ListFrames>,
    pub map: MapTable,
    pub drafts: Drafts,
    // The values of the rows of each page, once they were read.
    pub values: Option<Vec<Vec<(Place, Values)>>>,
}

impl Pieces {
    /// Sorts the list of one index.
    pub fn sort(&mut self, which: Which) -> Result<(), NoMemory>
        requires { IsWhole self.old }
        ensures whole { IsWhole self.new }
        ensures ok { OnOk result
            (shade_of self.new ≡ with_stage which Sorted (shade_of self.old)) }
        ensures err { OnErr result (shade_of self.new ≡ shade_of self.old) }
    {
        self.read_values()?;
        let list = match &self.values {
            Some(pages) => sorted_list(self.alloc, which, pages.as_slice())?,
            None => return Err(NoMemory),
        };
        self.drafts.put_list(which, list);
        Ok(())
    }

    // Reads the values of all rows, unless they were read.
    fn read_values(&mut self) -> Result<(), NoMemory>
        requires { IsWhole self.old }
        ensures whole { IsWhole self.new }
        ensures same { shade_of self.new ≡ shade_of self.old }
    {
        if self.values.is_some() {
            return Ok(());
        }
        let pages = read_pages(self.alloc, &mut self.space)?;
        self.values = Some(pages);
        Ok(())
    }

    /// Builds the tree of one index, whose list is sorted.
    pub fn build(&mut self, which: Which) -> Result<(), NoMemory>
        requires whole { IsWhole self.old }
        requires sorted { stage_in which (shade_of self.old) ≡ Sorted }
        ensures whole { IsWhole self.new }
        ensures ok { OnOk result
            (shade_of self.new ≡ with_stage which Built (shade_of self.old)) }
        ensures err { OnErr result (shade_of self.new ≡ shade_of self.old) }
    {
        self.drafts.build(self.alloc, which)
    }

    /// Gives a page a position, and writes its bytes. It takes no memory.
    pub fn spell(&mut self, number: u32, at: Position, into: &mut [u8; PAGE_SIZE])
        requires whole { IsWhole self.old }
        requires low { 1 ≤ number }
        requires high { number ≤ length (shade_of self.old).pages }
        ensures whole { IsWhole self.new }
        ensures stamped { shade_of self.new ≡ record (shade_of self.old)
            { pages = stamped (shade_of self.old).pages number at.0 } }
        ensures bytes { into.new ≡ page_bytes (content_at (shade_of self.new).pages number) }
        ensures fits { FitsPage (content_at (shade_of self.new).pages number) }
    {
        spell(&mut self.space, number, at, into);
    }

    /// Where the rows lie, and what the indexes list, all of which are built.
    pub fn side(&mut self) -> Result<Side, NoMemory>
        requires whole { IsWhole self.old }
        requires keys { (shade_of self.old).keys ≡ Built }
        requires cluses { (shade_of self.old).cluses ≡ Built }
        requires cats { (shade_of self.old).cats ≡ Built }
        ensures whole { IsWhole self.new }
        ensures same { shade_of self.new ≡ shade_of self.old }
        ensures pages { IfOk result (λ side. side.pages ≡ length (shade_of self.new).pages) }
        ensures spots { IfOk result (λ side.
            side.spots ≡ spots_of (shade_slots (shade_of self.new))) }
        ensures right { IfOk result (IsRightSideOf (shade_of self.new)) }
    {
        let keys = self.drafts.keys.tree();
        let cluses = self.drafts.cluses.tree();
        let cats = self.drafts.cats.tree();
        match side_of(self.alloc, &mut self.space, keys, cluses, cats) {
            Ok(side) => Ok(side),
            // In memory nothing else is refused.
            Err(_) => Err(NoMemory),
        }
    }

    // Takes the room that one change may need.
    fn reserve(&mut self) -> Result<(), NoMemory>
        ensures space { self.new.space ≡ self.old.space }
        ensures same { SamePieces self.old self.new }
        ensures whole { IsWhole self.old → IsWhole self.new }
        ensures spare { OnOk result (HaveSpare self.new.drafts) }
        ensures room { OnOk result (1 ≤ self.new.map.spare) }
    {
        self.map.reserve(1)?;
        self.drafts.reserve()?;
        Ok(())
    }

    // The plan of a new row, with all that it needs.
    fn plan_put(&mut self, row: &Row) -> Result<Plan, ShadowFault>
        requires { IsWhole self.old }
        ensures whole { IsWhole self.new }
        ensures same { SamePieces self.old self.new }
        ensures plan { IfOk result (λ plan.
            put_plan row.now (capacity_in self.new.space) (slots_in self.new.space) ≡ Some plan) }
        ensures fresh { IfOk result (λ plan. rows_in self.new plan.home ≡ None) }
        ensures ready { IfOk result (IsReady self.new (Some row.now)) }
        ensures refusal { IfErr result (IsFull
            (put_plan row.now (capacity_in self.new.space) (slots_in self.new.space))
            (capacity_in self.new.space) (slots_in self.new.space)) }
    {
        note(&row.size());
        let plan = plan_put(&mut self.space, row)?;
        self.reserve()?;
        Ok(plan)
    }

    // The plan of a row in the place of the one whose home this is, with all that it needs.
    fn plan_change(&mut self, home: Place, row: &Row) -> Result<Plan, ShadowFault>
        requires whole { IsWhole self.old }
        requires home { is_some (rows_in self.old home) ≡ true }
        ensures whole { IsWhole self.new }
        ensures same { SamePieces self.old self.new }
        ensures plan { IfOk result (λ plan.
            change_plan row.now (capacity_in self.new.space) (slots_in self.new.space) home
            ≡ Some plan) }
        ensures home { IfOk result (λ plan. plan.home ≡ home) }
        ensures ready { IfOk result (IsReady self.new (Some row.now)) }
        ensures refusal { IfErr result (IsFull
            (change_plan row.now (capacity_in self.new.space) (slots_in self.new.space) home)
            (capacity_in self.new.space) (slots_in self.new.space)) }
    {
        note(&row.size());
        let plan = plan_change(&mut self.space, home, row)?;
        self.reserve()?;
        Ok(plan)
    }

    // The plan of the drop of the row whose home this is, with all that it needs.
    fn plan_drop(&mut self, home: Place) -> Result<Plan, NoMemory>
        requires whole { IsWhole self.old }
        requires home { is_some (rows_in self.old home) ≡ true }
        ensures whole { IsWhole self.new }
        ensures same { SamePieces self.old self.new }
        ensures plan { IfOk result (λ plan. plan ≡ drop_plan (slots_in self.new.space) home) }
        ensures home { IfOk result (λ plan. plan.home ≡ home) }
        ensures ready { IfOk result (IsReady self.new None) }
    {
        let plan = plan_drop(&mut self.space, home)?;
        self.reserve()?;
        Ok(plan)
    }

    // Carries a plan out, and has the indexes follow. It takes no memory.
    fn carry(&mut self, plan: &Plan, after: Option<&Row>)
        requires whole { IsWhole self.old }
        requires ready { IsReady self.old (option_copied after) plan.now }
        ensures { Carried self.old plan.now (option_copied after.entry) self.new }
    {
        self.values = None;
        self.drafts.follow(plan.home, plan.before.as_ref(), after);
        carry_out(&mut self.space, plan, after);
    }

    // Gives a source without a row this one.
    fn put(&mut self, source: Place, row: &Row) -> Result<(), ShadowFault>
        requires whole { IsWhole self.old }
        requires absent { map.get self.old.map.targets source ≡ None }
        ensures whole { IsWhole self.new }
        ensures applies { OnOk result
            (Applies (shade_of self.old) source (Some row.now) (shade_of self.new)) }
        ensures refuses { IfErr result (Refuses (shade_of self.old) source (Some row.now)) }
        ensures err { OnErr result (shade_of self.new ≡ shade_of self.old) }
    {
        let plan = self.plan_put(row)?;
        self.carry(&plan, Some(row));
        self.map.put(source, plan.home);
        Ok(())
    }

    // Takes the row of a source with this target away.
    fn remove(&mut self, source: Place, target: Place) -> Result<(), NoMemory>
        requires whole { IsWhole self.old }
        requires there { map.get self.old.map.targets source ≡ Some target }
        ensures whole { IsWhole self.new }
        ensures applies { OnOk result
            (Applies (shade_of self.old) source None (shade_of self.new)) }
        ensures err { OnErr result (shade_of self.new ≡ shade_of self.old) }
    {
        let plan = self.plan_drop(target)?;
        self.carry(&plan, None);
        self.map.take(source);
        Ok(())
    }

    /// Makes the row of a source this one, or none.
    pub fn apply(&mut self, source: Place, after: Option<&Row>) -> Result<(), ShadowFault>
        requires { IsWhole self.old }
        ensures whole { IsWhole self.new }
        ensures applies { OnOk result
            (Applies (shade_of self.old) source (option_copied after.entry) (shade_of self.new)) }
        ensures refuses { IfErr result
            (Refuses (shade_of self.old) source (option_copied after.entry)) }
        ensures err { OnErr result (shade_of self.new ≡ shade_of self.old) }
    {
        let Some(target) = self.map.get(source) else {
            return match after {
                None => Ok(()),
                Some(row) => self.put(source, row),
            };
        };
        match after {
            None => Ok(self.remove(source, target)?),
            Some(row) => {
                let plan = self.plan_change(target, row)?;
                self.carry(&plan, Some(row));
                Ok(())
            }
        }
    }
}
