// The table space: pages in frames, with the summaries of all pages in step.
//
// 1. A plan finds its page over the summaries. It reads the pages of its row alone, and holds those
//    that it will write; a new page it reserves. So applying it takes no memory and asks no device.
// 2. A space is full exactly where a plan needs a page above its capacity.
// 3. What a call says of pages is of the pages as they are afterwards. Where summaries and pages
//    agree, a plan is the one that the definitions compute of these pages.
ghost use Rattle.std.specs.Prelude.{◌≡◌, ◌⊎◌, ◌≤◌, ◌<◌, ◌+◌, ℕ, List, [], true, length, IfOk};
ghost use Rattle.std.specs.Prelude.{IfErr, OnOk, OnErr, Some, None};
ghost use Rattle.std.specs.Option.{option_copied};
ghost use Rattle.rg_base.specs.RowBytes.{row_size};
ghost use Rattle.rg_home.specs.Pages.{slot_of, PartFits};
ghost use Rattle.rg_home.specs.Plan.{new_area, planned_put, planned_change, planned_drop};
ghost use Rattle.rg_page.specs.Bare.{numbers_of};
ghost use Rattle.rg_page.specs.Content.{Content, content_at, slots_of};
ghost use Rattle.std.specs.Prelude.{⊤};
ghost use Rattle.std.specs.Borrow.{Lends, follows_so, sem};
ghost use mathlib.Core.Option.{none};
ghost use Rattle.rg_space.specs.contracts.space.Space.{the_row};
ghost use Rattle.rg_base.specs.declared.part.Part.{Part};
ghost use Rattle.rg_page.specs.Seen.{Reads, Held, Failed, LetGo, WasSet, set_content};
ghost use Rattle.rg_record.specs.Applied.{parts_of};
ghost use Rattle.rg_space.specs.Carries.{AllThere};
ghost use Rattle.rg_space.specs.Homes.{homes_on, values_on};
ghost use Rattle.rg_home.specs.Rows.{row_at};
ghost use Rattle.rg_home.specs.Undo.{over_before, undo_parts};
ghost use Rattle.rg_space.specs.Applied.{IsApplicable, AreApplicable, AllHeld, Within, Writes};
ghost use Rattle.rg_space.specs.Applied.{grown, wrote_part, wrote_all};
ghost use Rattle.rg_space.specs.Took.{Took, HasRisen, IsRisen, IsHeldAt, slot_in};
ghost use Rattle.rg_space.specs.Ready.{IsReady, AllReady, IsAtHand, HasCause, CanApplyRecord};
ghost use Rattle.rg_space.specs.Ready.{record_applied, record_wrote};
ghost use Rattle.rg_space.specs.Space.{Agree, InStep, capacity_in, frames_of, summaries_of};
ghost use Rattle.rg_space.specs.Space.{undos_in};
ghost use Rattle.rg_space.specs.Space.{with_frames};

use crate::fault::SpaceFault;
use crate::homes::{homes_of, values_of};
use crate::moves::{PartsRoom, over_before, size_of};
use crate::read::{hold_at, home_of, is_there, pointer_of};
use crate::summaries::Summaries;
use crate::survey::survey;
use rg_base::homes::Homes;
use rg_base::no_memory::NoMemory;
use rg_base::part::{Part, Parts};
use rg_base::place::Place;
use rg_base::position::Position;
use rg_base::row::Row;
use rg_base::tran::Tran;
use rg_base::values::Values;
use rg_home::plan::Plan;
use rg_page::frames::{Device, FrameFault, Frames};
use rg_page::header::Header;
use rg_page::page::{Page, PartFault};
use rg_record::record::Record;
use std::alloc::Global;

/// A copy of the table, as pages of slots.
#[derive(Drop)]
pub struct Space<F> {
    alloc: Global,
    frames: F,
    summaries: Summaries,
    capacity: u32,
    undos: Vec<PartsRoom>,
}

impl<F: Frames> Space<F> {
    /// The space of the pages that these frames have, which may have `capacity` pages. The frames
    /// come back where it is refused.
    pub fn new(alloc: Global, frames: F, capacity: u32) -> Result<Space<F>, (F, SpaceFault)>
        requires few { length (F.seen frames).pages ≤ capacity }
        requires limit { capacity ≤ (F.seen frames).limit }
        requires idle { 1 ≤ (F.seen frames).idle }
        requires none { (F.seen frames).reserved ≡ 0 }
        ensures step { IfOk result (λ space. InStep (F.seen (frames_of space)) (summaries_of space)
            (capacity_in space)) }
        ensures capacity { IfOk result (λ space. capacity_in space ≡ capacity) }
        ensures undos { IfOk result (λ space. undos_in space ≡ 0) }
        ensures agree { IfOk result (λ space. (F.seen (frames_of space)).sure ≡ true
            → Agree (F.seen (frames_of space)) (summaries_of space)) }
        ensures reads { IfOk result (λ space. Reads (F.seen frames) (F.seen (frames_of space))) }
        ensures idle { IfOk result (λ space. (F.seen frames).idle
            ≤ (F.seen (frames_of space)).idle) }
        ensures gave { IfOk result (λ space. F.gave (F.seen frames).pages
            (F.seen frames).forced frames (frames_of space)) }
        ensures back { IfErr result (λ refused. Reads (F.seen frames) (F.seen refused.0)) }
        ensures gave_back { IfErr result (λ refused. F.gave (F.seen frames).pages
            (F.seen frames).forced frames refused.0) }
        ensures cause { IfErr result (λ refused. HasRisen refused.1 (F.seen frames)
            (F.seen refused.0)) }
    {
        let mut frames = frames;
        let mut summaries = Summaries::new(alloc);
        match survey(alloc, &mut frames, &mut summaries) {
            Ok(()) => Ok(Space {
                alloc,
                frames,
                summaries,
                capacity,
                undos: Vec::new(alloc),
            }),
            Err(fault) => Err((frames, fault)),
        }
    }

    /// The frames, back again.
    pub fn into_frames(self) -> F
        ensures { result ≡ frames_of self }
    {
        self.frames
    }

    /// The row whose home is at this place, if there is one. Its pages are held.
    pub fn row_at(&mut self, home: Place) -> Result<Option<Row>, SpaceFault>
        requires spare { 2 ≤ (F.seen (frames_of self.old)).spare }
        requires step { InStep (F.seen (frames_of self.old)) (summaries_of self.old)
            (capacity_in self.old) }
        ensures row { IfOk result (λ row. row ≡ row_at
            (slot_in (F.seen (frames_of self.new))) home) }
        ensures step { InStep (F.seen (frames_of self.new)) (summaries_of self.new)
            (capacity_in self.new) }
        ensures capacity { capacity_in self.new ≡ capacity_in self.old }
        ensures undos { undos_in self.new ≡ undos_in self.old }
        ensures summaries { summaries_of self.new ≡ summaries_of self.old }
        ensures reserved { (F.seen (frames_of self.new)).reserved
            ≡ (F.seen (frames_of self.old)).reserved }
        ensures took { Took 2 (F.seen (frames_of self.old)) (F.seen (frames_of self.new)) }
        ensures idle { (F.seen (frames_of self.old)).idle ≤ (F.seen (frames_of self.new)).idle }
        ensures cause { IfErr result (λ fault. HasRisen fault (F.seen (frames_of self.old))
            (F.seen (frames_of self.new))) }
        ensures gave { F.gave (F.seen (frames_of self.old)).pages
            (F.seen (frames_of self.old)).forced (frames_of self.old) (frames_of self.new) }
    {
        let seen = home_of(&mut self.frames, self.alloc, home)?;
        Ok(seen.row)
    }

    /// The rows whose homes are on this page, by rising slot, each with the place of its home,
    /// wherever it lies. All pages are let go, before each row and at the end.
    pub fn home_rows(&mut self, page: u32) -> Result<Homes, SpaceFault>
        requires spare { 2 ≤ (F.seen (frames_of self.old)).spare }
        requires step { InStep (F.seen (frames_of self.old)) (summaries_of self.old)
            (capacity_in self.old) }
        // Where frames are not sure, the page may have changed between two of its rows.
        ensures rows { IfOk result (λ rows. (F.seen (frames_of self.new)).sure ≡ true
            → rows ≡ homes_on (slots_of (F.seen (frames_of self.new)).pages) page) }
        ensures step { InStep (F.seen (frames_of self.new)) (summaries_of self.new)
            (capacity_in self.new) }
        ensures capacity { capacity_in self.new ≡ capacity_in self.old }
        ensures undos { undos_in self.new ≡ undos_in self.old }
        ensures summaries { summaries_of self.new ≡ summaries_of self.old }
        ensures reserved { (F.seen (frames_of self.new)).reserved
            ≡ (F.seen (frames_of self.old)).reserved }
        ensures reads { Reads (F.seen (frames_of self.old)) (F.seen (frames_of self.new)) }
        ensures idle { (F.seen (frames_of self.old)).idle ≤ (F.seen (frames_of self.new)).idle }
        ensures spare { (F.seen (frames_of self.new)).spare ≡ (F.seen (frames_of self.new)).idle }
        ensures cause { IfErr result (λ fault. HasRisen fault (F.seen (frames_of self.old))
            (F.seen (frames_of self.new))) }
        ensures gave { F.gave (F.seen (frames_of self.old)).pages
            (F.seen (frames_of self.old)).forced (frames_of self.old) (frames_of self.new) }
    {
        let rows = homes_of(&mut self.frames, self.alloc, page);
        self.frames.let_go();
        rows
    }

    /// The values of these rows, in their order. All pages are let go, before each row and at the
    /// end.
    pub fn home_values(&mut self, page: u32) -> Result<Vec<(Place, Values)>, SpaceFault>
        requires spare { 2 ≤ (F.seen (frames_of self.old)).spare }
        requires step { InStep (F.seen (frames_of self.old)) (summaries_of self.old)
            (capacity_in self.old) }
        // Where frames are not sure, the page may have changed between two of its rows.
        ensures values { IfOk result (λ values. (F.seen (frames_of self.new)).sure ≡ true
            → values.items ≡ values_on (slots_of (F.seen (frames_of self.new)).pages) page) }
        ensures step { InStep (F.seen (frames_of self.new)) (summaries_of self.new)
            (capacity_in self.new) }
        ensures capacity { capacity_in self.new ≡ capacity_in self.old }
        ensures undos { undos_in self.new ≡ undos_in self.old }
        ensures summaries { summaries_of self.new ≡ summaries_of self.old }
        ensures reserved { (F.seen (frames_of self.new)).reserved
            ≡ (F.seen (frames_of self.old)).reserved }
        ensures reads { Reads (F.seen (frames_of self.old)) (F.seen (frames_of self.new)) }
        ensures idle { (F.seen (frames_of self.old)).idle ≤ (F.seen (frames_of self.new)).idle }
        ensures spare { (F.seen (frames_of self.new)).spare ≡ (F.seen (frames_of self.new)).idle }
        ensures cause { IfErr result (λ fault. HasRisen fault (F.seen (frames_of self.old))
            (F.seen (frames_of self.new))) }
        ensures gave { F.gave (F.seen (frames_of self.old)).pages
            (F.seen (frames_of self.old)).forced (frames_of self.old) (frames_of self.new) }
    {
        let values = values_of(&mut self.frames, self.alloc, page);
        self.frames.let_go();
        values
    }

    /// How many pages there are.
    pub fn count(&self) -> u32
        ensures { result ≡ length (F.seen (frames_of self.now)).pages }
    {
        self.frames.count()
    }

    /// How many pages there may be.
    pub fn capacity(&self) -> u32
        ensures { result ≡ capacity_in self.now }
    {
        self.capacity
    }

    /// The frames. Whoever changes how many pages they have, or what is on them, puts them out of
    /// step with the summaries.
    pub fn frames(&mut self) -> &mut F
        ensures* writes_back { sem 𝓛 (Lends (the_row F.row) F.row self.entry result
            (with_frames self.old)) }
        ensures frames { result.now ≡ frames_of self.old }
    {
        &mut self.frames
    }

    /// Lends a page, which is held from then on.
    pub fn page(&mut self, number: u32) -> Result<&Page, Device>
        requires low { 1 ≤ number }
        requires high { number ≤ length (F.seen (frames_of self.old)).pages }
        requires spare { 1 ≤ (F.seen (frames_of self.old)).spare }
        requires step { InStep (F.seen (frames_of self.old)) (summaries_of self.old)
            (capacity_in self.old) }
        ensures* read { sem 𝓛 (follows_so (the_row F.row) (the_row F.row) self.entry.ghost_name none
            (λ _ _. ⊤) (λ space.
            IfOk result (λ page. page.now ≡ content_at (F.seen (frames_of space)).pages number)
            × OnOk result (Held number (F.seen (frames_of self.old)) (F.seen (frames_of space)))
            × OnErr result (Failed (F.seen (frames_of self.old)) (F.seen (frames_of space)))
            × InStep (F.seen (frames_of space)) (summaries_of space) (capacity_in space)
            × (capacity_in space ≡ capacity_in self.old)
            × (undos_in space ≡ undos_in self.old)
            × (summaries_of space ≡ summaries_of self.old)
            × F.gave (F.seen (frames_of self.old)).pages (F.seen (frames_of self.old)).forced
            (frames_of self.old) (frames_of space))) }
    {
        self.frames.with_page(number)
    }

    // Reserves a page, and a summary for it.
    fn reserve(&mut self) -> Result<(), SpaceFault>
        requires spare { 1 ≤ (F.seen (frames_of self.old)).spare }
        requires none { (summaries_of self.old).room ≡ 0 }
        requires below { length (F.seen (frames_of self.old)).pages < capacity_in self.old }
        requires step { InStep (F.seen (frames_of self.old)) (summaries_of self.old)
            (capacity_in self.old) }
        ensures step { InStep (F.seen (frames_of self.new)) (summaries_of self.new)
            (capacity_in self.new) }
        ensures capacity { capacity_in self.new ≡ capacity_in self.old }
        ensures undos { undos_in self.new ≡ undos_in self.old }
        ensures summaries { (summaries_of self.new).pages ≡ (summaries_of self.old).pages }
        ensures reserved { OnOk result (1 ≤ (F.seen (frames_of self.new)).reserved) }
        ensures least { (F.seen (frames_of self.old)).reserved
            ≤ (F.seen (frames_of self.new)).reserved }
        ensures took { Took 1 (F.seen (frames_of self.old)) (F.seen (frames_of self.new)) }
        ensures cause { IfErr result (λ fault. HasRisen fault (F.seen (frames_of self.old))
            (F.seen (frames_of self.new))) }
        ensures gave { F.gave (F.seen (frames_of self.old)).pages
            (F.seen (frames_of self.old)).forced (frames_of self.old) (frames_of self.new) }
    {
        if self.summaries.reserve(self.alloc).is_err() {
            return Err(SpaceFault::NoMemory);
        }
        match self.frames.reserve_page() {
            Ok(()) => Ok(()),
            Err(fault) => {
                self.summaries.give_back();
                Err(match fault {
                    FrameFault::Device => SpaceFault::Device,
                    FrameFault::NoMemory => SpaceFault::NoMemory,
                })
            }
        }
    }

    // Holds the page of this number, if it is there. Where it is the next one, within the capacity,
    // sees that one is reserved.
    fn hold_page(&mut self, number: u32) -> Result<(), SpaceFault>
        requires spare { 1 ≤ (F.seen (frames_of self.old)).spare }
        requires step { InStep (F.seen (frames_of self.old)) (summaries_of self.old)
            (capacity_in self.old) }
        ensures step { InStep (F.seen (frames_of self.new)) (summaries_of self.new)
            (capacity_in self.new) }
        ensures capacity { capacity_in self.new ≡ capacity_in self.old }
        ensures undos { undos_in self.new ≡ undos_in self.old }
        ensures summaries { (summaries_of self.new).pages ≡ (summaries_of self.old).pages }
        ensures ready { OnOk result (IsReady (F.seen (frames_of self.new))
            (capacity_in self.new) number) }
        ensures least { (F.seen (frames_of self.old)).reserved
            ≤ (F.seen (frames_of self.new)).reserved }
        ensures took { Took 1 (F.seen (frames_of self.old)) (F.seen (frames_of self.new)) }
        ensures cause { IfErr result (λ fault. HasRisen fault (F.seen (frames_of self.old))
            (F.seen (frames_of self.new))) }
        ensures gave { F.gave (F.seen (frames_of self.old)).pages
            (F.seen (frames_of self.old)).forced (frames_of self.old) (frames_of self.new) }
    {
        if is_there(&self.frames, number) {
            return match self.frames.with_page(number) {
                Ok(_) => Ok(()),
                Err(_) => Err(SpaceFault::Device),
            };
        }
        if number as u64 != self.frames.count() as u64 + 1 {
            return Ok(());
        }
        if number > self.capacity {
            return Ok(());
        }
        if self.summaries.room() != 0 {
            return Ok(());
        }
        self.reserve()
    }

    // Holds the pages of parts, and reserves the next one where a part needs it.
    fn hold(&mut self, parts: &[Part]) -> Result<(), SpaceFault>
        requires spare { length parts.now ≤ (F.seen (frames_of self.old)).spare }
        requires step { InStep (F.seen (frames_of self.old)) (summaries_of self.old)
            (capacity_in self.old) }
        ensures step { InStep (F.seen (frames_of self.new)) (summaries_of self.new)
            (capacity_in self.new) }
        ensures capacity { capacity_in self.new ≡ capacity_in self.old }
        ensures undos { undos_in self.new ≡ undos_in self.old }
        ensures summaries { (summaries_of self.new).pages ≡ (summaries_of self.old).pages }
        ensures ready { OnOk result (AllReady (F.seen (frames_of self.new))
            (capacity_in self.new) parts.now) }
        ensures least { (F.seen (frames_of self.old)).reserved
            ≤ (F.seen (frames_of self.new)).reserved }
        ensures took { Took (length parts.now) (F.seen (frames_of self.old))
            (F.seen (frames_of self.new)) }
        ensures cause { IfErr result (λ fault. HasRisen fault (F.seen (frames_of self.old))
            (F.seen (frames_of self.new))) }
        ensures gave { F.gave (F.seen (frames_of self.old)).pages
            (F.seen (frames_of self.old)).forced (frames_of self.old) (frames_of self.new) }
    {
        for part in parts {
            self.hold_page(part.page)?;
        }
        Ok(())
    }

    /// The plan of a new row. Its pages are held, and a new one is reserved.
    pub fn plan_put(&mut self, row: &Row, live: &[Tran]) -> Result<Plan, SpaceFault>
        requires spare { 5 ≤ (F.seen (frames_of self.old)).spare }
        requires step { InStep (F.seen (frames_of self.old)) (summaries_of self.old)
            (capacity_in self.old) }
        ensures step { InStep (F.seen (frames_of self.new)) (summaries_of self.new)
            (capacity_in self.new) }
        ensures capacity { capacity_in self.new ≡ capacity_in self.old }
        ensures undos { undos_in self.new ≡ undos_in self.old }
        ensures summaries { (summaries_of self.new).pages ≡ (summaries_of self.old).pages }
        ensures plan { IfOk result (λ plan.
            Agree (F.seen (frames_of self.new)) (summaries_of self.new)
            → Some plan ≡ planned_put (numbers_of live.now) (row_size row.now)
            (slots_of (F.seen (frames_of self.new)).pages)
            (new_area (numbers_of live.now) (row_size row.now) (capacity_in self.new)
            (slots_of (F.seen (frames_of self.new)).pages))) }
        ensures hand { IfOk result (IsAtHand (F.seen (frames_of self.new)) (capacity_in self.new)) }
        ensures least { (F.seen (frames_of self.old)).reserved
            ≤ (F.seen (frames_of self.new)).reserved }
        ensures took { Took 5 (F.seen (frames_of self.old)) (F.seen (frames_of self.new)) }
        ensures cause { IfErr result (λ fault. HasCause fault (row_size row.now)
            (Agree (F.seen (frames_of self.new)) (summaries_of self.new)
            → planned_put (numbers_of live.now) (row_size row.now)
            (slots_of (F.seen (frames_of self.new)).pages)
            (new_area (numbers_of live.now) (row_size row.now) (capacity_in self.new)
            (slots_of (F.seen (frames_of self.new)).pages))
            ≡ None) (F.seen (frames_of self.old)) (F.seen (frames_of self.new))) }
        ensures gave { F.gave (F.seen (frames_of self.old)).pages
            (F.seen (frames_of self.old)).forced (frames_of self.old) (frames_of self.new) }
    {
        let b = row.size();
        let Ok(found) = self.summaries.put(self.alloc, live, b, self.capacity) else {
            return Err(SpaceFault::NoMemory);
        };
        let Some(put) = found else {
            return Err(SpaceFault::Full { need: b });
        };
        self.hold(put.1.parts.as_slice())?;
        Ok(Plan {
            home: put.0,
            before: None,
            purge: put.1.purge,
            parts: put.1.parts,
        })
    }

    /// The plan of this row in the place of the one whose home this is. Its pages are held,
    /// and a new one is reserved.
    pub fn plan_change(&mut self, home: Place, row: &Row, live: &[Tran]) -> Result<Plan, SpaceFault>
        requires spare { 5 ≤ (F.seen (frames_of self.old)).spare }
        requires step { InStep (F.seen (frames_of self.old)) (summaries_of self.old)
            (capacity_in self.old) }
        ensures step { InStep (F.seen (frames_of self.new)) (summaries_of self.new)
            (capacity_in self.new) }
        ensures capacity { capacity_in self.new ≡ capacity_in self.old }
        ensures undos { undos_in self.new ≡ undos_in self.old }
        ensures summaries { (summaries_of self.new).pages ≡ (summaries_of self.old).pages }
        ensures plan { IfOk result (λ plan.
            Agree (F.seen (frames_of self.new)) (summaries_of self.new)
            → Some plan ≡ planned_change (numbers_of live.now) (row_size row.now)
            (capacity_in self.new) (slots_of (F.seen (frames_of self.new)).pages) home) }
        ensures hand { IfOk result (IsAtHand (F.seen (frames_of self.new)) (capacity_in self.new)) }
        ensures least { (F.seen (frames_of self.old)).reserved
            ≤ (F.seen (frames_of self.new)).reserved }
        ensures took { Took 5 (F.seen (frames_of self.old)) (F.seen (frames_of self.new)) }
        ensures cause { IfErr result (λ fault. HasCause fault (row_size row.now)
            (Agree (F.seen (frames_of self.new)) (summaries_of self.new)
            → planned_change (numbers_of live.now) (row_size row.now) (capacity_in self.new)
            (slots_of (F.seen (frames_of self.new)).pages) home
            ≡ None) (F.seen (frames_of self.old)) (F.seen (frames_of self.new))) }
        ensures gave { F.gave (F.seen (frames_of self.old)).pages
            (F.seen (frames_of self.old)).forced (frames_of self.old) (frames_of self.new) }
    {
        let b = row.size();
        let seen = home_of(&mut self.frames, self.alloc, home)?;
        let Ok(found) = self
            .summaries
            .change(self.alloc, live, home, seen.other, b, self.capacity)
        else {
            return Err(SpaceFault::NoMemory);
        };
        let Some(moves) = found else {
            return Err(SpaceFault::Full { need: b });
        };
        self.hold(moves.parts.as_slice())?;
        Ok(Plan {
            home,
            before: seen.row,
            purge: moves.purge,
            parts: moves.parts,
        })
    }

    /// The plan of the drop of the row whose home this is. Its pages are held. It is never Full,
    /// and reserves no page.
    pub fn plan_drop(&mut self, home: Place) -> Result<Plan, SpaceFault>
        requires spare { 5 ≤ (F.seen (frames_of self.old)).spare }
        requires step { InStep (F.seen (frames_of self.old)) (summaries_of self.old)
            (capacity_in self.old) }
        ensures step { InStep (F.seen (frames_of self.new)) (summaries_of self.new)
            (capacity_in self.new) }
        ensures capacity { capacity_in self.new ≡ capacity_in self.old }
        ensures undos { undos_in self.new ≡ undos_in self.old }
        ensures summaries { summaries_of self.new ≡ summaries_of self.old }
        ensures plan { IfOk result (λ plan.
            Agree (F.seen (frames_of self.new)) (summaries_of self.new)
            → plan ≡ planned_drop (slots_of (F.seen (frames_of self.new)).pages) home
            (slot_of (slots_of (F.seen (frames_of self.new)).pages) home)) }
        ensures none { IfOk result (λ plan. plan.purge ≡ []) }
        ensures held { IfOk result (λ plan. AllHeld (F.seen (frames_of self.new)) plan.parts) }
        ensures reserved { (F.seen (frames_of self.new)).reserved
            ≡ (F.seen (frames_of self.old)).reserved }
        ensures took { Took 5 (F.seen (frames_of self.old)) (F.seen (frames_of self.new)) }
        ensures idle { (F.seen (frames_of self.old)).idle ≤ (F.seen (frames_of self.new)).idle }
        ensures cause { IfErr result (λ fault. HasRisen fault (F.seen (frames_of self.old))
            (F.seen (frames_of self.new))) }
        ensures gave { F.gave (F.seen (frames_of self.old)).pages
            (F.seen (frames_of self.old)).forced (frames_of self.old) (frames_of self.new) }
    {
        let seen = home_of(&mut self.frames, self.alloc, home)?;
        let Ok(room) = PartsRoom::new(self.alloc) else {
            return Err(SpaceFault::NoMemory);
        };
        let parts = self.summaries.drop_row(room, home, seen.other);
        self.hold_there(parts.as_slice())?;
        Ok(Plan {
            home,
            before: seen.row,
            purge: Parts::new(Vec::new(self.alloc)),
            parts,
        })
    }

    /// Makes room for `more` plans of `plan_undo`.
    pub fn reserve_undo(&mut self, more: u32) -> Result<(), NoMemory>
        ensures room { OnOk result (undos_in self.old + more ≡ undos_in self.new) }
        ensures least { undos_in self.old ≤ undos_in self.new }
        ensures frames { frames_of self.new ≡ frames_of self.old }
        ensures summaries { summaries_of self.new ≡ summaries_of self.old }
        ensures capacity { capacity_in self.new ≡ capacity_in self.old }
    {
        for _i in 0..more {
            let room = PartsRoom::new(self.alloc)?;
            self.undos.push(room)?;
        }
        Ok(())
    }

    // Holds the pages of parts that are there. It takes no memory.
    fn hold_there(&mut self, parts: &[Part]) -> Result<(), SpaceFault>
        requires spare { length parts.now ≤ (F.seen (frames_of self.old)).spare }
        requires step { InStep (F.seen (frames_of self.old)) (summaries_of self.old)
            (capacity_in self.old) }
        ensures step { InStep (F.seen (frames_of self.new)) (summaries_of self.new)
            (capacity_in self.new) }
        ensures capacity { capacity_in self.new ≡ capacity_in self.old }
        ensures summaries { summaries_of self.new ≡ summaries_of self.old }
        ensures undos { undos_in self.new ≡ undos_in self.old }
        ensures held { OnOk result (AllHeld (F.seen (frames_of self.new)) parts.now) }
        ensures reserved { (F.seen (frames_of self.new)).reserved
            ≡ (F.seen (frames_of self.old)).reserved }
        ensures took { Took (length parts.now) (F.seen (frames_of self.old))
            (F.seen (frames_of self.new)) }
        ensures device { IfErr result (λ fault. IsRisen fault (F.seen (frames_of self.old))
            (F.seen (frames_of self.new))) }
        ensures gave { F.gave (F.seen (frames_of self.old)).pages
            (F.seen (frames_of self.old)).forced (frames_of self.old) (frames_of self.new) }
    {
        for part in parts {
            hold_at(&mut self.frames, part.page)?;
        }
        Ok(())
    }

    /// The parts that undo a write, of its home, the row before it, and its parts. Their pages are
    /// held. It is never Full, and takes no memory, but one of the rooms that `reserve_undo` made.
    pub fn plan_undo(
        &mut self,
        home: Place,
        before: Option<&Row>,
        parts: &[Part],
    ) -> Result<Parts, SpaceFault>
        requires spare { 5 ≤ (F.seen (frames_of self.old)).spare }
        requires step { InStep (F.seen (frames_of self.old)) (summaries_of self.old)
            (capacity_in self.old) }
        requires room { 1 ≤ undos_in self.old }
        ensures step { InStep (F.seen (frames_of self.new)) (summaries_of self.new)
            (capacity_in self.new) }
        ensures capacity { capacity_in self.new ≡ capacity_in self.old }
        ensures summaries { summaries_of self.new ≡ summaries_of self.old }
        ensures undos { undos_in self.new + 1 ≡ undos_in self.old }
        ensures parts { IfOk result (λ undo.
            Agree (F.seen (frames_of self.new)) (summaries_of self.new)
            → undo ≡ undo_parts (slots_of (F.seen (frames_of self.new)).pages) home
            (over_before parts.now) (option_copied before.entry)
            (slot_of (slots_of (F.seen (frames_of self.new)).pages) home)) }
        ensures held { IfOk result (λ undo. AllHeld (F.seen (frames_of self.new)) undo) }
        ensures reserved { (F.seen (frames_of self.new)).reserved
            ≡ (F.seen (frames_of self.old)).reserved }
        ensures took { Took 5 (F.seen (frames_of self.old)) (F.seen (frames_of self.new)) }
        ensures idle { (F.seen (frames_of self.old)).idle ≤ (F.seen (frames_of self.new)).idle }
        ensures device { IfErr result (λ fault. IsRisen fault (F.seen (frames_of self.old))
            (F.seen (frames_of self.new))) }
        ensures gave { F.gave (F.seen (frames_of self.old)).pages
            (F.seen (frames_of self.old)).forced (frames_of self.old) (frames_of self.new) }
    {
        let room = match self.undos.pop() {
            Some(room) => room,
            None => unreachable!(),
        };
        let size = size_of(before);
        let other = pointer_of(&mut self.frames, home)?;
        let undo = self
            .summaries
            .undo(room, home, size, over_before(parts), other);
        self.hold_there(undo.as_slice())?;
        Ok(undo)
    }

    // Adds page `number`, where it is the next one, within the capacity, and reserved.
    fn grow(&mut self, number: u32)
        requires { InStep (F.seen (frames_of self.old)) (summaries_of self.old)
            (capacity_in self.old) }
        ensures step { InStep (F.seen (frames_of self.new)) (summaries_of self.new)
            (capacity_in self.new) }
        ensures capacity { capacity_in self.new ≡ capacity_in self.old }
        ensures undos { undos_in self.new ≡ undos_in self.old }
        ensures pages { (limit : ℕ) → Within limit (F.seen (frames_of self.old))
            (capacity_in self.old) → number ≤ length (F.seen (frames_of self.old)).pages + 1
            → number ≤ limit → (F.seen (frames_of self.new)).pages
            ≡ grown (F.seen (frames_of self.old)).copy (F.seen (frames_of self.old)).pages number }
        ensures writes { Writes 0 (F.seen (frames_of self.old)) (F.seen (frames_of self.new)) }
        ensures agree { Agree (F.seen (frames_of self.old)) (summaries_of self.old)
            → Agree (F.seen (frames_of self.new)) (summaries_of self.new) }
        ensures gave { (pages : List Content) (n : ℕ) → F.gave pages n (frames_of self.old)
            (frames_of self.new) }
    {
        if number as u64 != self.frames.count() as u64 + 1 {
            return;
        }
        if number > self.capacity {
            return;
        }
        if self.summaries.room() == 0 {
            return;
        }
        self.frames.add_page();
        self.summaries.add();
    }

    /// Sets a slot of a page that is held, if the part fits it.
    pub(crate) fn try_set(
        &mut self,
        part: &Part,
        tran: Tran,
        after: Option<&Row>,
        position: Position,
    ) -> Result<(), PartFault>
        requires low { 1 ≤ part.now.page }
        requires high { part.now.page ≤ length (F.seen (frames_of self.old)).pages }
        requires held { (F.seen (frames_of self.old)).held part.now.page ≡ true }
        requires step { InStep (F.seen (frames_of self.old)) (summaries_of self.old)
            (capacity_in self.old) }
        ensures step { InStep (F.seen (frames_of self.new)) (summaries_of self.new)
            (capacity_in self.new) }
        ensures capacity { capacity_in self.new ≡ capacity_in self.old }
        ensures undos { undos_in self.new ≡ undos_in self.old }
        ensures ok { OnOk result (WasSet part.now tran.0 (option_copied after.entry) position.0
            (F.seen (frames_of self.old)) (F.seen (frames_of self.new))) }
        ensures fits { OnOk result (PartFits part.now.page
            (content_at (F.seen (frames_of self.old)).pages part.now.page).slots tran.0
            (option_copied after.entry) part.now) }
        ensures unfit { OnErr result (PartFits part.now.page
            (content_at (F.seen (frames_of self.old)).pages part.now.page).slots tran.0
            (option_copied after.entry) part.now → ⊥) }
        ensures err { OnErr result (F.seen (frames_of self.new) ≡ F.seen (frames_of self.old)) }
        ensures agree { Agree (F.seen (frames_of self.old)) (summaries_of self.old)
            → Agree (F.seen (frames_of self.new)) (summaries_of self.new) }
        ensures gave { (pages : List Content) (n : ℕ) → F.gave pages n (frames_of self.old)
            (frames_of self.new) }
    {
        match self.frames.set_page(part, tran, after, position) {
            Ok(()) => {
                let place = Place {
                    page: part.page,
                    slot: part.slot,
                };
                self.summaries.note(place, Header::of(part.op, tran));
                Ok(())
            }
            Err(fault) => Err(fault),
        }
    }

    // Sets a slot of a page that is there.
    fn set(&mut self, part: &Part, tran: Tran, after: Option<&Row>, position: Position)
        requires step { InStep (F.seen (frames_of self.old)) (summaries_of self.old)
            (capacity_in self.old) }
        requires held { IsHeldAt (F.seen (frames_of self.old)) part.now.page }
        ensures step { InStep (F.seen (frames_of self.new)) (summaries_of self.new)
            (capacity_in self.new) }
        ensures capacity { capacity_in self.new ≡ capacity_in self.old }
        ensures undos { undos_in self.new ≡ undos_in self.old }
        ensures pages { (limit : ℕ) → part.now.page ≤ length (F.seen (frames_of self.old)).pages
            → IsApplicable limit (F.seen (frames_of self.old)).pages tran.0
            (option_copied after.entry) part.now
            → (F.seen (frames_of self.new)).pages
            ≡ set_content (F.seen (frames_of self.old)).pages part.now tran.0
            (option_copied after.entry) position.0 }
        ensures count { length (F.seen (frames_of self.new)).pages
            ≡ length (F.seen (frames_of self.old)).pages }
        ensures writes { Writes position.0 (F.seen (frames_of self.old))
            (F.seen (frames_of self.new)) }
        ensures agree { Agree (F.seen (frames_of self.old)) (summaries_of self.old)
            → Agree (F.seen (frames_of self.new)) (summaries_of self.new) }
        ensures gave { (pages : List Content) (n : ℕ) → F.gave pages n (frames_of self.old)
            (frames_of self.new) }
    {
        if part.page == 0 || part.page > self.frames.count() {
            return;
        }
        match self.try_set(part, tran, after, position) {
            Ok(()) => {}
            // A part that does not fit is left out, and no clause says then what the pages are.
            Err(_) => {}
        }
    }

    // Applies one part. A page that is the next one is added.
    fn put(&mut self, part: &Part, tran: Tran, after: Option<&Row>, position: Position)
        requires step { InStep (F.seen (frames_of self.old)) (summaries_of self.old)
            (capacity_in self.old) }
        requires held { IsHeldAt (F.seen (frames_of self.old)) part.now.page }
        ensures step { InStep (F.seen (frames_of self.new)) (summaries_of self.new)
            (capacity_in self.new) }
        ensures capacity { capacity_in self.new ≡ capacity_in self.old }
        ensures undos { undos_in self.new ≡ undos_in self.old }
        ensures pages { (limit : ℕ) → Within limit (F.seen (frames_of self.old))
            (capacity_in self.old) → IsApplicable limit (F.seen (frames_of self.old)).pages tran.0
            (option_copied after.entry) part.now
            → (F.seen (frames_of self.new)).pages
            ≡ wrote_part (F.seen (frames_of self.old)).copy tran.0
            (option_copied after.entry) position.0 (F.seen (frames_of self.old)).pages part.now }
        ensures writes { Writes position.0 (F.seen (frames_of self.old))
            (F.seen (frames_of self.new)) }
        ensures agree { Agree (F.seen (frames_of self.old)) (summaries_of self.old)
            → Agree (F.seen (frames_of self.new)) (summaries_of self.new) }
        ensures gave { (pages : List Content) (n : ℕ) → F.gave pages n (frames_of self.old)
            (frames_of self.new) }
    {
        self.grow(part.page);
        self.set(part, tran, after, position);
    }

    /// Applies the parts of a record, in order, where their pages are held and new ones reserved.
    /// It takes no memory and asks no device.
    pub fn apply_parts(
        &mut self,
        parts: &[Part],
        tran: Tran,
        after: Option<&Row>,
        position: Position,
    )
        requires step { InStep (F.seen (frames_of self.old)) (summaries_of self.old)
            (capacity_in self.old) }
        requires held { AllHeld (F.seen (frames_of self.old)) parts.now }
        ensures step { InStep (F.seen (frames_of self.new)) (summaries_of self.new)
            (capacity_in self.new) }
        ensures capacity { capacity_in self.new ≡ capacity_in self.old }
        ensures undos { undos_in self.new ≡ undos_in self.old }
        ensures pages { (limit : ℕ) → Within limit (F.seen (frames_of self.old))
            (capacity_in self.old) → AreApplicable limit (F.seen (frames_of self.old)).copy tran.0
            (option_copied after.entry) position.0 (F.seen (frames_of self.old)).pages parts.now
            → (F.seen (frames_of self.new)).pages
            ≡ wrote_all (F.seen (frames_of self.old)).copy tran.0
            (option_copied after.entry) position.0 (F.seen (frames_of self.old)).pages parts.now }
        ensures writes { Writes position.0 (F.seen (frames_of self.old))
            (F.seen (frames_of self.new)) }
        ensures agree { Agree (F.seen (frames_of self.old)) (summaries_of self.old)
            → Agree (F.seen (frames_of self.new)) (summaries_of self.new) }
        ensures gave { (pages : List Content) (n : ℕ) → F.gave pages n (frames_of self.old)
            (frames_of self.new) }
    {
        for part in parts {
            self.put(part, tran, after, position);
        }
    }

    /// Applies a record whose pages are held, and reserved where they are new. It takes no memory
    /// and asks no device.
    pub fn apply(&mut self, entry: &Record)
        requires step { InStep (F.seen (frames_of self.old)) (summaries_of self.old)
            (capacity_in self.old) }
        requires held { AllHeld (F.seen (frames_of self.old)) (parts_of entry.now.kind) }
        ensures step { InStep (F.seen (frames_of self.new)) (summaries_of self.new)
            (capacity_in self.new) }
        ensures capacity { capacity_in self.new ≡ capacity_in self.old }
        ensures undos { undos_in self.new ≡ undos_in self.old }
        ensures slots { CanApplyRecord (F.seen (frames_of self.old)) (capacity_in self.old)
            entry.now → slots_of (F.seen (frames_of self.new)).pages
            ≡ record_applied (slots_of (F.seen (frames_of self.old)).pages) entry.now }
        ensures pages { CanApplyRecord (F.seen (frames_of self.old)) (capacity_in self.old)
            entry.now → (F.seen (frames_of self.new)).pages
            ≡ record_wrote (F.seen (frames_of self.old)).copy
            (F.seen (frames_of self.old)).pages entry.now }
        ensures count { CanApplyRecord (F.seen (frames_of self.old)) (capacity_in self.old)
            entry.now → AllThere (length (F.seen (frames_of self.old)).pages)
            (parts_of entry.now.kind) → length (F.seen (frames_of self.new)).pages
            ≡ length (F.seen (frames_of self.old)).pages }
        // So once a plan has purged, its parts are at hand as they were.
        ensures stay { length (F.seen (frames_of self.new)).pages
            ≡ length (F.seen (frames_of self.old)).pages → (parts : List Part)
            → AllReady (F.seen (frames_of self.old)) (capacity_in self.old) parts
            → AllReady (F.seen (frames_of self.new)) (capacity_in self.old) parts }
        ensures writes { Writes entry.now.position.0 (F.seen (frames_of self.old))
            (F.seen (frames_of self.new)) }
        ensures agree { Agree (F.seen (frames_of self.old)) (summaries_of self.old)
            → Agree (F.seen (frames_of self.new)) (summaries_of self.new) }
        ensures gave { (pages : List Content) (n : ℕ) → F.gave pages n (frames_of self.old)
            (frames_of self.new) }
    {
        self.apply_parts(entry.parts(), entry.tran, entry.after(), entry.position);
    }

    /// Lets all pages go.
    pub fn let_go(&mut self)
        requires { InStep (F.seen (frames_of self.old)) (summaries_of self.old)
            (capacity_in self.old) }
        ensures step { InStep (F.seen (frames_of self.new)) (summaries_of self.new)
            (capacity_in self.new) }
        ensures capacity { capacity_in self.new ≡ capacity_in self.old }
        ensures undos { undos_in self.new ≡ undos_in self.old }
        ensures summaries { summaries_of self.new ≡ summaries_of self.old }
        ensures let_go { LetGo (F.seen (frames_of self.old)) (F.seen (frames_of self.new)) }
        ensures gave { (pages : List Content) (n : ℕ) → F.gave pages n (frames_of self.old)
            (frames_of self.new) }
    {
        self.frames.let_go();
    }
}
