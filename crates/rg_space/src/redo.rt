// Records redone.
//
// 1. A page has all records up to its position. So a record is redone on those of its pages whose
//    position is below its own, and there all of its parts are.
// 2. What is decided of a page is decided before the first part on it, since a part raises the
//    position. So pages are taken one at a time, and a page that is named again has the record.
// 3. A part that does not fit shows that log and pages do not belong together. Then the space is of
//    no use any more.
ghost use Rattle.std.specs.Prelude.{◌≡◌, ◌≤◌, ◌<◌, ◌+◌, ◌-◌, ◌↔◌, ℕ, List, IsTrue, true, map};
ghost use Rattle.std.specs.Prelude.{length, IfOk, IfErr, OnOk, OnErr, slice_set};
ghost use Rattle.std.specs.List.{All};
ghost use Rattle.rg_home.specs.Pages.{PartFits};
ghost use Rattle.rg_page.specs.Content.{Content, content_at};
ghost use Rattle.rg_page.specs.Seen.{Keeps, Reads};
ghost use Rattle.rg_outside.specs.Faults.{Rose};
ghost use Rattle.rg_record.specs.Applied.{parts_of, after_of};
ghost use Rattle.rg_space.specs.Carries.{AllThere};
ghost use Rattle.rg_space.specs.Redo.{with_part, with_parts, AllFit, redone, redone_on, RedoFits};
ghost use Rattle.rg_space.specs.Redo.{HasRedoCause};
ghost use Rattle.rg_space.specs.Space.{Agree, InStep, frames_of, summaries_of, capacity_in};
ghost use Rattle.rg_space.specs.Space.{undos_in};

use crate::fault::RedoFault;
use crate::space::Space;
use rg_base::part::Part;
use rg_base::position::Position;
use rg_page::frames::{Device, Frames};
use rg_page::page::PartFault;
use rg_record::record::Record;

impl<F: Frames> Space<F> {
    /// Whether each of these parts is on a page that is there.
    pub fn has_pages(&self, parts: &[Part]) -> bool
        ensures { IsTrue result ↔ AllThere (length (F.seen (frames_of self.now)).pages) parts.now }
    {
        let count = self.count();
        for part in parts {
            if part.page == 0 || part.page > count {
                return false;
            }
        }
        true
    }

    // Redoes a part, if it is on this page, which is held.
    fn redo_part(&mut self, number: u32, part: &Part, entry: &Record) -> Result<(), PartFault>
        requires low { 1 ≤ number }
        requires high { number ≤ length (F.seen (frames_of self.old)).pages }
        requires held { (F.seen (frames_of self.old)).held number ≡ true }
        requires step { InStep (F.seen (frames_of self.old)) (summaries_of self.old)
            (capacity_in self.old) }
        ensures step { InStep (F.seen (frames_of self.new)) (summaries_of self.new)
            (capacity_in self.new) }
        ensures capacity { capacity_in self.new ≡ capacity_in self.old }
        ensures undos { undos_in self.new ≡ undos_in self.old }
        ensures pages { OnOk result ((F.seen (frames_of self.new)).pages
            ≡ slice_set (F.seen (frames_of self.old)).pages (number - 1)
            (with_part entry.now.tran.0 (after_of entry.now.kind) entry.now.position.0
            (content_at (F.seen (frames_of self.old)).pages number) part.now)) }
        ensures fits { OnOk result (part.now.page ≡ number → PartFits number
            (content_at (F.seen (frames_of self.old)).pages number).slots entry.now.tran.0
            (after_of entry.now.kind) part.now) }
        ensures unfit { OnErr result ((part.now.page ≡ number → PartFits number
            (content_at (F.seen (frames_of self.old)).pages number).slots entry.now.tran.0
            (after_of entry.now.kind) part.now) → ⊥) }
        ensures keeps { Keeps (F.seen (frames_of self.old)) (F.seen (frames_of self.new)) }
        ensures sure { (F.seen (frames_of self.new)).sure ≡ (F.seen (frames_of self.old)).sure }
        ensures held { (F.seen (frames_of self.new)).held number ≡ true }
        ensures forced { (F.seen (frames_of self.new)).forced
            ≡ (F.seen (frames_of self.old)).forced }
        ensures reserved { (F.seen (frames_of self.new)).reserved
            ≡ (F.seen (frames_of self.old)).reserved }
        ensures count { length (F.seen (frames_of self.new)).pages
            ≡ length (F.seen (frames_of self.old)).pages }
        ensures idle { entry.now.position.0 ≤ (F.seen (frames_of self.old)).forced
            → (F.seen (frames_of self.old)).idle ≤ (F.seen (frames_of self.new)).idle }
        ensures agree { Agree (F.seen (frames_of self.old)) (summaries_of self.old)
            → Agree (F.seen (frames_of self.new)) (summaries_of self.new) }
        ensures gave { (pages : List Content) (n : ℕ) → F.gave pages n (frames_of self.old)
            (frames_of self.new) }
    {
        if part.page != number {
            return Ok(());
        }
        self.try_set(part, entry.tran, entry.after(), entry.position)
    }

    // Redoes all parts of a record that are on this page, which is held.
    fn redo_held(&mut self, number: u32, entry: &Record) -> Result<(), PartFault>
        requires low { 1 ≤ number }
        requires high { number ≤ length (F.seen (frames_of self.old)).pages }
        requires held { (F.seen (frames_of self.old)).held number ≡ true }
        requires step { InStep (F.seen (frames_of self.old)) (summaries_of self.old)
            (capacity_in self.old) }
        ensures step { InStep (F.seen (frames_of self.new)) (summaries_of self.new)
            (capacity_in self.new) }
        ensures capacity { capacity_in self.new ≡ capacity_in self.old }
        ensures undos { undos_in self.new ≡ undos_in self.old }
        ensures pages { OnOk result ((F.seen (frames_of self.new)).pages
            ≡ slice_set (F.seen (frames_of self.old)).pages (number - 1)
            (with_parts entry.now.tran.0 (after_of entry.now.kind) entry.now.position.0
            (content_at (F.seen (frames_of self.old)).pages number) (parts_of entry.now.kind))) }
        ensures fits { OnOk result (AllFit entry.now.tran.0 (after_of entry.now.kind)
            entry.now.position.0 (content_at (F.seen (frames_of self.old)).pages number)
            (parts_of entry.now.kind)) }
        ensures unfit { OnErr result (AllFit entry.now.tran.0 (after_of entry.now.kind)
            entry.now.position.0 (content_at (F.seen (frames_of self.old)).pages number)
            (parts_of entry.now.kind) → ⊥) }
        ensures keeps { Keeps (F.seen (frames_of self.old)) (F.seen (frames_of self.new)) }
        ensures sure { (F.seen (frames_of self.new)).sure ≡ (F.seen (frames_of self.old)).sure }
        ensures forced { (F.seen (frames_of self.new)).forced
            ≡ (F.seen (frames_of self.old)).forced }
        ensures reserved { (F.seen (frames_of self.new)).reserved
            ≡ (F.seen (frames_of self.old)).reserved }
        ensures count { length (F.seen (frames_of self.new)).pages
            ≡ length (F.seen (frames_of self.old)).pages }
        ensures idle { entry.now.position.0 ≤ (F.seen (frames_of self.old)).forced
            → (F.seen (frames_of self.old)).idle ≤ (F.seen (frames_of self.new)).idle }
        ensures agree { Agree (F.seen (frames_of self.old)) (summaries_of self.old)
            → Agree (F.seen (frames_of self.new)) (summaries_of self.new) }
        ensures gave { (pages : List Content) (n : ℕ) → F.gave pages n (frames_of self.old)
            (frames_of self.new) }
    {
        for part in entry.parts() {
            match self.redo_part(number, part, entry) {
                Ok(()) => {}
                Err(fault) => return Err(fault),
            }
        }
        Ok(())
    }

    // The position of a page, which is held from then on.
    fn position_of(&mut self, number: u32) -> Result<Position, Device>
        requires low { 1 ≤ number }
        requires high { number ≤ length (F.seen (frames_of self.old)).pages }
        requires spare { 1 ≤ (F.seen (frames_of self.old)).spare }
        requires step { InStep (F.seen (frames_of self.old)) (summaries_of self.old)
            (capacity_in self.old) }
        ensures position { IfOk result (λ position. position.0
            ≡ (content_at (F.seen (frames_of self.new)).pages number).position) }
        ensures held { OnOk result ((F.seen (frames_of self.new)).held number ≡ true) }
        ensures reads { Reads (F.seen (frames_of self.old)) (F.seen (frames_of self.new)) }
        ensures cause { OnErr result (Rose (F.seen (frames_of self.old)).faults
            (F.seen (frames_of self.new)).faults) }
        ensures step { InStep (F.seen (frames_of self.new)) (summaries_of self.new)
            (capacity_in self.new) }
        ensures capacity { capacity_in self.new ≡ capacity_in self.old }
        ensures undos { undos_in self.new ≡ undos_in self.old }
        ensures summaries { summaries_of self.new ≡ summaries_of self.old }
        ensures reserved { (F.seen (frames_of self.new)).reserved
            ≡ (F.seen (frames_of self.old)).reserved }
        ensures idle { (F.seen (frames_of self.old)).idle ≤ (F.seen (frames_of self.new)).idle }
        ensures gave { F.gave (F.seen (frames_of self.old)).pages
            (F.seen (frames_of self.old)).forced (frames_of self.old) (frames_of self.new) }
    {
        match self.page(number) {
            Ok(page) => Ok(page.position()),
            Err(fault) => Err(fault),
        }
    }

    /// Redoes a record on one page. All pages are let go first.
    pub fn redo_page(&mut self, number: u32, entry: &Record) -> Result<(), RedoFault>
        requires low { 1 ≤ number }
        requires high { number ≤ length (F.seen (frames_of self.old)).pages }
        requires idle { 1 ≤ (F.seen (frames_of self.old)).idle }
        requires step { InStep (F.seen (frames_of self.old)) (summaries_of self.old)
            (capacity_in self.old) }
        ensures pages { OnOk result ((F.seen (frames_of self.new)).sure ≡ true
            → (F.seen (frames_of self.new)).pages
            ≡ redone_on entry.now number (F.seen (frames_of self.old)).pages) }
        ensures fits { OnOk result ((F.seen (frames_of self.new)).sure ≡ true
            → RedoFits entry.now (content_at (F.seen (frames_of self.old)).pages number)) }
        ensures cause { IfErr result (λ fault. HasRedoCause fault
            (RedoFits entry.now (content_at (F.seen (frames_of self.old)).pages number))
            (F.seen (frames_of self.old)) (F.seen (frames_of self.new))) }
        ensures step { InStep (F.seen (frames_of self.new)) (summaries_of self.new)
            (capacity_in self.new) }
        ensures capacity { capacity_in self.new ≡ capacity_in self.old }
        ensures undos { undos_in self.new ≡ undos_in self.old }
        ensures keeps { Keeps (F.seen (frames_of self.old)) (F.seen (frames_of self.new)) }
        ensures forced { (F.seen (frames_of self.new)).forced
            ≡ (F.seen (frames_of self.old)).forced }
        ensures reserved { (F.seen (frames_of self.new)).reserved
            ≡ (F.seen (frames_of self.old)).reserved }
        ensures count { length (F.seen (frames_of self.new)).pages
            ≡ length (F.seen (frames_of self.old)).pages }
        ensures idle { entry.now.position.0 ≤ (F.seen (frames_of self.old)).forced
            → (F.seen (frames_of self.old)).idle ≤ (F.seen (frames_of self.new)).idle }
        ensures agree { (F.seen (frames_of self.new)).sure ≡ true
            → Agree (F.seen (frames_of self.old)) (summaries_of self.old)
            → Agree (F.seen (frames_of self.new)) (summaries_of self.new) }
        ensures gave { F.gave (F.seen (frames_of self.old)).pages
            (F.seen (frames_of self.old)).forced (frames_of self.old) (frames_of self.new) }
    {
        self.let_go();
        let Ok(position) = self.position_of(number) else {
            return Err(RedoFault::Device);
        };
        if position.0 >= entry.position.0 {
            return Ok(());
        }
        match self.redo_held(number, entry) {
            Ok(()) => Ok(()),
            Err(_) => Err(RedoFault::Unfit),
        }
    }

    /// Redoes a record on each page that it names and whose position is below its own. All pages
    /// are let go first, and between two of them.
    pub fn redo(&mut self, entry: &Record) -> Result<(), RedoFault>
        requires there { AllThere (length (F.seen (frames_of self.old)).pages)
            (parts_of entry.now.kind) }
        requires idle { 1 ≤ (F.seen (frames_of self.old)).idle }
        requires forced { entry.now.position.0 ≤ (F.seen (frames_of self.old)).forced }
        requires step { InStep (F.seen (frames_of self.old)) (summaries_of self.old)
            (capacity_in self.old) }
        ensures pages { OnOk result ((F.seen (frames_of self.new)).sure ≡ true
            → (F.seen (frames_of self.new)).pages
            ≡ map (redone entry.now) (F.seen (frames_of self.old)).pages) }
        ensures fits { OnOk result ((F.seen (frames_of self.new)).sure ≡ true
            → All (RedoFits entry.now) (F.seen (frames_of self.old)).pages) }
        ensures cause { IfErr result (λ fault. HasRedoCause fault
            (All (RedoFits entry.now) (F.seen (frames_of self.old)).pages)
            (F.seen (frames_of self.old)) (F.seen (frames_of self.new))) }
        ensures step { InStep (F.seen (frames_of self.new)) (summaries_of self.new)
            (capacity_in self.new) }
        ensures capacity { capacity_in self.new ≡ capacity_in self.old }
        ensures undos { undos_in self.new ≡ undos_in self.old }
        ensures keeps { Keeps (F.seen (frames_of self.old)) (F.seen (frames_of self.new)) }
        ensures forced { (F.seen (frames_of self.new)).forced
            ≡ (F.seen (frames_of self.old)).forced }
        ensures reserved { (F.seen (frames_of self.new)).reserved
            ≡ (F.seen (frames_of self.old)).reserved }
        ensures count { length (F.seen (frames_of self.new)).pages
            ≡ length (F.seen (frames_of self.old)).pages }
        ensures idle { (F.seen (frames_of self.old)).idle ≤ (F.seen (frames_of self.new)).idle }
        ensures agree { (F.seen (frames_of self.new)).sure ≡ true
            → Agree (F.seen (frames_of self.old)) (summaries_of self.old)
            → Agree (F.seen (frames_of self.new)) (summaries_of self.new) }
    {
        for part in entry.parts() {
            match self.redo_page(part.page, entry) {
                Ok(()) => {}
                Err(fault) => return Err(fault),
            }
        }
        Ok(())
    }
}
