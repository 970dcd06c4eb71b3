// The new copy in the making.
//
// 1. It is packed first: a page is filled with the next rows, until all are placed. Then it is
//    loaded, and its lists are sorted and its indexes built one by one.
// 2. The rows are those of the copies of pages that were received. Changes that are received are
//    made in it once it is loaded, in their order.
// 3. Which copy it is to be, how many pages it may have, and how far its indexes are made stay with
//    its rows.
ghost use Rattle.std.specs.Prelude.{◌≡◌, ◌≤◌, ◌<◌, ◌+◌, false, length, IfOk, IfErr, OnOk};
ghost use Rattle.rg_base.specs.declared.which.Which.{Which as WhichOf};
ghost use Rattle.rg_feed.specs.Fold.Fold.{changes, since_begin};
ghost use Rattle.rg_feed.specs.Fold.Lawful.{Lawful};
ghost use Rattle.rg_phase.specs.Drafted.{IsDraftOf, IsFullOf, IsPackingOf, LacksPageIfFull};
ghost use Rattle.rg_phase.specs.Drafted.{SameRows};
ghost use Rattle.rg_laws_utility.specs.CopyWeight.Weighed.{weigh_feed};
ghost use Rattle.rg_reload.specs.Reloading.{Fills};
ghost use Rattle.rg_shadow.specs.Shade.{stage_in, with_stage};
ghost use Rattle.rg_shadow.specs.declared.drafts.IndexStage.TheVariants.{Unsorted, Sorted, Built};

use rg_base::homes::Homes;
use rg_base::no_memory::NoMemory;
use rg_base::note::note;
use rg_base::options::Options;
use rg_base::place::Place;
use rg_base::which::Which;
use rg_desk::task::Task;
use rg_feed::inlet::FeedIn;
use rg_reload::fault::ReloadFault;
use rg_reload::packer::{Filled, Packer};
use rg_shadow::fault::ShadowFault;
use rg_shadow::shadow::Shadow;
use rg_translate::catch_up::catch_up;
use rg_translate::load::copied::rows_of;
use rg_translate::load::load::load;
use std::alloc::Global;

/// A new copy whose pages are being filled, and by which options.
#[derive(Drop)]
pub struct Packing {
    pub packer: Packer,
    pub options: Options,
}

/// A new copy that is loaded, and by which options it was packed.
#[derive(Drop)]
pub struct Draft {
    pub shadow: Shadow,
    pub options: Options,
}

impl Packing {
    /// A packer of the rows of all copies that were received. No change was taken yet.
    pub fn begin(alloc: Global, inlet: &FeedIn, task: &Task) -> Result<Packing, NoMemory>
        requires lawful { Lawful (since_begin inlet.now.items) }
        requires none { inlet.now.taken ≡ 0 }
        ensures packing { IfOk result (λ p. IsPackingOf p.options p.packer inlet.now.items
            inlet.now.taken) }
        ensures start { IfOk result (λ p. p.packer ≡ record {
          copy = task.now.copy;
          capacity = task.now.capacity;
          options = task.now.stage.options;
          rows = p.packer.rows;
          count = 0;
          filled = 0;
          whole = false;
          spent = false;
        }) }
    {
        let rows = rows_of(alloc, inlet.copies())?;
        let options = &task.stage.options;
        let packer = Packer::new(alloc, task.copy, rows, options, task.capacity)?;
        Ok(Packing {
            packer,
            options: *options,
        })
    }

    /// Fills the next page, where not every row is placed.
    pub fn fill(&mut self) -> Result<Filled, ReloadFault>
        requires rest { self.old.packer.count < length self.old.packer.rows }
        ensures options { self.new.options ≡ self.old.options }
        ensures filled { IfOk result (λ filled.
            Fills self.old.packer filled self.new.packer) }
        ensures full { IfErr result (LacksPageIfFull self.old.packer) }
    {
        match self.packer.next_page()? {
            Some(filled) => Ok(filled),
            None => unreachable!(),
        }
    }

    /// The new copy, once every row is placed.
    pub fn load(self, alloc: Global, inlet: &FeedIn) -> Result<Draft, NoMemory>
        requires lawful { Lawful (since_begin inlet.now.items) }
        requires packing { IsPackingOf self.options self.packer inlet.now.items inlet.now.taken }
        requires whole { length self.packer.rows ≤ self.packer.count }
        ensures draft { IfOk result (λ d. IsDraftOf d.options d.shadow inlet.now.items
            inlet.now.taken) }
        ensures options { IfOk result (λ d. d.options ≡ self.options) }
        ensures copy { IfOk result (λ d. d.shadow.copy ≡ self.packer.copy) }
        ensures capacity { IfOk result (λ d. d.shadow.capacity ≡ self.packer.capacity) }
        ensures unsorted { IfOk result (λ d. (which : WhichOf) →
            stage_in which d.shadow ≡ Unsorted) }
    {
        let Packing { packer, options } = self;
        let mut packer = packer;
        match packer.next_page() {
            Ok(None) => {}
            Err(ReloadFault::NoMemory) => return Err(NoMemory),
            Ok(Some(_)) => unreachable!(),
            Err(ReloadFault::NoSpace { .. }) => unreachable!(),
        }
        let shadow = load(alloc, packer)?;
        // That each source leads to a row of its own: what is made in the new copy goes by it.
        note(&shadow.target(Place { page: 0, slot: 0 }));
        Ok(Draft { shadow, options })
    }
}

impl Draft {
    /// Sorts the list of one index.
    pub fn sort(&mut self, which: Which) -> Result<(), NoMemory>
        ensures rows { SameRows self.old.shadow self.new.shadow }
        ensures options { self.new.options ≡ self.old.options }
        ensures ok { OnOk result (self.new.shadow ≡ with_stage which Sorted self.old.shadow) }
    {
        self.shadow.sort(which)
    }

    /// Builds one index, whose list is sorted.
    pub fn build(&mut self, which: Which) -> Result<(), NoMemory>
        requires sorted { stage_in which self.old.shadow ≡ Sorted }
        ensures rows { SameRows self.old.shadow self.new.shadow }
        ensures options { self.new.options ≡ self.old.options }
        ensures ok { OnOk result (self.new.shadow ≡ with_stage which Built self.old.shadow) }
    {
        self.shadow.build(which)
    }

    /// Makes the next changes that were received, exactly so many. NoSpace is returned only where
    /// it has no room for one of them, NoMemory only where memory runs out.
    pub fn take(&mut self, alloc: Global, inlet: &mut FeedIn, count: u8) -> Result<(), ShadowFault>
        requires lawful { Lawful (since_begin inlet.old.items) }
        requires draft { IsDraftOf self.old.options self.old.shadow inlet.old.items
            inlet.old.taken }
        requires there { inlet.old.taken + count
            ≤ length (changes (since_begin inlet.old.items)) }
        ensures ring { inlet.new.ring ≡ inlet.old.ring }
        ensures items { inlet.new.items ≡ inlet.old.items }
        ensures options { self.new.options ≡ self.old.options }
        ensures copy { self.new.shadow.copy ≡ self.old.shadow.copy }
        ensures capacity { self.new.shadow.capacity ≡ self.old.shadow.capacity }
        ensures built { (which : WhichOf) → stage_in which self.old.shadow ≡ Built
            → stage_in which self.new.shadow ≡ Built }
        ensures draft { OnOk result (IsDraftOf self.new.options self.new.shadow inlet.new.items
            inlet.new.taken) }
        ensures taken { OnOk result (inlet.new.taken ≡ inlet.old.taken + count) }
        ensures full { IfErr result (IsFullOf self.old.shadow.capacity
            (weigh_feed inlet.old.items)) }
    {
        catch_up(alloc, &mut self.shadow, inlet, u32::from(count))?;
        // That each source leads to a row of its own, as before.
        note(&self.shadow.target(Place { page: 0, slot: 0 }));
        Ok(())
    }

    /// How many pages it has.
    pub fn count(&self) -> u32
        ensures { result ≡ length self.now.shadow.pages }
    {
        self.shadow.count()
    }
}
