// The new copy of a reorganisation, from its loaded rows on.
//
// 1. It is loaded from the pages that a packer made, with the old and the new place of each row.
//    The row of each source, a place of the old copy, has its home at the source's target.
// 2. Then each index is sorted and built, in two steps.
// 3. A change of the old copy is made by its source: the row of that source changes, with the
//    entries of the indexes that are built. Every other source keeps its row, its target, and where
//    the row lies.
// 4. A refusal changes nothing.
// 5. A page goes to a volume at a position that it is given then. `spell` changes the position, and
//    nothing else: rows, targets and indexes stay as they were.
ghost use Rattle.std.specs.Prelude.{◌≡◌, ◌≤◌, IfOk, IfErr, IfSome, OnOk, OnErr, is_some, length};
ghost use Rattle.std.specs.Option.{option_copied};
ghost use Rattle.rg_base.specs.declared.place.Place.{Place as ThePlace};
ghost use Rattle.rg_home.specs.Able.{Proper};
ghost use Rattle.rg_home.specs.Pages.{slot_of};
ghost use Rattle.rg_home.specs.Rows.{row_at};
ghost use Rattle.rg_index.specs.Listed.{IsListingOf};
ghost use Rattle.rg_btree.specs.Indexes.Listings.{AreListings, entries_of};
ghost use Rattle.rg_home.specs.Owners.{AllBelow};
ghost use Rattle.rg_layout.specs.Spots.{spots_of};
ghost use Rattle.rg_page.specs.Content.{content_at};
ghost use Rattle.rg_page.specs.Listed.{stamped};
ghost use Rattle.rg_page.specs.Bytes.Content.{FitsPage};
ghost use Rattle.rg_page.specs.Bytes.PageBytes.{page_bytes};
ghost use Rattle.rg_reload.specs.Moved.{AreOneToOne, AreTargets, target_in};
ghost use Rattle.rg_reload.specs.Reloading.{space_slots};
ghost use Rattle.rg_shadow.specs.Pieces.{IsMapped};
ghost use Rattle.rg_shadow.specs.Planned.{AreNumbered, AreOfCopy, HasPages, pages_in, slots_in};
ghost use Rattle.rg_shadow.specs.Shade.{Applies, IsRightSideOf, Refuses, home_rows, is_built_stage};
ghost use Rattle.rg_shadow.specs.Shade.{shade_slots, stage_in, target_of, with_stage};
ghost use Rattle.rg_shadow.specs.declared.drafts.IndexStage.TheVariants.{Unsorted, Sorted, Built};
ghost use Rattle.rg_space.specs.Space.{capacity_in, frames_of};

use crate::drafts::{Drafts, IndexDraft, IndexStage};
use crate::fault::ShadowFault;
use crate::mapping::map_pairs;
use crate::pieces::Pieces;
use rg_base::no_memory::NoMemory;
use rg_base::place::Place;
use rg_base::position::Position;
use rg_base::row::Row;
use rg_base::which::Which;
use rg_btree::indexes::indexes::Indexes;
use rg_btree::tree::Tree;
use rg_page::list::ListFrames;
use rg_record::buffer::PAGE_SIZE;
use rg_reload::pairs::Pairs;
use rg_space::space::Space;
use rg_stmt::layout::Side;
use std::alloc::Global;
use std::marker::Model;

/// A new copy: its pages, the target of each source, and its three indexes, as far as they are
/// made.
#[derive(Drop)]
pub struct Shadow {
    pieces: Pieces,
}

impl Model for Shadow {
    ghost use Rattle.rg_shadow.specs.Shade.{Shade};

    ghost Value = { Shade };

    ghost use Rattle.rg_shadow.specs.Stored.{shade_code};

    ghost coded = { shade_code };

    ghost use Rattle.rg_shadow.specs.Pieces.{IsWhole, shade_of};

    ghost view = { λ s. shade_of s.pieces };

    ghost invariant = { λ s. IsWhole s.pieces };
}

impl Shadow {
    /// The new copy of these pages, with the old and the new place of each row. No index is made
    /// yet.
    pub fn load(alloc: Global, space: Space<ListFrames>, pairs: Pairs) -> Result<Shadow, NoMemory>
        requires has { HasPages space }
        requires proper { Proper (slots_in space) }
        requires below { AllBelow 0 (slot_of (slots_in space)) }
        requires one_to_one { AreOneToOne pairs }
        requires homes { AreTargets pairs (row_at (space_slots space)) }
        ensures pages { IfOk result (λ s. s.pages ≡ pages_in space) }
        ensures copy { IfOk result (λ s. s.copy ≡ (frames_of space).copy) }
        ensures capacity { IfOk result (λ s. s.capacity ≡ capacity_in space) }
        ensures targets { IfOk result (λ s. (source : ThePlace) →
            target_of s source ≡ target_in pairs source) }
        ensures keys { IfOk result (λ s. s.keys ≡ Unsorted) }
        ensures cluses { IfOk result (λ s. s.cluses ≡ Unsorted) }
        ensures cats { IfOk result (λ s. s.cats ≡ Unsorted) }
    {
        let map = map_pairs(alloc, pairs.as_slice())?;
        Ok(Shadow {
            pieces: Pieces {
                alloc,
                space,
                map,
                drafts: Drafts::new(),
                values: None,
            },
        })
    }

    /// How far an index is made.
    pub fn stage(&self, which: Which) -> IndexStage
        ensures { result ≡ stage_in which self.now }
    {
        self.pieces.drafts.get(which).stage()
    }

    /// The target of a source: where its row has its home.
    pub fn target(&self, source: Place) -> Option<Place>
        ensures target { result ≡ target_of self.now source }
        ensures mapped { IsMapped self.now.targets (home_rows self.now) }
    {
        self.pieces.map.get(source)
    }

    /// How many pages it has.
    pub fn count(&self) -> u32
        ensures count { result ≡ length self.now.pages }
        ensures room { length self.now.pages ≤ self.now.capacity }
        // What its pages are, whoever asks how many there are.
        ensures numbered { AreNumbered self.now.pages }
        ensures of_copy { AreOfCopy self.now.copy self.now.pages }
        ensures proper { Proper (shade_slots self.now) }
        ensures below { AllBelow 0 (slot_of (shade_slots self.now)) }
    {
        self.pieces.space.count()
    }

    /// Sorts the list of one index. A tree that is built is dropped.
    pub fn sort(&mut self, which: Which) -> Result<(), NoMemory>
        ensures ok { OnOk result (self.new ≡ with_stage which Sorted self.old) }
        ensures err { OnErr result (self.new ≡ self.old) }
    {
        self.pieces.sort(which)
    }

    /// Builds the tree of one index, of the list that `sort` made.
    pub fn build(&mut self, which: Which) -> Result<(), NoMemory>
        requires { stage_in which self.old ≡ Sorted }
        ensures ok { OnOk result (self.new ≡ with_stage which Built self.old) }
        ensures err { OnErr result (self.new ≡ self.old) }
    {
        self.pieces.build(which)
    }

    /// The tree of an index, if it is built.
    pub fn index(&self, which: Which) -> Option<&Tree>
        ensures listing { IfSome result (λ tree.
            IsListingOf which (home_rows self.now) (entries_of tree.now)) }
        ensures built { is_some result ≡ is_built_stage (stage_in which self.now) }
    {
        match self.pieces.drafts.get(which) {
            IndexDraft::Built(tree) => Some(tree),
            _ => None,
        }
    }

    /// Makes the row of a source this one, or none. Where the source has no row and is to have none
    /// there is nothing to do.
    pub fn apply(&mut self, home: Place, after: Option<&Row>) -> Result<(), ShadowFault>
        ensures applies { OnOk result
            (Applies self.old home (option_copied after.entry) self.new) }
        ensures refuses { IfErr result (Refuses self.old home (option_copied after.entry)) }
        ensures err { OnErr result (self.new ≡ self.old) }
    {
        self.pieces.apply(home, after)
    }

    /// Gives a page a position, which is that of the last record that its rows follow from, and
    /// writes the page's bytes. It takes no memory.
    pub fn spell(&mut self, number: u32, at: Position, into: &mut [u8; PAGE_SIZE])
        requires low { 1 ≤ number }
        requires high { number ≤ length self.old.pages }
        ensures stamped { self.new
            ≡ record self.old { pages = stamped self.old.pages number at.0 } }
        ensures bytes { into.new ≡ page_bytes (content_at self.new.pages number) }
        ensures fits { FitsPage (content_at self.new.pages number) }
    {
        self.pieces.spell(number, at, into);
    }

    /// Where its rows lie, and what its indexes list, all of which are built. It reads each page
    /// once.
    pub fn side(&mut self) -> Result<Side, NoMemory>
        requires keys { self.old.keys ≡ Built }
        requires cluses { self.old.cluses ≡ Built }
        requires cats { self.old.cats ≡ Built }
        ensures same { self.new ≡ self.old }
        ensures pages { IfOk result (λ side. side.pages ≡ length self.new.pages) }
        ensures spots { IfOk result (λ side. side.spots ≡ spots_of (shade_slots self.new)) }
        ensures right { IfOk result (IsRightSideOf self.new) }
    {
        self.pieces.side()
    }

    /// Its pages and its indexes, all of which are built. It takes no memory.
    pub fn into_parts(self) -> (Space<ListFrames>, Indexes)
        requires keys { self.keys ≡ Built }
        requires cluses { self.cluses ≡ Built }
        requires cats { self.cats ≡ Built }
        ensures has { HasPages result.0 }
        ensures proper { Proper (slots_in result.0) }
        ensures below { AllBelow 0 (slot_of (slots_in result.0)) }
        ensures numbered { AreNumbered (pages_in result.0) }
        ensures of_copy { AreOfCopy self.copy (pages_in result.0) }
        ensures pages { pages_in result.0 ≡ self.pages }
        ensures copy { (frames_of result.0).copy ≡ self.copy }
        ensures capacity { capacity_in result.0 ≡ self.capacity }
        ensures listings { AreListings (home_rows self) result.1 }
    {
        let Shadow { pieces } = self;
        let Pieces { space, drafts, .. } = pieces;
        (space, drafts.into_indexes())
    }
}
