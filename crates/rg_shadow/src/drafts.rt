// The three indexes of a new copy, as far as they are made.
//
// 1. An index is made in two steps: its list is sorted, and then a tree is built of the list.
// 2. A tree that is built follows each row that changes. A list that is only sorted is dropped
//    then: it has to be sorted again.
// 3. Room for an addition is reserved first. To follow takes none, and cannot fail half-way.
ghost use Rattle.std.specs.Prelude.{◌≡◌, ◌≤◌, Option, OnOk, OnErr, IfOk};
ghost use Rattle.std.specs.Option.{option_copied};
ghost use Rattle.rg_base.specs.declared.place.Place.{Place};
ghost use Rattle.rg_base.specs.declared.row.Row.{Row};
ghost use Rattle.rg_base.specs.declared.which.Which.{Which as WhichIndex};
ghost use Rattle.rg_index.specs.Listed.{SetsRow};
ghost use Rattle.rg_btree.specs.Indexes.Listings.{AreListings};
ghost use Rattle.rg_shadow.specs.Drafts.{AreKept, AreKeptAt, BuildsOne, HasList, HasSpareIn};
ghost use Rattle.rg_shadow.specs.Drafts.{HaveSpare, IsKept, IsKeptAt, KeepBuilt, SameDraft};
ghost use Rattle.rg_shadow.specs.Drafts.{SameDrafts, draft_in, is_built, stage_of, with_draft};
ghost use Rattle.rg_shadow.specs.declared.drafts.IndexDraft.TheVariants as drafts;
ghost use Rattle.rg_shadow.specs.declared.drafts.IndexStage.TheVariants.{Unsorted, Built};

use rg_base::no_memory::NoMemory;
use rg_base::place::Place;
use rg_base::row::Row;
use rg_base::which::Which;
use rg_btree::indexes::indexes::{Indexes, follow};
use rg_btree::tree::{Tree, build};
use rg_index::index::Index;
use rg_stmt::layout::Listing;
use std::alloc::Global;
use std::mem;

/// How far an index is made.
#[derive(Clone, Copy, Debug, PartialEq, Eq)]
pub enum IndexStage {
    Unsorted,
    Sorted,
    Built,
}

/// One index: nothing yet, its list, or its tree.
#[derive(Drop)]
pub enum IndexDraft {
    Unsorted,
    Sorted(Listing),
    Built(Tree),
}

/// The indexes by key, by `clus` and by `cat`.
#[derive(Drop)]
pub struct Drafts {
    pub keys: IndexDraft,
    pub cluses: IndexDraft,
    pub cats: IndexDraft,
}

// Takes the memory for one addition, where a tree is built.
fn reserve(draft: &mut IndexDraft) -> Result<(), NoMemory>
    ensures ok { OnOk result (HasSpareIn draft.new) }
    ensures same { SameDraft draft.old draft.new }
{
    match draft {
        IndexDraft::Built(tree) => tree.reserve(1),
        _ => Ok(()),
    }
}

// The index after the row of a home was the one before, or none, and is the one after.
fn followed(
    which: Which,
    draft: IndexDraft,
    home: Place,
    before: Option<&Row>,
    after: Option<&Row>,
) -> IndexDraft
    requires kept { IsKeptAt which draft home (option_copied before) }
    requires spare { HasSpareIn draft }
    ensures kept { (old new : Place → Option Row) → IsKept which old draft
        → old home ≡ option_copied before.entry
        → SetsRow old new home (option_copied after.entry)
        → IsKept which new result }
    ensures built { is_built result ≡ is_built draft }
{
    match draft {
        IndexDraft::Built(tree) => {
            let mut tree = tree;
            follow(which, &mut tree, home, before, after);
            IndexDraft::Built(tree)
        }
        _ => IndexDraft::Unsorted,
    }
}

// An index follows the row of a home.
fn follow_one(
    which: Which,
    draft: &mut IndexDraft,
    home: Place,
    before: Option<&Row>,
    after: Option<&Row>,
)
    requires kept { IsKeptAt which draft.old home (option_copied before) }
    requires spare { HasSpareIn draft.old }
    ensures kept { (old new : Place → Option Row) → IsKept which old draft.old
        → old home ≡ option_copied before.entry
        → SetsRow old new home (option_copied after.entry)
        → IsKept which new draft.new }
    ensures built { is_built draft.new ≡ is_built draft.old }
{
    let was = mem::replace(draft, IndexDraft::Unsorted);
    *draft = followed(which, was, home, before, after);
}

// The index with a tree of its list.
fn with_tree(alloc: Global, draft: &IndexDraft) -> Result<IndexDraft, NoMemory>
    requires { HasList draft.now }
    ensures kept { IfOk result (λ built. (which : WhichIndex) (rows : Place → Option Row)
        → IsKept which rows draft.now → IsKept which rows built) }
    ensures built { IfOk result (λ built. stage_of built ≡ Built) }
{
    match draft {
        IndexDraft::Sorted(list) => Ok(IndexDraft::Built(build(alloc, list.as_slice())?)),
        _ => unreachable!(),
    }
}

// The tree of an index that is built.
fn tree_of(draft: IndexDraft) -> Tree
    requires { stage_of draft ≡ Built }
    ensures { draft ≡ drafts.Built result }
{
    match draft {
        IndexDraft::Built(tree) => tree,
        _ => unreachable!(),
    }
}

impl IndexDraft {
    /// Its tree, which is built.
    pub fn tree(&self) -> &Tree
        requires { stage_of self.now ≡ Built }
        ensures { self.now ≡ drafts.Built result.now }
    {
        match self {
            IndexDraft::Built(tree) => tree,
            _ => unreachable!(),
        }
    }

    /// How far it is made.
    pub fn stage(&self) -> IndexStage
        ensures { result ≡ stage_of self.now }
    {
        match self {
            IndexDraft::Unsorted => IndexStage::Unsorted,
            IndexDraft::Sorted(_) => IndexStage::Sorted,
            IndexDraft::Built(_) => IndexStage::Built,
        }
    }
}

impl Drafts {
    /// No index is made yet.
    pub fn new() -> Drafts
        ensures kept { (rows : Place → Option Row) → AreKept rows result }
        ensures keys { stage_of result.keys ≡ Unsorted }
        ensures cluses { stage_of result.cluses ≡ Unsorted }
        ensures cats { stage_of result.cats ≡ Unsorted }
    {
        Drafts {
            keys: IndexDraft::Unsorted,
            cluses: IndexDraft::Unsorted,
            cats: IndexDraft::Unsorted,
        }
    }

    /// One of them.
    pub fn get(&self, which: Which) -> &IndexDraft
        ensures { result.now ≡ draft_in which self.now }
    {
        match which {
            Which::Key => &self.keys,
            Which::Clus => &self.cluses,
            Which::Cat => &self.cats,
        }
    }

    /// One of them is this from now on.
    fn set(&mut self, which: Which, draft: IndexDraft)
        ensures { self.new ≡ with_draft which draft self.old }
    {
        match which {
            Which::Key => self.keys = draft,
            Which::Clus => self.cluses = draft,
            Which::Cat => self.cats = draft,
        }
    }

    /// One of them is sorted: it has this list.
    pub fn put_list(&mut self, which: Which, list: Listing)
        ensures { self.new ≡ with_draft which (drafts.Sorted list) self.old }
    {
        self.set(which, IndexDraft::Sorted(list));
    }

    /// Builds the tree of one that is sorted.
    pub fn build(&mut self, alloc: Global, which: Which) -> Result<(), NoMemory>
        requires { HasList (draft_in which self.old) }
        ensures ok { OnOk result (BuildsOne which self.old self.new) }
        ensures err { OnErr result (self.new ≡ self.old) }
    {
        let draft = with_tree(alloc, self.get(which))?;
        self.set(which, draft);
        Ok(())
    }

    /// Takes the memory for one addition to each tree that is built.
    pub fn reserve(&mut self) -> Result<(), NoMemory>
        ensures ok { OnOk result (HaveSpare self.new) }
        ensures same { SameDrafts self.old self.new }
    {
        reserve(&mut self.keys)?;
        reserve(&mut self.cluses)?;
        reserve(&mut self.cats)?;
        Ok(())
    }

    /// The row whose home this is was the one before, or none, and is the one after. It takes no
    /// memory.
    pub fn follow(&mut self, home: Place, before: Option<&Row>, after: Option<&Row>)
        requires kept { AreKeptAt self.old home (option_copied before) }
        requires spare { HaveSpare self.old }
        ensures kept { (old new : Place → Option Row) → AreKept old self.old
            → old home ≡ option_copied before.entry
            → SetsRow old new home (option_copied after.entry)
            → AreKept new self.new }
        ensures built { KeepBuilt self.old self.new }
    {
        follow_one(Which::Key, &mut self.keys, home, before, after);
        follow_one(Which::Clus, &mut self.cluses, home, before, after);
        follow_one(Which::Cat, &mut self.cats, home, before, after);
    }

    /// The indexes, all of which are built.
    pub fn into_indexes(self) -> Indexes
        requires keys { stage_of self.keys ≡ Built }
        requires cluses { stage_of self.cluses ≡ Built }
        requires cats { stage_of self.cats ≡ Built }
        ensures { (rows : Place → Option Row) → AreKept rows self → AreListings rows result }
    {
        let Drafts { keys, cluses, cats } = self;
        Indexes {
            keys: tree_of(keys),
            cluses: tree_of(cluses),
            cats: tree_of(cats),
        }
    }
}
