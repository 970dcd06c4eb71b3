// What the tree keeps to:
//
// 1. Its entries rise, and its nodes are as full as the nodes' own rules say. An inner root has two
//    children at least.
// 2. The nodes of the tree and the buffers of the pool are counted together. Adding moves them from
//    the pool into the tree, removing moves them back, and only `reserve` takes memory for more.
// 3. They are enough for the tree of all entries that may be added, for a tree of n entries has at
//    most n / 126 + 1 nodes, of which n / 14208 + 1 are inner ones; and there are a dozen more of
//    each for what one addition takes on its way.
ghost use Rattle.std.specs.Prelude.{◌≡◌, ◌≤◌, ◌+◌, ◌-◌, ◌*◌, ◌^◌, [], length, OnOk, IfOk, not};
ghost use Rattle.std.specs.Prelude.{find};
ghost use Rattle.rg_model.specs.Layout.{is_entry_before};
ghost use Rattle.rg_index.specs.Entries.{IsRising};

use crate::pool::Pool;
use crate::root::{add_to_root, remove_from_root};
use crate::walk::{collect, collect_all, first_from};
use rg_base::no_memory::NoMemory;
use rg_base::place::Place;
use rg_bulk::build::nodes;
use rg_bulk::node::Node;
use rg_index::index::Index;
use rg_stmt::layout::Listing;
use std::alloc::Global;
use std::marker::Model;

// More entries than a tree takes; no machine has the memory for them.
const ENTRIES_LIMIT: usize = 4_611_686_018_427_387_904;

/// An index in a B-tree. Adding and removing take logarithmic time.
#[derive(Drop)]
pub struct Tree {
    alloc: Global,
    root: Node,
    pool: Pool,
    len: usize,
    spare: usize,
    nodes: usize,
    inners: usize,
}

impl Model for Tree {
    ghost use Rattle.rg_index.specs.Indexed.{Indexed};
    ghost use Rattle.rg_btree.specs.Tree.{IsTree};

    ghost Value = { Indexed };

    ghost view = { λ t. record { entries = t.root.entries; spare = t.spare } };

    ghost invariant = { λ t. IsTree t.root t.pool t.len t.spare t.nodes t.inners };
}

// Takes memory for buffers of keys, until there are so many in all.
fn fill_keys(alloc: Global, pool: &mut Pool, all: &mut usize, wanted: usize) -> Result<(), NoMemory>
    requires room { pool.old.keys + (wanted - all.old) ≤ pool.old.key_room }
    ensures sync { all.new + pool.old.keys ≡ all.old + pool.new.keys }
    ensures ok { OnOk result (wanted ≤ all.new) }
    ensures not_fewer { all.old ≤ all.new }
    ensures within { all.new - all.old ≤ wanted - all.old }
    ensures kids { pool.new.kids ≡ pool.old.kids }
    ensures key_room { pool.old.key_room ≤ pool.new.key_room }
    ensures kid_room { pool.new.kid_room ≡ pool.old.kid_room }
{
    while *all < wanted {
        pool.grow_keys(alloc)?;
        *all += 1;
    }
    Ok(())
}

// Takes memory for buffers of children, until there are so many in all.
fn fill_kids(alloc: Global, pool: &mut Pool, all: &mut usize, wanted: usize) -> Result<(), NoMemory>
    requires room { pool.old.kids + (wanted - all.old) ≤ pool.old.kid_room }
    ensures sync { all.new + pool.old.kids ≡ all.old + pool.new.kids }
    ensures ok { OnOk result (wanted ≤ all.new) }
    ensures not_fewer { all.old ≤ all.new }
    ensures within { all.new - all.old ≤ wanted - all.old }
    ensures keys { pool.new.keys ≡ pool.old.keys }
    ensures key_room { pool.new.key_room ≡ pool.old.key_room }
    ensures kid_room { pool.old.kid_room ≤ pool.new.kid_room }
{
    while *all < wanted {
        pool.grow_kids(alloc)?;
        *all += 1;
    }
    Ok(())
}

impl Tree {
    /// An index without entries.
    pub fn new(alloc: Global) -> Result<Self, NoMemory>
        ensures { IfOk result (λ index. index.entries ≡ []) }
    {
        build(alloc, &[])
    }

    /// How many levels of nodes there are. It takes no memory.
    pub fn levels(&self) -> u8
        ensures some { 1 ≤ result }
        ensures one { result ≡ 1 → length (⟦<Tree as Index>⟧.entries self.now) ≤ 256 }
        ensures more { 2 ≤ result →
            256 * 112 ^ (result - 2) ≤ length (⟦<Tree as Index>⟧.entries self.now) }
    {
        self.root.height() + 1
    }

    /// How many entries there are.
    pub fn len(&self) -> usize
        ensures { result ≡ length (⟦<Tree as Index>⟧.entries self.now) }
    {
        self.len
    }

    /// The first entry that is not before this one. It takes no memory, and logarithmic time.
    pub fn first_from(&self, value: u64, place: Place) -> Option<(u64, Place)>
        ensures { result ≡ find (λ e. not (is_entry_before e (value, place)))
            (⟦<Tree as Index>⟧.entries self.now) }
    {
        first_from(&self.root, (value, place))
    }

    /// All entries. It takes the memory of its answer.
    pub fn listing(&self) -> Result<Listing, NoMemory>
        ensures { IfOk result (λ listing. listing ≡ ⟦<Tree as Index>⟧.entries self.now) }
    {
        let mut found = Vec::with_capacity(self.alloc, self.len)?;
        collect_all(&self.root, &mut found)?;
        Ok(Listing::new(found))
    }
}

/// An index with these entries, in order. It takes a small part of the time that adding them takes.
pub fn build(alloc: Global, entries: &[(u64, Place)]) -> Result<Tree, NoMemory>
    requires { IsRising entries.now }
    ensures { IfOk result (λ index. index.entries ≡ entries.now) }
{
    let built = nodes(alloc, entries)?;
    let mut pool = Pool::new(alloc);
    pool.make_room(built.nodes, built.inners)?;
    Ok(Tree {
        alloc,
        root: built.root,
        pool,
        len: entries.len(),
        spare: 0,
        nodes: built.nodes,
        inners: built.inners,
    })
}

impl Index for Tree {
    ghost use Rattle.rg_index.specs.RisingPart.{rising_part, IsRising-rising_part};

    ghost entries = { λ index. rising_part index.entries };

    ghost spare = { λ index. index.spare };

    ghost rising = { λ index. IsRising-rising_part index.entries };

    fn reserve(&mut self, more: u32) -> Result<(), NoMemory> {
        let more = more as usize;
        if more <= self.spare {
            return Ok(());
        }
        let wanted = self.len + more;
        if wanted >= ENTRIES_LIMIT {
            return Err(NoMemory);
        }
        let nodes = (wanted + 1512) / 126 + 1;
        let inners = (wanted + 170_496) / 14_208 + 1;
        self.pool.make_room(nodes, inners)?;
        fill_keys(self.alloc, &mut self.pool, &mut self.nodes, nodes)?;
        fill_kids(self.alloc, &mut self.pool, &mut self.inners, inners)?;
        self.spare = more;
        Ok(())
    }

    fn add(&mut self, value: u64, place: Place) {
        prove!(self.root.height() < 10);
        add_to_root(self.alloc, &mut self.root, (value, place), &mut self.pool);
        self.len += 1;
        self.spare -= 1;
    }

    fn remove(&mut self, value: u64, place: Place) -> bool {
        if !remove_from_root(self.alloc, &mut self.root, (value, place), &mut self.pool) {
            return false;
        }
        self.len -= 1;
        true
    }

    fn range(&self, lo: u64, hi: u64) -> Result<Listing, NoMemory> {
        let mut found = Vec::new(self.alloc);
        collect(&self.root, lo, hi, &mut found)?;
        Ok(Listing::new(found))
    }
}
