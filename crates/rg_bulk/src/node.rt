// What every node keeps to:
//
// 1. A leaf has at most 256 entries, and an inner node 1 to 225 children.
// 2. A child has at least 128 entries, or 112 children. A root may have fewer; the tree keeps that
//    it has two children.
// 3. All children of a node are of the same height, which is one below its own, so all leaves are
//    of one depth.
// 4. The keys of an inner node are the first entries of its children, one each.
// 5. Each node has room for one entry or one child more than it may have. It is put in first, and
//    then the node is split.
ghost use Rattle.std.specs.Prelude.{◌≡◌, ◌≤◌, ◌<◌, ◌+◌, ℕ, [], length, vec_len, vec_capacity, OnOk};
ghost use Rattle.std.specs.Prelude.{IfOk};
ghost use Rattle.rg_bulk.specs.Branch.{branch_of, first_of};
ghost use Rattle.rg_bulk.specs.Shape.{IsRoot};

use rg_base::no_memory::NoMemory;
use rg_base::place::Place;
use std::alloc::Global;
use std::marker::Model;

/// A leaf has at most so many entries, and each but a root at least half as many.
pub const LEAF_MOST: usize = 256;

pub const LEAF_LEAST: usize = 128;

/// An inner node has at most so many children, and each but a root at least 112.
pub const KIDS_MOST: usize = 225;

pub const KIDS_LEAST: usize = 112;

/// The room of the keys of a node, and of its children.
pub const KEY_ROOM: usize = 257;

pub const KID_ROOM: usize = 226;

/// A node of a B-tree, with all that is below it. A leaf has height 0; its keys are its entries,
/// and it has no children.
#[derive(Drop)]
pub struct Node {
    pub height: u8,
    pub keys: Vec<(u64, Place)>,
    pub kids: Vec<Node>,
}

impl Model for Node {
    ghost use Rattle.std.specs.Prelude.{◌≡◌, vec_capacity};
    ghost use Rattle.rg_bulk.specs.Branch.{Branch, branch_of};

    ghost Value = { Branch };

    ghost use Rattle.rg_bulk.specs.Shape.{IsNode};
    ghost use Rattle.rg_bulk.specs.Falls.{kids_lower};

    ghost view = { λ n. branch_of n.height n.keys.items n.kids.items };

    ghost invariant = { λ n.
        IsNode n.height n.keys.items n.kids.items (vec_capacity n.keys) (vec_capacity n.kids) };

    ghost size = { λ b. b.height };

    ghost use Rattle.std.proofs.Common.{arith};

    ghost size_decreases = { λ n h. Prim.omega (
      arith,
      kids_lower n.height n.keys.items n.kids.items (vec_capacity n.keys) (vec_capacity n.kids) h,
    ) };
}

impl Node {
    /// A leaf with these entries.
    pub fn leaf(alloc: Global, entries: &[(u64, Place)]) -> Result<Node, NoMemory>
        requires { length entries.now ≤ LEAF_MOST }
        ensures { IfOk result (λ node. node ≡ branch_of 0 entries.now []) }
    {
        let mut keys = Vec::with_capacity(alloc, KEY_ROOM)?;
        keys.extend_from_slice(entries)?;
        Ok(Node {
            height: 0,
            keys,
            kids: Vec::new(alloc),
        })
    }

    /// How many levels are below the node.
    pub fn height(&self) -> u8
        ensures height { result ≡ self.now.height }
        ensures bounds { IsRoot self.now }
    {
        self.height
    }

    /// How many entries a leaf has, or children an inner node.
    pub fn fill(&self) -> usize
        ensures fill { result ≡ self.now.fill }
        ensures bounds { IsRoot self.now }
    {
        self.keys.len()
    }

    /// The first entry of a node that has one.
    pub fn first(&self) -> (u64, Place)
        requires { 0 < length self.now.entries }
        ensures { result ≡ first_of self.now.entries }
    {
        self.keys[0]
    }
}

/// A tree of nodes.
#[derive(Drop)]
pub struct Nodes {
    pub root: Node,
    /// How many nodes there are.
    pub nodes: usize,
    /// How many of them are inner nodes.
    pub inners: usize,
}
