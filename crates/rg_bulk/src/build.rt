// A tree is built bottom-up: first the leaves of the list, then a level of parents above each
// level, until one node is left. Each level is filled from the left. Where the last node would be
// too small, the last two share what is left.
ghost use Rattle.std.specs.Prelude.{◌≡◌, ◌≤◌, ◌<◌, ◌+◌, ◌-◌, ◌*◌, suc, [], length, take, drop};
ghost use Rattle.std.specs.Prelude.{OnOk, IfOk};
ghost use Rattle.rg_bulk.specs.Branch.{branch_of, joined, total};
ghost use Rattle.std.specs.List.{AllByRecursion};
ghost use Rattle.rg_bulk.specs.Shape.{IsKid};
ghost use Rattle.rg_bulk.specs.Share.{IsShare};

use crate::node::{KEY_ROOM, KID_ROOM, KIDS_LEAST, KIDS_MOST, LEAF_LEAST, LEAF_MOST, Node, Nodes};
use rg_base::no_memory::NoMemory;
use rg_base::place::Place;
use std::alloc::Global;
use std::collections::VecDeque;

// How much of what is left goes into the next node.
fn share(left: usize, most: usize, least: usize) -> usize
    requires { 2 * least ≤ most }
    ensures { IsShare left most least result }
{
    if left <= most {
        return left;
    }
    if left - most >= least {
        return most;
    }
    left - left / 2
}

// The leaves of more entries than one leaf has.
fn leaves(alloc: Global, entries: &[(u64, Place)]) -> Result<VecDeque<Node>, NoMemory>
    requires { 256 < length entries.now }
    ensures entries { IfOk result (λ level. joined level.items ≡ entries.now) }
    ensures several { IfOk result (λ level. 2 ≤ length level.items) }
    ensures full { IfOk result (λ level. AllByRecursion (IsKid 0) level.items) }
    ensures nodes { IfOk result (λ level. total (λ kid. kid.nodes) level.items
        ≡ length level.items) }
    ensures inners { IfOk result (λ level. total (λ kid. kid.inners) level.items ≡ 0) }
{
    let mut level = VecDeque::new(alloc);
    let mut left = entries;
    while !left.is_empty() {
        let size = share(left.len(), LEAF_MOST, LEAF_LEAST);
        level.push_back(Node::leaf(alloc, &left[..size])?)?;
        left = &left[size..];
    }
    Ok(level)
}

// A parent of the first nodes of a level, which are taken off it.
fn gather(
    alloc: Global,
    height: u8,
    level: &mut VecDeque<Node>,
    size: usize,
) -> Result<Node, NoMemory>
    requires low { height < 255 }
    requires several { 2 ≤ size }
    requires most { size ≤ 225 }
    requires there { size ≤ length level.old.items }
    requires full { AllByRecursion (IsKid height) level.old.items }
    ensures rest { OnOk result (level.new.items ≡ drop size level.old.items) }
    ensures node { IfOk result (λ node.
        node ≡ branch_of (suc height) [] (take size level.old.items)) }
{
    let mut keys = Vec::with_capacity(alloc, KEY_ROOM)?;
    let mut kids = Vec::with_capacity(alloc, KID_ROOM)?;
    for _kid in 0..size {
        let Some(node) = level.pop_front() else {
            unreachable!()
        };
        keys.push(node.first())?;
        kids.push(node)?;
    }
    Ok(Node {
        height: height + 1,
        keys,
        kids,
    })
}

// The level above one of more nodes than one parent has.
fn parents(alloc: Global, height: u8, mut level: VecDeque<Node>) -> Result<VecDeque<Node>, NoMemory>
    requires low { height < 255 }
    requires many { 225 < length level.items }
    requires full { AllByRecursion (IsKid height) level.items }
    ensures entries { IfOk result (λ above. joined above.items ≡ joined level.items) }
    ensures several { IfOk result (λ above. 2 ≤ length above.items) }
    ensures fewer { IfOk result (λ above. length above.items < length level.items) }
    ensures full { IfOk result (λ above. AllByRecursion (IsKid (suc height)) above.items) }
    ensures nodes { IfOk result (λ above. total (λ kid. kid.nodes) above.items
        ≡ total (λ kid. kid.nodes) level.items + length above.items) }
    ensures inners { IfOk result (λ above. total (λ kid. kid.inners) above.items
        ≡ total (λ kid. kid.inners) level.items + length above.items) }
{
    let mut above = VecDeque::new(alloc);
    while level.len() > 0 {
        let size = share(level.len(), KIDS_MOST, KIDS_LEAST);
        above.push_back(gather(alloc, height, &mut level, size)?)?;
    }
    Ok(above)
}

/// A tree of these entries.
pub fn nodes(alloc: Global, entries: &[(u64, Place)]) -> Result<Nodes, NoMemory>
    ensures entries { IfOk result (λ tree. tree.root.entries ≡ entries.now) }
    ensures fewest { IfOk result (λ tree. 0 < tree.root.height → 2 ≤ tree.root.fill) }
    ensures nodes { IfOk result (λ tree. tree.nodes ≡ tree.root.nodes) }
    ensures inners { IfOk result (λ tree. tree.inners ≡ tree.root.inners) }
{
    if entries.len() <= LEAF_MOST {
        return Ok(Nodes {
            root: Node::leaf(alloc, entries)?,
            nodes: 1,
            inners: 0,
        });
    }
    let mut level = leaves(alloc, entries)?;
    let mut height = 0;
    let mut nodes = level.len();
    let mut inners = 0;
    while level.len() > KIDS_MOST {
        level = parents(alloc, height, level)?;
        height += 1;
        nodes += level.len();
        inners += level.len();
    }
    let size = level.len();
    let root = gather(alloc, height, &mut level, size)?;
    Ok(Nodes {
        root,
        nodes: nodes + 1,
        inners: inners + 1,
    })
}
