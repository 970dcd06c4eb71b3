// The root of a tree grows upwards when it is split, and is given up when one child is left of it.
ghost use Rattle.std.specs.Prelude.{◌≡◌, ◌≤◌, ◌<◌, ◌+◌, ◌++◌, ℕ, false};
ghost use Rattle.rg_model.specs.Layout.{put_entry};
ghost use Rattle.rg_index.specs.Entries.{IsRising, has_entry, without_entry};
ghost use Rattle.rg_bulk.specs.Shape.{IsKid};

use crate::add::add_below;
use crate::pool::Pool;
use crate::remove::remove_below;
use crate::room::push_within;
use rg_base::place::Place;
use rg_bulk::node::Node;
use std::alloc::Global;
use std::mem;

// Puts a new root above the old one and the node beside it.
fn grow_root(alloc: Global, root: &mut Node, right: Node, pool: &mut Pool)
    requires low { root.old.height < 255 }
    requires left_kid { IsKid root.old.height root.old }
    requires right_kid { IsKid root.old.height right }
    requires spare_keys { 0 < pool.old.keys }
    requires spare_kids { 0 < pool.old.kids }
    ensures entries { root.new.entries ≡ root.old.entries ++ right.entries }
    ensures fill { root.new.fill ≡ 2 }
    ensures pool_keys { pool.new.keys + root.new.nodes
        ≡ pool.old.keys + (root.old.nodes + right.nodes) }
    ensures pool_kids { pool.new.kids + root.new.inners
        ≡ pool.old.kids + (root.old.inners + right.inners) }
    ensures key_room { pool.new.key_room ≡ pool.old.key_room }
    ensures kid_room { pool.new.kid_room ≡ pool.old.kid_room }
{
    let keys = pool.take_keys();
    let mut kids = pool.take_kids();
    let height = root.height() + 1;
    let new = Node {
        height: 0,
        keys,
        kids: Vec::new(alloc),
    };
    let left = mem::replace(root, new);
    push_within(&mut root.keys, left.first());
    push_within(&mut root.keys, right.first());
    push_within(&mut kids, left);
    push_within(&mut kids, right);
    root.kids = kids;
    root.height = height;
}

/// Adds an entry that isn't there to a tree.
pub fn add_to_root(alloc: Global, root: &mut Node, entry: (u64, Place), pool: &mut Pool)
    requires low { root.old.height < 255 }
    requires rising { IsRising root.old.entries }
    requires several { 0 < root.old.height → 2 ≤ root.old.fill }
    requires absent { has_entry root.old.entries entry ≡ false }
    requires spare_keys { root.old.height + 2 ≤ pool.old.keys }
    requires spare_kids { root.old.height + 1 ≤ pool.old.kids }
    ensures entries { root.new.entries ≡ put_entry entry root.old.entries }
    ensures several { 0 < root.new.height → 2 ≤ root.new.fill }
    ensures pool_keys { pool.new.keys + root.new.nodes ≡ pool.old.keys + root.old.nodes }
    ensures pool_kids { pool.new.kids + root.new.inners ≡ pool.old.kids + root.old.inners }
    ensures key_room { pool.new.key_room ≡ pool.old.key_room }
    ensures kid_room { pool.new.kid_room ≡ pool.old.kid_room }
{
    match add_below(alloc, root, entry, pool) {
        None => {}
        Some(right) => grow_root(alloc, root, right, pool),
    }
}

// Gives up a root of one child.
fn lower_root(alloc: Global, root: &mut Node, pool: &mut Pool)
    requires some { 0 < root.old.height → 1 ≤ root.old.fill }
    requires key_buffer { pool.old.keys + root.old.nodes ≤ pool.old.key_room }
    requires kid_buffer { pool.old.kids + root.old.inners ≤ pool.old.kid_room }
    ensures entries { root.new.entries ≡ root.old.entries }
    ensures several { 0 < root.new.height → 2 ≤ root.new.fill }
    ensures pool_keys { pool.new.keys + root.new.nodes ≡ pool.old.keys + root.old.nodes }
    ensures pool_kids { pool.new.kids + root.new.inners ≡ pool.old.kids + root.old.inners }
    ensures key_room { pool.old.key_room ≤ pool.new.key_room }
    ensures kid_room { pool.old.kid_room ≤ pool.new.kid_room }
{
    if root.height == 0 {
        return;
    }
    if root.kids.len() > 1 {
        return;
    }
    let mut kids = mem::replace(&mut root.kids, Vec::new(alloc));
    let Some(only) = kids.pop() else {
        unreachable!()
    };
    root.keys.clear();
    root.height = 0;
    let Node {
        height: _,
        keys,
        kids: _,
    } = mem::replace(root, only);
    pool.give_keys(keys);
    pool.give_kids(kids);
}

/// Removes an entry from a tree, where it is there.
pub fn remove_from_root(
    alloc: Global,
    root: &mut Node,
    entry: (u64, Place),
    pool: &mut Pool,
) -> bool
    requires rising { IsRising root.old.entries }
    requires several { 0 < root.old.height → 2 ≤ root.old.fill }
    requires key_buffer { pool.old.keys + root.old.nodes ≤ pool.old.key_room }
    requires kid_buffer { pool.old.kids + root.old.inners ≤ pool.old.kid_room }
    ensures there { result ≡ has_entry root.old.entries entry }
    ensures entries { root.new.entries ≡ without_entry entry root.old.entries }
    ensures several { 0 < root.new.height → 2 ≤ root.new.fill }
    ensures pool_keys { pool.new.keys + root.new.nodes ≡ pool.old.keys + root.old.nodes }
    ensures pool_kids { pool.new.kids + root.new.inners ≡ pool.old.kids + root.old.inners }
    ensures key_room { pool.old.key_room ≤ pool.new.key_room }
    ensures kid_room { pool.old.kid_room ≤ pool.new.kid_room }
{
    let there = remove_below(root, entry, pool);
    lower_root(alloc, root, pool);
    there
}
