// An entry is added at the leaf to which it belongs. What is too full then is split, from the leaf
// upwards: the second half goes into a new node, which the parent takes in.
ghost use Rattle.std.specs.Prelude.{◌≡◌, ◌≤◌, ◌<◌, ◌+◌, ◌-◌, suc, false, [], ◌∷◌, ◌++◌, length};
ghost use Rattle.std.specs.Prelude.{take, drop, map, slice_index_or, IsSome, IsNone, IfSome};
ghost use Rattle.std.specs.Prelude.{IfNone, OnSome, MatchOption, vec_capacity};
ghost use Rattle.std.specs.Option.{option_to_list};
ghost use Rattle.rg_model.specs.Layout.{put_entry};
ghost use Rattle.rg_index.specs.Entries.{IsRising, has_entry};
ghost use Rattle.rg_bulk.specs.Branch.{branch_of, first_of, joined, total};
ghost use Rattle.std.specs.List.{AllByRecursion};
ghost use Rattle.rg_bulk.specs.Shape.{IsKid};
ghost use Rattle.rg_btree.specs.Child.{IsChild, firsts};

use crate::pool::Pool;
use crate::room::{insert_within, move_behind};
use rg_base::place::Place;
use rg_bulk::node::{KIDS_LEAST, KIDS_MOST, LEAF_LEAST, LEAF_MOST, Node};
use rg_index::search::count_through;
use std::alloc::Global;

// The child below which an entry is, or would be: the last whose first entry isn't behind it, or
// the first child.
pub fn child_of(keys: &[(u64, Place)], entry: (u64, Place)) -> usize
    requires some { 0 < length keys.now }
    requires rising { IsRising keys.now }
    ensures { IsChild entry keys.now result }
{
    let through = count_through(keys, entry);
    if through == 0 {
        return 0;
    }
    through - 1
}

// Adds an entry to the keys of a leaf. Where they are too many then, the second half goes into a
// new leaf.
fn add_to_leaf(
    alloc: Global,
    keys: &mut Vec<(u64, Place)>,
    entry: (u64, Place),
    pool: &mut Pool,
) -> Option<Node>
    requires rising { IsRising keys.old.items }
    requires absent { has_entry keys.old.items entry ≡ false }
    requires most { length keys.old.items ≤ 256 }
    requires room { 257 ≤ vec_capacity keys.old }
    requires spare { 0 < pool.old.keys }
    ensures entries { keys.new.items ++ joined (option_to_list result)
        ≡ put_entry entry keys.old.items }
    ensures most { length keys.new.items ≤ 256 }
    ensures room { 257 ≤ vec_capacity keys.new }
    ensures one { IsNone result → length keys.new.items ≡ length keys.old.items + 1 }
    ensures two { IfSome result (λ kid. (kid ≡ branch_of 0 kid.entries [])
        × (128 ≤ length kid.entries) × (128 ≤ length keys.new.items)) }
    ensures pool_keys { pool.new.keys + total (λ kid. kid.nodes) (option_to_list result)
        ≡ pool.old.keys }
    ensures pool_kids { pool.new.kids ≡ pool.old.kids }
    ensures key_room { pool.new.key_room ≡ pool.old.key_room }
    ensures kid_room { pool.new.kid_room ≡ pool.old.kid_room }
{
    let at = count_through(keys.as_slice(), entry);
    insert_within(keys, at, entry);
    if keys.len() <= LEAF_MOST {
        return None;
    }
    let second = move_behind(keys, LEAF_LEAST, pool.take_keys());
    Some(Node {
        height: 0,
        keys: second,
        kids: Vec::new(alloc),
    })
}

// After a change below the child at an index: renews its key, and takes in the new node that stands
// behind it, if any.
pub fn renew_kid(keys: &mut Vec<(u64, Place)>, kids: &mut Vec<Node>, at: usize, right: Option<Node>)
    requires within { at < length kids.old.items }
    requires count { length keys.old.items ≡ length kids.old.items }
    requires front { take at keys.old.items ≡ firsts (take at kids.old.items) }
    requires back { drop (suc at) keys.old.items ≡ firsts (drop (suc at) kids.old.items) }
    requires some { AllByRecursion (λ kid. 0 < length kid.entries) kids.old.items }
    requires some_right { AllByRecursion (λ kid. 0 < length kid.entries) (option_to_list right) }
    requires key_room { length keys.old.items < vec_capacity keys.old }
    requires kid_room { length kids.old.items < vec_capacity kids.old }
    ensures kids { kids.new.items ≡ take (suc at) kids.old.items
        ++ (option_to_list right ++ drop (suc at) kids.old.items) }
    ensures keys { keys.new.items ≡ firsts kids.new.items }
    ensures key_room { vec_capacity keys.old ≤ vec_capacity keys.new }
    ensures kid_room { vec_capacity kids.old ≤ vec_capacity kids.new }
{
    keys[at] = kids[at].first();
    if let Some(kid) = right {
        insert_within(keys, at + 1, kid.first());
        insert_within(kids, at + 1, kid);
    }
}

// Splits an inner node that has a child too many.
fn split_inner(
    height: u8,
    keys: &mut Vec<(u64, Place)>,
    kids: &mut Vec<Node>,
    pool: &mut Pool,
) -> Option<Node>
    requires inner { 0 < height }
    requires keys_are { keys.old.items ≡ firsts kids.old.items }
    requires most { length kids.old.items ≤ 226 }
    requires each { AllByRecursion (IsKid (height - 1)) kids.old.items }
    requires key_room { 257 ≤ vec_capacity keys.old }
    requires kid_room { 226 ≤ vec_capacity kids.old }
    requires spare_keys { 0 < pool.old.keys }
    requires spare_kids { 0 < pool.old.kids }
    ensures halves { MatchOption result (kids.new.items ≡ kids.old.items) (λ right.
        (right ≡ branch_of (suc (height - 1)) [] (drop 113 kids.old.items))
        × (kids.new.items ≡ take 113 kids.old.items) × (225 < length kids.old.items)) }
    ensures keys_are { keys.new.items ≡ firsts kids.new.items }
    ensures most { length kids.new.items ≤ 225 }
    ensures key_space { 257 ≤ vec_capacity keys.new }
    ensures kid_space { 226 ≤ vec_capacity kids.new }
    ensures pool_keys { pool.new.keys + length (option_to_list result) ≡ pool.old.keys }
    ensures pool_kids { pool.new.kids + length (option_to_list result) ≡ pool.old.kids }
    ensures key_room { pool.new.key_room ≡ pool.old.key_room }
    ensures kid_room { pool.new.kid_room ≡ pool.old.kid_room }
{
    if kids.len() <= KIDS_MOST {
        return None;
    }
    let second_keys = move_behind(keys, KIDS_LEAST + 1, pool.take_keys());
    let second_kids = move_behind(kids, KIDS_LEAST + 1, pool.take_kids());
    Some(Node {
        height,
        keys: second_keys,
        kids: second_kids,
    })
}

/// Adds an entry that isn't there below a node. Where the node is too full then, it is split, and
/// its second half is the answer.
pub fn add_below(
    alloc: Global,
    node: &mut Node,
    entry: (u64, Place),
    pool: &mut Pool,
) -> Option<Node>
    requires rising { IsRising node.old.entries }
    requires absent { has_entry node.old.entries entry ≡ false }
    requires spare_keys { node.old.height < pool.old.keys }
    requires spare_kids { node.old.height ≤ pool.old.kids }
    ensures entries { joined (node.new ∷ option_to_list result) ≡ put_entry entry node.old.entries }
    ensures height { node.new.height ≡ node.old.height }
    ensures fill { IsNone result → node.old.fill ≤ node.new.fill }
    ensures kept { IsKid node.old.height node.old →
        AllByRecursion (IsKid node.old.height) (node.new ∷ option_to_list result) }
    ensures split { IsSome result →
        AllByRecursion (IsKid node.old.height) (node.new ∷ option_to_list result) }
    ensures pool_keys { pool.new.keys + total (λ kid. kid.nodes) (node.new ∷ option_to_list result)
        ≡ pool.old.keys + node.old.nodes }
    ensures pool_kids { pool.new.kids + total (λ kid. kid.inners) (node.new ∷ option_to_list result)
        ≡ pool.old.kids + node.old.inners }
    ensures few_keys { pool.old.keys ≤ pool.new.keys + node.old.height + 1 }
    ensures few_kids { pool.old.kids ≤ pool.new.kids + node.old.height }
    ensures key_room { pool.new.key_room ≡ pool.old.key_room }
    ensures kid_room { pool.new.kid_room ≡ pool.old.kid_room }
{
    if node.height == 0 {
        return add_to_leaf(alloc, &mut node.keys, entry, pool);
    }
    let at = child_of(node.keys.as_slice(), entry);
    let right = add_below(alloc, &mut node.kids[at], entry, pool);
    renew_kid(&mut node.keys, &mut node.kids, at, right);
    split_inner(node.height, &mut node.keys, &mut node.kids, pool)
}
