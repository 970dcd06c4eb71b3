// An entry is removed from its leaf. A child that is one short then takes an element from the child
// beside it, or, where that has none to spare, the two become one, and the buffers of the other go
// back to the pool.
ghost use Rattle.std.specs.Prelude.{◌≡◌, ◌≤◌, ◌<◌, ◌+◌, ◌-◌, ◌*◌, suc, [], ◌∷◌, ◌++◌, length, take};
ghost use Rattle.std.specs.Prelude.{drop, slice_index_or as get_or, vec_capacity};
ghost use Rattle.std.specs.Option.{option_to_list};
ghost use Rattle.rg_index.specs.Entries.{IsRising, has_entry, without_entry};
ghost use Rattle.rg_bulk.specs.Branch.{Branch, joined, total};
ghost use Rattle.std.specs.List.{AllByRecursion};
ghost use Rattle.rg_bulk.specs.Shape.{IsKid, least_fill};
ghost use Rattle.rg_btree.specs.Child.{firsts};
ghost use Rattle.rg_btree.specs.Short.{IsShort};

use crate::add::{child_of, renew_kid};
use crate::pool::Pool;
use crate::room::{append_within, share_out};
use rg_base::place::Place;
use rg_bulk::node::{KIDS_LEAST, KIDS_MOST, LEAF_LEAST, LEAF_MOST, Node};
use rg_index::search::find;

// The least that a node of a height may have, where it isn't the root.
fn least_of(height: u8) -> usize
    ensures { result ≡ least_fill height }
{
    if height == 0 { LEAF_LEAST } else { KIDS_LEAST }
}

// Shares out two leaves, or makes them one where they fit.
fn even_leaves(left: &mut Node, mut right: Node, pool: &mut Pool) -> Option<Node>
    requires left_leaf { left.old.height ≡ 0 }
    requires right_leaf { right.height ≡ 0 }
    requires left_fill { 127 ≤ left.old.fill }
    requires right_fill { 127 ≤ right.fill }
    requires room { pool.old.keys < pool.old.key_room }
    ensures each { AllByRecursion (IsKid 0) (left.new ∷ option_to_list result) }
    ensures entries { joined (left.new ∷ option_to_list result)
        ≡ left.old.entries ++ right.entries }
    ensures pool_keys { pool.new.keys + total (λ kid. kid.nodes) (left.new ∷ option_to_list result)
        ≡ pool.old.keys + (left.old.nodes + right.nodes) }
    ensures pool_kids { pool.new.kids + total (λ kid. kid.inners) (left.new ∷ option_to_list result)
        ≡ pool.old.kids + (left.old.inners + right.inners) }
    ensures key_room { pool.old.key_room ≤ pool.new.key_room }
    ensures kid_room { pool.old.kid_room ≤ pool.new.kid_room }
{
    if left.keys.len() + right.keys.len() <= LEAF_MOST {
        append_within(&mut left.keys, &mut right.keys);
        let Node {
            height: _,
            keys,
            kids: _,
        } = right;
        pool.give_keys(keys);
        return None;
    }
    share_out(&mut left.keys, &mut right.keys);
    Some(right)
}

// The same with inner nodes of one height.
fn even_inners(left: &mut Node, mut right: Node, pool: &mut Pool) -> Option<Node>
    requires left_inner { 0 < left.old.height }
    requires right_inner { right.height ≡ left.old.height }
    requires left_fill { 111 ≤ left.old.fill }
    requires right_fill { 111 ≤ right.fill }
    requires both { 223 ≤ left.old.fill + right.fill }
    requires key_buffer { pool.old.keys < pool.old.key_room }
    requires kid_buffer { pool.old.kids < pool.old.kid_room }
    ensures each { AllByRecursion (IsKid left.old.height) (left.new ∷ option_to_list result) }
    ensures entries { joined (left.new ∷ option_to_list result)
        ≡ left.old.entries ++ right.entries }
    ensures pool_keys { pool.new.keys + total (λ kid. kid.nodes) (left.new ∷ option_to_list result)
        ≡ pool.old.keys + (left.old.nodes + right.nodes) }
    ensures pool_kids { pool.new.kids + total (λ kid. kid.inners) (left.new ∷ option_to_list result)
        ≡ pool.old.kids + (left.old.inners + right.inners) }
    ensures key_room { pool.old.key_room ≤ pool.new.key_room }
    ensures kid_room { pool.old.kid_room ≤ pool.new.kid_room }
{
    if left.kids.len() + right.kids.len() <= KIDS_MOST {
        append_within(&mut left.keys, &mut right.keys);
        append_within(&mut left.kids, &mut right.kids);
        let Node {
            height: _,
            keys,
            kids,
        } = right;
        pool.give_keys(keys);
        pool.give_kids(kids);
        return None;
    }
    share_out(&mut left.keys, &mut right.keys);
    share_out(&mut left.kids, &mut right.kids);
    Some(right)
}

// Shares out two nodes of one height, of which one may be one short, or makes them one where they
// fit.
fn even_out(left: &mut Node, right: Node, pool: &mut Pool) -> Option<Node>
    requires level { right.height ≡ left.old.height }
    requires left_fill { least_fill left.old.height ≤ left.old.fill + 1 }
    requires right_fill { least_fill left.old.height ≤ right.fill + 1 }
    requires both { 2 * least_fill left.old.height ≤ left.old.fill + right.fill + 1 }
    requires key_buffer { pool.old.keys < pool.old.key_room }
    requires kid_buffer { 0 < left.old.height → pool.old.kids < pool.old.kid_room }
    ensures each { AllByRecursion (IsKid left.old.height) (left.new ∷ option_to_list result) }
    ensures entries { joined (left.new ∷ option_to_list result)
        ≡ left.old.entries ++ right.entries }
    ensures pool_keys { pool.new.keys + total (λ kid. kid.nodes) (left.new ∷ option_to_list result)
        ≡ pool.old.keys + (left.old.nodes + right.nodes) }
    ensures pool_kids { pool.new.kids + total (λ kid. kid.inners) (left.new ∷ option_to_list result)
        ≡ pool.old.kids + (left.old.inners + right.inners) }
    ensures key_room { pool.old.key_room ≤ pool.new.key_room }
    ensures kid_room { pool.old.kid_room ≤ pool.new.kid_room }
{
    if left.height() == 0 {
        return even_leaves(left, right, pool);
    }
    even_inners(left, right, pool)
}

// Evens out the child at an index and the one behind it, of which one may be one short.
fn mend_kids(
    height: u8,
    keys: &mut Vec<(u64, Place)>,
    kids: &mut Vec<Node>,
    at: usize,
    pool: &mut Pool,
)
    requires inner { 0 < height }
    requires within { suc at < length kids.old.items }
    requires most { length kids.old.items ≤ 225 }
    requires keys_are { keys.old.items ≡ firsts kids.old.items }
    requires short { AllByRecursion (IsShort (height - 1)) kids.old.items }
    requires some { AllByRecursion (λ kid. 0 < length kid.entries) kids.old.items }
    requires front { AllByRecursion (IsKid (height - 1)) (take at kids.old.items) }
    requires back { AllByRecursion (IsKid (height - 1)) (drop (suc (suc at)) kids.old.items) }
    requires both { (d : Branch) → 2 * least_fill (height - 1)
        ≤ (get_or kids.old.items at d).fill + (get_or kids.old.items (suc at) d).fill + 1 }
    requires key_space { 257 ≤ vec_capacity keys.old }
    requires kid_space { 226 ≤ vec_capacity kids.old }
    requires key_buffer { pool.old.keys < pool.old.key_room }
    requires kid_buffer { 1 < height → pool.old.kids < pool.old.kid_room }
    ensures entries { joined kids.new.items ≡ joined kids.old.items }
    ensures each { AllByRecursion (IsKid (height - 1)) kids.new.items }
    ensures keys_are { keys.new.items ≡ firsts kids.new.items }
    ensures fewer { length kids.old.items ≤ length kids.new.items + 1 }
    ensures most { length kids.new.items ≤ 225 }
    ensures key_space { 257 ≤ vec_capacity keys.new }
    ensures kid_space { 226 ≤ vec_capacity kids.new }
    ensures pool_keys { pool.new.keys + total (λ kid. kid.nodes) kids.new.items
        ≡ pool.old.keys + total (λ kid. kid.nodes) kids.old.items }
    ensures pool_kids { pool.new.kids + total (λ kid. kid.inners) kids.new.items
        ≡ pool.old.kids + total (λ kid. kid.inners) kids.old.items }
    ensures key_room { pool.old.key_room ≤ pool.new.key_room }
    ensures kid_room { pool.old.kid_room ≤ pool.new.kid_room }
{
    keys.remove(at + 1);
    let right = kids.remove(at + 1);
    let back = even_out(&mut kids[at], right, pool);
    renew_kid(keys, kids, at, back);
}

// Settles the children after a removal below the one at an index: renews its key, and evens it out
// with one beside it, where it is one short.
fn settle_kid(
    height: u8,
    keys: &mut Vec<(u64, Place)>,
    kids: &mut Vec<Node>,
    at: usize,
    pool: &mut Pool,
)
    requires inner { 0 < height }
    requires within { at < length kids.old.items }
    requires several { 2 ≤ length kids.old.items }
    requires most { length kids.old.items ≤ 225 }
    requires count { length keys.old.items ≡ length kids.old.items }
    requires front_keys { take at keys.old.items ≡ firsts (take at kids.old.items) }
    requires back_keys { drop (suc at) keys.old.items ≡ firsts (drop (suc at) kids.old.items) }
    requires short { AllByRecursion (IsShort (height - 1)) kids.old.items }
    requires front { AllByRecursion (IsKid (height - 1)) (take at kids.old.items) }
    requires back { AllByRecursion (IsKid (height - 1)) (drop (suc at) kids.old.items) }
    requires key_space { 257 ≤ vec_capacity keys.old }
    requires kid_space { 226 ≤ vec_capacity kids.old }
    requires key_buffer { pool.old.keys < pool.old.key_room }
    requires kid_buffer { 1 < height → pool.old.kids < pool.old.kid_room }
    ensures entries { joined kids.new.items ≡ joined kids.old.items }
    ensures each { AllByRecursion (IsKid (height - 1)) kids.new.items }
    ensures keys_are { keys.new.items ≡ firsts kids.new.items }
    ensures fewer { length kids.old.items ≤ length kids.new.items + 1 }
    ensures most { length kids.new.items ≤ 225 }
    ensures key_space { 257 ≤ vec_capacity keys.new }
    ensures kid_space { 226 ≤ vec_capacity kids.new }
    ensures pool_keys { pool.new.keys + total (λ kid. kid.nodes) kids.new.items
        ≡ pool.old.keys + total (λ kid. kid.nodes) kids.old.items }
    ensures pool_kids { pool.new.kids + total (λ kid. kid.inners) kids.new.items
        ≡ pool.old.kids + total (λ kid. kid.inners) kids.old.items }
    ensures key_room { pool.old.key_room ≤ pool.new.key_room }
    ensures kid_room { pool.old.kid_room ≤ pool.new.kid_room }
{
    let fill = kids[at].fill();
    renew_kid(keys, kids, at, None);
    if fill >= least_of(height - 1) {
        return;
    }
    mend_kids(height, keys, kids, at.max(1) - 1, pool);
}

/// Removes an entry below a node, where it is there. The node may be one short then.
pub fn remove_below(node: &mut Node, entry: (u64, Place), pool: &mut Pool) -> bool
    requires rising { IsRising node.old.entries }
    requires several { 0 < node.old.height → 2 ≤ node.old.fill }
    requires key_buffer { pool.old.keys + node.old.nodes ≤ pool.old.key_room }
    requires kid_buffer { pool.old.kids + node.old.inners ≤ pool.old.kid_room }
    ensures there { result ≡ has_entry node.old.entries entry }
    ensures entries { node.new.entries ≡ without_entry entry node.old.entries }
    ensures height { node.new.height ≡ node.old.height }
    ensures fill { node.old.fill ≤ node.new.fill + 1 }
    ensures pool_keys { pool.new.keys + node.new.nodes ≡ pool.old.keys + node.old.nodes }
    ensures pool_kids { pool.new.kids + node.new.inners ≡ pool.old.kids + node.old.inners }
    ensures key_room { pool.old.key_room ≤ pool.new.key_room }
    ensures kid_room { pool.old.kid_room ≤ pool.new.kid_room }
{
    if node.height == 0 {
        return match find(node.keys.as_slice(), entry) {
            Some(at) => {
                node.keys.remove(at);
                true
            }
            None => false,
        };
    }
    let at = child_of(node.keys.as_slice(), entry);
    let there = remove_below(&mut node.kids[at], entry, pool);
    settle_kid(node.height, &mut node.keys, &mut node.kids, at, pool);
    there
}
