// Walks below a node.
//
// 1. The entries of a node rise, so for a range of values only the children from the first to the
//    last one that may have such a value are looked at.
// 2. For the first entry from another one on, one child of each node is looked at. Where it has
//    none, the answer is the first entry of the next child, which is among the node's own keys.
ghost use Rattle.std.specs.Prelude.{◌≡◌, ◌++◌, OnOk, not, find, slice_get};
ghost use Rattle.rg_model.specs.Layout.{is_entry_before};
ghost use Rattle.rg_index.specs.Entries.{IsRising, entries_within};
ghost use Rattle.rg_index.specs.Split.{IsCutBy};

use crate::add::child_of;
use rg_base::no_memory::NoMemory;
use rg_base::place::Place;
use rg_bulk::node::Node;
use rg_index::search::{count_below, count_up_to, find_within, is_before};

/// Puts the entries below a node that have values from `lo` to `hi` behind others. It looks at the
/// children that may have some, and at no others.
pub fn collect(node: &Node, lo: u64, hi: u64, found: &mut Vec<(u64, Place)>) -> Result<(), NoMemory>
    requires { IsRising node.now.entries }
    ensures { OnOk result (found.new.items
        ≡ found.old.items ++ entries_within lo hi node.now.entries) }
{
    if node.height == 0 {
        found.extend_from_slice(find_within(node.keys.as_slice(), lo, hi))?;
        return Ok(());
    }
    let first = count_below(node.keys.as_slice(), lo).max(1) - 1;
    let end = count_up_to(node.keys.as_slice(), hi);
    if end <= first {
        return Ok(());
    }
    let kids = &node.kids[first..end];
    for kid in kids {
        collect(kid, lo, hi, found)?;
    }
    Ok(())
}

/// Puts all entries below a node behind others.
pub fn collect_all(node: &Node, found: &mut Vec<(u64, Place)>) -> Result<(), NoMemory>
    ensures { OnOk result (found.new.items ≡ found.old.items ++ node.now.entries) }
{
    if node.height == 0 {
        found.extend_from_slice(node.keys.as_slice())?;
        return Ok(());
    }
    for kid in &node.kids {
        collect_all(kid, found)?;
    }
    Ok(())
}

// How many entries are before this one.
fn count_before(entries: &[(u64, Place)], entry: (u64, Place)) -> usize
    requires { IsRising entries.now }
    ensures { IsCutBy (λ e. is_entry_before e entry) entries.now result }
{
    entries.partition_point(|e| is_before(e, &entry))
}

// The entry at an index, if there is one.
fn entry_at(entries: &[(u64, Place)], at: usize) -> Option<(u64, Place)>
    ensures { result ≡ slice_get entries.now at }
{
    if at < entries.len() {
        Some(entries[at])
    } else {
        None
    }
}

/// The first entry below a node that is not before this one. It looks at one child of each node.
pub fn first_from(node: &Node, entry: (u64, Place)) -> Option<(u64, Place)>
    requires { IsRising node.now.entries }
    ensures { result ≡ find (λ e. not (is_entry_before e entry)) node.now.entries }
{
    if node.height == 0 {
        let at = count_before(node.keys.as_slice(), entry);
        return entry_at(node.keys.as_slice(), at);
    }
    let i = child_of(node.keys.as_slice(), entry);
    match first_from(&node.kids[i], entry) {
        Some(found) => Some(found),
        None => entry_at(node.keys.as_slice(), i + 1),
    }
}
