ghost use Rattle.std.specs.Prelude.{◌≡◌, OnOk};
ghost use Rattle.rg_model.specs.Layout.{put_entry};
ghost use Rattle.rg_index.specs.Entries.{without_entry};

use rg_base::no_memory::NoMemory;
use rg_base::place::Place;
use rg_btree::tree::{Tree, build};
use rg_index::index::Index;
use rg_index::sorted::SortedIndex;
use std::alloc::Global;
use std::process::Abort;
use std::test::Fail;

// Adds an entry, in place of an equal one, and answers whether that was there.
fn put<I: Index>(index: &mut I, value: u64, place: Place) -> Result<bool, NoMemory>
    ensures { OnOk result (I.entries index.new ≡
        put_entry (value, place) (without_entry (value, place) (I.entries index.old))) }
{
    let there = index.remove(value, place);
    index.reserve(1)?;
    index.add(value, place);
    Ok(there)
}

// A tree of the entries of an index.
fn rebuild<I: Index>(alloc: Global, index: &I) -> Result<Tree, NoMemory> {
    build(alloc, index.range(0, u64::MAX)?.as_slice())
}

// The values of numbers come in no order, and some come twice.
fn entry(number: u32) -> (u64, Place) {
    let mixed = number.wrapping_mul(2_654_435_761);
    let value = u64::from((mixed ^ (mixed >> 15)) & 0xf_ffff);
    let place = Place {
        page: number / 100,
        slot: 7,
    };
    (value, place)
}

// Some more than two levels of nodes have.
const ENTRIES: u32 = 70_000;

// Both list the same in these ranges.
fn check_ranges(rt: &impl Abort, tree: &Tree, sorted: &SortedIndex) -> Result<(), NoMemory> {
    for step in 0..32u64 {
        let lo = step * 32_768;
        for hi in [lo, lo + 9, lo + 700, lo + 100_000, u64::MAX] {
            let found = tree.range(lo, hi)?;
            let wanted = sorted.range(lo, hi)?;
            assert_eq!(rt; found.as_slice(), wanted.as_slice(), "{lo} to {hi}");
        }
    }
    check_firsts(rt, tree, sorted)
}

// Both have the same entries, and the same first one from these values on.
fn check_firsts(rt: &impl Abort, tree: &Tree, sorted: &SortedIndex) -> Result<(), NoMemory> {
    let all = sorted.range(0, u64::MAX)?;
    assert_eq!(rt; tree.listing()?.as_slice(), all.as_slice());
    assert_eq!(rt; tree.len(), all.as_slice().len());
    for step in 0..32u64 {
        let lo = step * 32_768;
        let wanted = sorted.range(lo, u64::MAX)?;
        let found = tree.first_from(lo, Place { page: 0, slot: 0 });
        assert_eq!(rt; found, wanted.as_slice().first().copied(), "from {lo}");
    }
    Ok(())
}

#[test]
fn lists_what_a_sorted_vector_lists(rt: HostRuntime) -> Result<(), Fail> {
    let mut tree = Tree::new(rt.alloc())?;
    let mut sorted = SortedIndex::new(rt.alloc())?;
    assert_eq!(rt; tree.levels(), 1);
    for number in 0..ENTRIES {
        let (value, place) = entry(number);
        let there = put(&mut tree, value, place)?;
        assert_eq!(rt; there, put(&mut sorted, value, place)?, "{number}");
    }
    assert_eq!(rt; tree.levels(), 3);
    check_ranges(&rt, &tree, &sorted)?;
    for number in 0..ENTRIES {
        if number % 2 == 0 || number < 3_000 {
            let (value, place) = entry(number);
            let there = tree.remove(value, place);
            assert_eq!(rt; there, sorted.remove(value, place), "{number}");
        }
    }
    check_ranges(&rt, &tree, &sorted)?;
    for number in 0..ENTRIES {
        let (value, place) = entry(number);
        tree.remove(value, place);
    }
    assert_eq!(rt; tree.levels(), 1);
    assert!(rt; tree.range(0, u64::MAX)?.as_slice().is_empty());
    Ok(())
}

// A tree built of so many entries has so many levels, lists them, takes one more, and gives it up.
fn check_built(rt: &impl Abort, alloc: Global, count: u64, levels: u8) -> Result<(), NoMemory> {
    let mut sorted = SortedIndex::new(alloc)?;
    for value in 0..count {
        put(&mut sorted, value, Place { page: 1, slot: 2 })?;
    }
    let mut tree = rebuild(alloc, &sorted)?;
    assert_eq!(rt; tree.levels(), levels, "{count} entries");
    let place = Place { page: 1, slot: 1 };
    assert!(rt; !put(&mut tree, 100, place)?, "{count} entries");
    assert!(rt; tree.remove(100, place), "{count} entries");
    check_ranges(rt, &tree, &sorted)
}

#[test]
fn builds_trees(rt: HostRuntime) -> Result<(), Fail> {
    let cases = [(0, 1), (1, 1), (256, 1), (257, 2), (57_600, 2), (57_601, 3)];
    for (count, levels) in cases {
        check_built(&rt, rt.alloc(), count, levels)?;
    }
    Ok(())
}
