// The next changes of the backlog.
//
// 1. The memory of a batch is taken before its first change leaves the backlog. If there is none,
//    nothing was taken.
// 2. A change that is passed over is taken out of the backlog like any other, and dropped: the copy
//    of its own page already has what it left. Copies of other pages say nothing of it.
ghost use Rattle.std.specs.Prelude.{◌≡◌, ◌+◌, ◌<◌, ◌≤◌, [], ◌++◌, min, vec_capacity, vec_len, IfOk};
ghost use Rattle.std.specs.Prelude.{OnOk, OnErr};
ghost use Rattle.rg_translate.specs.Backlog.{SameItems, change_count, left, to_make};

use rg_base::change::Change;
use rg_base::no_memory::NoMemory;
use rg_feed::inlet::FeedIn;
use std::alloc::Global;

/// How many changes are taken next: at most `most` of them.
pub fn next_count(inlet: &FeedIn, most: u32) -> u32
    ensures count { result ≡ min most (left inlet.now) }
    ensures within { result + inlet.now.taken ≤ change_count inlet.now }
{
    let left = inlet.backlog();
    if left < most as usize {
        return left as u32;
    }
    most
}

// Takes the next change, if there is one. It is added to the batch unless it is passed over.
fn take_one(inlet: &mut FeedIn, batch: &mut Vec<Change>)
    requires some { inlet.old.taken < change_count inlet.old }
    requires room { vec_len batch.old < vec_capacity batch.old }
    ensures same { SameItems inlet.old inlet.new }
    ensures taken { inlet.new.taken ≡ inlet.old.taken + 1 }
    ensures added { batch.new.items ≡ batch.old.items ++ to_make 1 inlet.old }
    ensures len { vec_len batch.new ≤ vec_len batch.old + 1 }
    ensures capacity { vec_capacity batch.new ≡ vec_capacity batch.old }
{
    match inlet.next_change() {
        None => {}
        Some(change) => {
            let is_passed = inlet.passes_over(&change);
            if is_passed {
                return;
            }
            batch.push_reserved(change);
        }
    }
}

/// The next `count` changes of the backlog, without those that are passed over. If memory runs out
/// none was taken.
pub fn take_batch(alloc: Global, inlet: &mut FeedIn, count: u32) -> Result<Vec<Change>, NoMemory>
    requires { count + inlet.old.taken ≤ change_count inlet.old }
    ensures same { SameItems inlet.old inlet.new }
    ensures taken { OnOk result (inlet.new.taken ≡ inlet.old.taken + count) }
    ensures batch { IfOk result (λ batch. batch.items ≡ to_make count inlet.old) }
    ensures refused { OnErr result (inlet.new ≡ inlet.old) }
{
    let mut batch = Vec::with_capacity(alloc, count as usize)?;
    for taken in 0..count {
        let _ = taken;
        take_one(inlet, &mut batch);
    }
    Ok(batch)
}
