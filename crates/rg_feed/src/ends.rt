// Calls over both ends of a feed.
//
// 1. The ring has room for 256 items. What is sent waits at the outlet where the ring is full, and
//    nothing is refused or lost.
ghost use Rattle.std.specs.Prelude.{◌≡◌, [], IfOk};
ghost use Rattle.rg_feed.specs.Ends.{Joined, SameReceived, SameSent, sent_items, waiting};

use crate::inlet::FeedIn;
use crate::outlet::FeedOut;
use rg_base::no_memory::NoMemory;
use rtrb::RingBuffer;
use std::alloc::Global;

/// The two ends of a new feed.
pub fn feed(alloc: Global) -> Result<(FeedOut, FeedIn), NoMemory>
    ensures ring { IfOk result (λ ends. ends.0.ring ≡ ends.1.ring) }
    ensures sent { IfOk result (λ ends. sent_items ends.0 ≡ []) }
    ensures received { IfOk result (λ ends. ends.1.items ≡ []) }
    ensures taken { IfOk result (λ ends. ends.1.taken ≡ 0) }
{
    let (producer, consumer) = RingBuffer::new(alloc, 256)?;
    Ok((FeedOut::new(alloc, producer), FeedIn::new(alloc, consumer)))
}

// How many items are sent and not yet received. All that are in the ring are known then.
pub(crate) fn look_beside(outlet: &mut FeedOut, inlet: &mut FeedIn) -> usize
    requires { outlet.old.ring ≡ inlet.old.ring }
    ensures joined { Joined inlet.new outlet.new }
    ensures value { result ≡ waiting inlet.new outlet.new }
    ensures received { SameReceived inlet.old inlet.new }
    ensures sent { SameSent outlet.old outlet.new }
    ensures room { inlet.new.spare ≡ inlet.old.spare }
    ensures spare { outlet.new.spare ≡ outlet.old.spare }
{
    let shown = inlet.end.slots_beside(&mut outlet.end);
    shown + outlet.pending.len()
}

/// How many items are sent and not yet received; at 0 all that was sent is received. All items in
/// the ring are known then.
pub fn beside(outlet: &mut FeedOut, inlet: &mut FeedIn) -> u64
    requires { outlet.old.ring ≡ inlet.old.ring }
    ensures joined { Joined inlet.new outlet.new }
    ensures value { result ≡ waiting inlet.new outlet.new }
    ensures all { result ≡ 0 → inlet.new.items ≡ sent_items outlet.new }
    ensures received { SameReceived inlet.old inlet.new }
    ensures sent { SameSent outlet.old outlet.new }
    ensures room { inlet.new.spare ≡ inlet.old.spare }
    ensures spare { outlet.new.spare ≡ outlet.old.spare }
{
    look_beside(outlet, inlet) as u64
}
