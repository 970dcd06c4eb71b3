// All items at once, for whoever holds both ends.
//
// 1. Items that are known to be in the ring are received first. An item that is pending goes
//    through the ring when it is empty: then a slot is free. So none overtakes another.
// 2. The inlet takes its room before the first item. If memory runs out nothing was received.
ghost use Rattle.std.specs.Prelude.{◌≡◌, ◌+◌, ◌<◌, ◌≤◌, length, OnOk, OnErr};
ghost use Rattle.rg_feed.specs.Ends.{Grew, Joined, SameReceived, SameSent, sent_items, waiting};

use crate::ends::look_beside;
use crate::inlet::FeedIn;
use crate::outlet::FeedOut;
use rg_base::no_memory::NoMemory;

// Pushes one pending item into the empty ring.
fn push_through(outlet: &mut FeedOut, inlet: &mut FeedIn)
    requires ring { outlet.old.ring ≡ inlet.old.ring }
    requires joined { Joined inlet.old outlet.old }
    requires empty { length inlet.old.known ≡ 0 }
    requires some { 0 < length outlet.old.pending }
    ensures received { SameReceived inlet.old inlet.new }
    ensures sent { SameSent outlet.old outlet.new }
    ensures joined { Joined inlet.new outlet.new }
    ensures known { 0 < length inlet.new.known }
    ensures room { inlet.new.spare ≡ inlet.old.spare }
    ensures spare { outlet.old.spare ≤ outlet.new.spare }
{
    let _ = outlet.end.slots_beside(&mut inlet.end);
    match outlet.pending.pop_front() {
        None => return,
        Some(item) => outlet.end.push_reserved(item),
    }
    let _ = inlet.end.slots_beside(&mut outlet.end);
}

// Receives one item more, by way of the ring where it is pending.
fn pass_one(outlet: &mut FeedOut, inlet: &mut FeedIn)
    requires ring { outlet.old.ring ≡ inlet.old.ring }
    requires joined { Joined inlet.old outlet.old }
    requires some { 0 < waiting inlet.old outlet.old }
    requires room { 0 < inlet.old.spare }
    ensures grew { Grew inlet.old inlet.new }
    ensures one { length inlet.new.items ≡ length inlet.old.items + 1 }
    ensures sent { SameSent outlet.old outlet.new }
    ensures joined { Joined inlet.new outlet.new }
    ensures room { inlet.old.spare ≤ inlet.new.spare + 1 }
    ensures spare { outlet.old.spare ≤ outlet.new.spare }
{
    if inlet.end.cached_slots() > 0 {
        inlet.take_known();
        return;
    }
    push_through(outlet, inlet);
    inlet.take_known();
}

/// Receives all that was sent. If memory runs out nothing was received; it does not where the inlet
/// has room for all that was not yet received.
pub fn hand_over(outlet: &mut FeedOut, inlet: &mut FeedIn) -> Result<(), NoMemory>
    requires { outlet.old.ring ≡ inlet.old.ring }
    ensures grew { Grew inlet.old inlet.new }
    ensures sent { SameSent outlet.old outlet.new }
    ensures all { OnOk result (inlet.new.items ≡ sent_items outlet.new) }
    ensures none { OnOk result (length outlet.new.pending ≡ 0) }
    ensures refused { OnErr result (SameReceived inlet.old inlet.new) }
    ensures full { OnErr result (inlet.old.spare + length inlet.old.items
        < length (sent_items outlet.old)) }
    ensures spare { outlet.old.spare ≤ outlet.new.spare }
{
    let count = look_beside(outlet, inlet);
    match inlet.make_room(count) {
        Err(error) => return Err(error),
        Ok(()) => {}
    }
    for passed in 0..count {
        let _ = passed;
        pass_one(outlet, inlet);
    }
    Ok(())
}
