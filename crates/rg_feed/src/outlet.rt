// The sending end of the feed.
//
// 1. Items go through a ring of 256, which the receiving end empties. An item that finds the ring
//    full stays pending at this end. Nothing is refused and nothing is lost.
// 2. Items keep their order: what is sent is pending first, and goes into the ring behind all that
//    was pending before.
// 3. Memory is taken before: `send` takes room that was reserved, and cannot fail.
ghost use Rattle.std.specs.Prelude.{◌≡◌, ◌⊎◌, ◌++◌, [], ◌∷◌, ◌+◌, ◌≤◌, ◌<◌, length, OnOk, OnErr};
ghost use Rattle.std.specs.Bool.{OnTrue, OnFalse};
ghost use Rattle.rtrb.specs.Ring.{producer_capacity, sent};
ghost use Rattle.rg_feed.specs.Ends.{Pumped, SameSent, sent_items};
ghost use Rattle.rg_feed.specs.Ring.{sending_ring};

use crate::fold::item::Item;
use rg_base::no_memory::NoMemory;
use rtrb::{AnyItems, Producer};
use std::alloc::Global;
use std::collections::VecDeque;
use std::marker::Model;

/// The sending end, with the items that found the ring full, and room for more of them.
#[derive(Drop)]
pub struct FeedOut {
    pub(crate) end: Producer<Item, Global, AnyItems>,
    pub(crate) pending: VecDeque<Item>,
}

impl Model for FeedOut {
    ghost use Rattle.std.specs.Prelude.{◌≡◌, ◌-◌};
    ghost use Rattle.std.specs.VecDeque.{deque_capacity, deque_len};
    ghost use Rattle.rtrb.specs.Ring.{known_free, producer_capacity, sent};
    ghost use Rattle.rg_feed.specs.Ends.{Sent};
    ghost use Rattle.rg_feed.specs.Ring.{sending_ring};

    ghost Value = { Sent };

    ghost view = { λ o. record {
      ring = sending_ring o.end;
      pushed = sent o.end;
      pending = o.pending.items;
      free = known_free o.end;
      spare = deque_capacity o.pending - deque_len o.pending;
    } };

    ghost invariant = { λ o. producer_capacity o.end ≡ 256 };
}

impl FeedOut {
    pub(crate) fn new(alloc: Global, end: Producer<Item, Global, AnyItems>) -> FeedOut
        requires empty { sent end ≡ [] }
        requires size { producer_capacity end ≡ 256 }
        ensures items { sent_items result ≡ [] }
        ensures ring { result.ring ≡ sending_ring end }
    {
        FeedOut {
            end,
            pending: VecDeque::new(alloc),
        }
    }

    /// Takes room, so that at least `more` items can be sent.
    pub fn reserve(&mut self, more: u32) -> Result<(), NoMemory>
        ensures same { SameSent self.old self.new }
        ensures spare { self.old.spare ≤ self.new.spare }
        ensures ok { OnOk result (more ≤ self.new.spare) }
        ensures refused { OnErr result (self.old.spare < more) }
    {
        match self.pending.reserve(more as usize) {
            Ok(()) => Ok(()),
            Err(_) => Err(NoMemory),
        }
    }

    /// Sends an item. It is pending then.
    pub fn send(&mut self, item: Item)
        requires { 0 < self.old.spare }
        ensures ring { self.new.ring ≡ self.old.ring }
        ensures pushed { self.new.pushed ≡ self.old.pushed }
        ensures pending { self.new.pending ≡ self.old.pending ++ item ∷ [] }
        ensures items { sent_items self.new ≡ sent_items self.old ++ item ∷ [] }
        ensures spare { self.old.spare ≡ self.new.spare + 1 }
    {
        self.pending.push_back_reserved(item);
    }

    // How many slots of the ring are free, by a look at it.
    fn look(&mut self) -> u32
        ensures same { SameSent self.old self.new }
        ensures pending { Pumped 0 self.old self.new }
        ensures value { result ≡ self.new.free }
        ensures spare { self.new.spare ≡ self.old.spare }
    {
        self.end.slots() as u32
    }

    // Moves one item to the ring, if there is one.
    fn move_one(&mut self) -> bool
        requires { 0 < self.old.free }
        ensures same { SameSent self.old self.new }
        ensures moved { OnTrue result (Pumped 1 self.old self.new) }
        ensures none { OnFalse result (Pumped 0 self.old self.new) }
        ensures empty { OnFalse result (length self.new.pending ≡ 0) }
        ensures free { OnTrue result (self.old.free ≡ self.new.free + 1) }
        ensures spare { self.old.spare ≤ self.new.spare }
    {
        match self.pending.pop_front() {
            None => false,
            Some(item) => {
                self.end.push_reserved(item);
                true
            }
        }
    }

    /// Moves items to the ring, until it is full or nothing is pending. The answer is how many were
    /// moved.
    pub fn pump(&mut self) -> u32
        ensures same { SameSent self.old self.new }
        ensures moved { Pumped result self.old self.new }
        ensures stops { (length self.new.pending ≡ 0) ⊎ (self.new.free ≡ 0) }
        ensures spare { self.old.spare ≤ self.new.spare }
    {
        let free = self.look();
        for moved in 0..free {
            if !self.move_one() {
                return moved;
            }
        }
        free
    }

    /// How many items are pending.
    pub fn pending(&self) -> usize
        ensures { result ≡ length self.now.pending }
    {
        self.pending.len()
    }
}
