// The receiving end of the feed.
//
// 1. Items are received in the order in which they were sent. Of those since the last Begin the
//    inlet keeps the copies of pages, and the backlog: the changes that were not taken yet. Of all
//    it keeps the last stage.
// 2. A Begin empties both: what came before it is of another utility.
// 3. Memory is taken before an item leaves the ring. Where there is none, nothing was received.
// 4. A change is passed over if its own page was copied at its position or above. The copy of
//    another page says nothing of it, however late it was made.
// 5. Pages are copied in turn, from page 1 on. As long as they are, the copy of a page is found by
//    its number; else all copies are looked at.
ghost use Rattle.std.specs.Prelude.{◌≡◌, ◌==◌, ◌&&◌, ◌^◌, true, ◌++◌, [], ◌∷◌, ◌+◌, ◌≤◌, ◌<◌, None};
ghost use Rattle.std.specs.Prelude.{drop, take, length, MatchOption, OnOk, OnErr, IfOk};
ghost use mathlib.Core.List.{IsPrefix};
ghost use Rattle.rtrb.specs.Ring.{consumer_capacity, received};
ghost use Rattle.rg_feed.specs.Fold.Fold.{changes, page_copies, since_begin, stage_of};
ghost use Rattle.rg_feed.specs.Fold.Lawful.{passes_over};
ghost use Rattle.rg_feed.specs.Ends.{SameReceived, are_numbered, still_taken};
ghost use Rattle.rg_feed.specs.Ring.{receiving_ring};

use crate::fold::item::{Item, Stage};
use rg_base::change::Change;
use rg_base::no_memory::NoMemory;
use rtrb::{AnyItems, Consumer};
use std::alloc::Global;
use std::collections::VecDeque;
use std::marker::Model;

/// The receiving end, with what it keeps of the items received, and room for more.
#[derive(Drop)]
pub struct FeedIn {
    pub(crate) end: Consumer<Item, Global, AnyItems>,
    copies: Vec<Item>,
    backlog: VecDeque<Change>,
    stage: Option<Stage>,
    // The copies are of pages 1, 2 and so on.
    numbered: bool,
}

impl Model for FeedIn {
    ghost use Rattle.std.specs.Prelude.{◌≡◌, ◌-◌, min, vec_capacity, vec_len};
    ghost use Rattle.std.specs.VecDeque.{deque_capacity, deque_len};
    ghost use Rattle.rtrb.specs.Ring.{consumer_capacity, known_items, received};
    ghost use Rattle.rg_feed.specs.Ends.{Keeps, Received, are_numbered, taken_of};
    ghost use Rattle.rg_feed.specs.Ring.{receiving_ring};

    ghost Value = { Received };

    ghost view = { λ r. record {
      ring = receiving_ring r.end;
      items = received r.end;
      known = known_items r.end;
      taken = taken_of (received r.end) r.backlog.items;
      spare = min (vec_capacity r.copies - vec_len r.copies)
          (deque_capacity r.backlog - deque_len r.backlog);
    } };

    ghost invariant = { λ r. Keeps (received r.end) r.copies.items r.backlog.items r.stage
        × (r.numbered ≡ are_numbered 0 r.copies.items) × (consumer_capacity r.end ≡ 256) };
}

fn is_later_copy(item: &Item, change: &Change) -> bool
    ensures { result ≡ passes_over (item.now ∷ []) change.now }
{
    match item {
        Item::PageCopy { page, position, .. } => {
            *page == change.home.page && change.position.0 <= position.0
        }
        _ => false,
    }
}

// Whether a copy of this page is the next in turn, behind so many.
fn goes_on(numbered: bool, page: u32, count: usize) -> bool
    requires { count < 2 ^ 63 }
    ensures { result ≡ (numbered && page == count + 1) }
{
    numbered && page as usize == count + 1
}

// Whether one of these copies is of the change's page, at its position or above.
fn is_copied_later(copies: &[Item], change: &Change) -> bool
    ensures { result ≡ passes_over copies.now change.now }
{
    for item in copies {
        if is_later_copy(item, change) {
            return true;
        }
    }
    false
}

// The same where the copies are of pages 1, 2 and so on.
fn is_copied_in_turn(copies: &[Item], change: &Change) -> bool
    requires { are_numbered 0 copies.now ≡ true }
    ensures { result ≡ passes_over copies.now change.now }
{
    if change.home.page == 0 {
        return false;
    }
    match copies.get(change.home.page as usize - 1) {
        None => false,
        Some(item) => is_later_copy(item, change),
    }
}

impl FeedIn {
    pub(crate) fn new(alloc: Global, end: Consumer<Item, Global, AnyItems>) -> FeedIn
        requires empty { received end ≡ [] }
        requires size { consumer_capacity end ≡ 256 }
        ensures items { result.items ≡ [] }
        ensures taken { result.taken ≡ 0 }
        ensures ring { result.ring ≡ receiving_ring end }
    {
        FeedIn {
            end,
            copies: Vec::new(alloc),
            backlog: VecDeque::new(alloc),
            stage: None,
            numbered: true,
        }
    }

    /// Takes room, so that at least `more` items can be received.
    pub fn reserve(&mut self, more: u32) -> Result<(), NoMemory>
        ensures same { SameReceived self.old self.new }
        ensures known { self.new.known ≡ self.old.known }
        ensures spare { self.old.spare ≤ self.new.spare }
        ensures ok { OnOk result (more ≤ self.new.spare) }
        ensures refused { OnErr result (self.old.spare < more) }
    {
        self.make_room(more as usize)
    }

    // The same for any number.
    pub(crate) fn make_room(&mut self, more: usize) -> Result<(), NoMemory>
        ensures same { SameReceived self.old self.new }
        ensures known { self.new.known ≡ self.old.known }
        ensures spare { self.old.spare ≤ self.new.spare }
        ensures ok { OnOk result (more ≤ self.new.spare) }
        ensures refused { OnErr result (self.old.spare < more) }
    {
        match self.copies.reserve(more) {
            Err(_) => return Err(NoMemory),
            Ok(()) => {}
        }
        match self.backlog.reserve(more) {
            Err(_) => Err(NoMemory),
            Ok(()) => Ok(()),
        }
    }

    // How many items the ring shows, by a look at it.
    fn look(&mut self) -> u32
        ensures same { SameReceived self.old self.new }
        ensures known { IsPrefix self.old.known self.new.known }
        ensures value { result ≡ length self.new.known }
        ensures spare { self.new.spare ≡ self.old.spare }
    {
        self.end.slots() as u32
    }

    // Takes one item that is known to be in the ring.
    pub(crate) fn take_known(&mut self)
        requires there { 0 < length self.old.known }
        requires room { 0 < self.old.spare }
        ensures ring { self.new.ring ≡ self.old.ring }
        ensures items { self.new.items ≡ self.old.items ++ take 1 self.old.known }
        ensures known { self.new.known ≡ drop 1 self.old.known }
        ensures taken { self.new.taken ≡ still_taken (take 1 self.old.known) self.old.taken }
        ensures room { self.old.spare ≤ self.new.spare + 1 }
    {
        match self.end.pop_known() {
            Item::Begin { .. } => {
                self.copies.clear();
                self.numbered = true;
                self.backlog.clear();
            }
            Item::PageCopy {
                page,
                position,
                rows,
            } => {
                self.numbered = goes_on(self.numbered, page, self.copies.len());
                self.copies.push_reserved(Item::PageCopy {
                    page,
                    position,
                    rows,
                });
            }
            Item::Change(change) => self.backlog.push_back_reserved(change),
            Item::Booked(stage) => self.stage = Some(stage),
        }
    }

    /// Receives what the ring shows, at least all that is known to be in it. The answer is how many
    /// items those are. If memory runs out nothing was received.
    pub fn receive(&mut self) -> Result<u32, NoMemory>
        ensures ring { self.new.ring ≡ self.old.ring }
        ensures items { OnOk result (IsPrefix (self.old.items ++ self.old.known) self.new.items) }
        ensures known { OnOk result (self.new.known ≡ []) }
        ensures count { IfOk result (λ count.
            length self.new.items ≡ length self.old.items + count) }
        ensures taken { OnOk result (self.new.taken
            ≡ still_taken (drop (length self.old.items) self.new.items) self.old.taken) }
        ensures refused { OnErr result (SameReceived self.old self.new) }
        ensures full { OnErr result (self.old.spare < length self.new.known) }
    {
        let count = self.look();
        match self.reserve(count) {
            Err(error) => return Err(error),
            Ok(()) => {}
        }
        for taken in 0..count {
            let _ = taken;
            self.take_known();
        }
        Ok(count)
    }

    /// The next change of the backlog.
    pub fn next_change(&mut self) -> Option<Change>
        ensures ring { self.new.ring ≡ self.old.ring }
        ensures items { self.new.items ≡ self.old.items }
        ensures known { self.new.known ≡ self.old.known }
        ensures change { MatchOption result
            (drop self.old.taken (changes (since_begin self.old.items)) ≡ [])
            (λ change. drop self.old.taken (changes (since_begin self.old.items))
            ≡ change ∷ drop self.new.taken (changes (since_begin self.old.items))) }
        ensures taken { MatchOption result (self.new.taken ≡ self.old.taken)
            (λ _. self.new.taken ≡ self.old.taken + 1) }
        ensures spare { self.old.spare ≤ self.new.spare }
    {
        self.backlog.pop_front()
    }

    /// The copies of pages since the last Begin, in order.
    pub fn copies(&self) -> &[Item]
        ensures { result.now ≡ page_copies (since_begin self.now.items) }
    {
        self.copies.as_slice()
    }

    /// Whether a change is passed over, because its page was copied after it.
    pub fn passes_over(&self, change: &Change) -> bool
        ensures { result ≡ passes_over (since_begin self.now.items) change.now }
    {
        if self.numbered {
            return is_copied_in_turn(self.copies.as_slice(), change);
        }
        is_copied_later(self.copies.as_slice(), change)
    }

    /// How many changes are left in the backlog.
    pub fn backlog(&self) -> usize
        ensures { result + self.now.taken ≡ length (changes (since_begin self.now.items)) }
    {
        self.backlog.len()
    }

    /// The stage of the last booked item.
    pub fn stage(&self) -> Option<Stage>
        ensures { result ≡ stage_of self.now.items }
    {
        self.stage
    }
}
