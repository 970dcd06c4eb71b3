// Bringing the new copy up to date.
//
// 1. After `taken` changes since the last Begin the row of each source in the new copy is the row
//    that the feed gives that place up to there. So the old copy is never looked at.
// 2. Changes are taken in the order in which they were made, at most so many in one call. Those
//    that are passed over count as taken, and change nothing.
// 3. Of the changes of one home in a batch only the last is made: it says what row the home has in
//    the end.
// 4. A source that no change of the batch names keeps its row and its target, and its row lies
//    where it lay. One that has a row before and after the batch keeps its target.
// 5. The memory for the batch is taken before a change leaves the backlog, and that for its net
//    before the first change is made. After a refusal the utility stops, since changes that were
//    taken and not made are gone.
ghost use Rattle.std.specs.Prelude.{◌≡◌, ◌+◌, [], min, OnOk, IfOk, IfErr};
ghost use Rattle.rg_feed.specs.Fold.Fold.{since_begin};
ghost use Rattle.rg_feed.specs.Fold.Lawful.{Lawful};
ghost use Rattle.rg_translate.specs.Backlog.{SameItems, left, next_changes, to_make};
ghost use Rattle.rg_translate.specs.Caught.{Caught, ClaimsMore, IsFullBy, IsRefusedLast};
ghost use Rattle.rg_translate.specs.Caught.{KeepTargets, SameCopy, StopsAt, Unmoved};

use crate::batch::{next_count, take_batch};
use crate::make::make_changes;
use rg_feed::inlet::FeedIn;
use rg_net::net::net;
use rg_shadow::fault::ShadowFault;
use rg_shadow::shadow::Shadow;
use std::alloc::Global;

/// Makes the next changes of the backlog in the new copy, at most `most` of them, and answers how
/// many were taken. NoSpace is returned only if the new copy, as it is then, has no room for the
/// row of one of them: then all of them are taken, and not all made. NoMemory may come before a
/// change is taken, or later.
pub fn catch_up(
    alloc: Global,
    shadow: &mut Shadow,
    inlet: &mut FeedIn,
    most: u32,
) -> Result<u32, ShadowFault>
    requires lawful { Lawful (since_begin inlet.old.items) }
    requires caught { Caught shadow.old inlet.old }
    ensures caught { OnOk result (Caught shadow.new inlet.new) }
    ensures count { IfOk result (λ n. n ≡ min most (left inlet.old)) }
    ensures taken { IfOk result (λ n. inlet.new.taken ≡ inlet.old.taken + n) }
    ensures same { SameItems inlet.old inlet.new }
    ensures copy { SameCopy shadow.old shadow.new }
    // A source that none of the next changes names has its row, its target, and its row's place.
    ensures unmoved { Unmoved shadow.old shadow.new
        (next_changes (min most (left inlet.old)) inlet.old) }
    ensures stays { KeepTargets shadow.old shadow.new }
    // Where all are passed over nothing is made.
    ensures idle { to_make (min most (left inlet.old)) inlet.old ≡ []
        → shadow.new ≡ shadow.old }
    // The refused change is the last of its home that is not passed over; the copy is as it was
    // before that one.
    ensures refused { IfErr result (IsRefusedLast shadow.new
        (to_make (min most (left inlet.old)) inlet.old)) }
    ensures claims { OnOk result (ClaimsMore shadow.old shadow.new
        (to_make (min most (left inlet.old)) inlet.old)) }
    // A change has no room only where the pages, with the rows of all of them, claim so much.
    ensures full { IfErr result (IsFullBy shadow.old
        (to_make (min most (left inlet.old)) inlet.old)) }
    ensures stops { IfErr result (λ fault. StopsAt fault (min most (left inlet.old))
        inlet.old.taken inlet.new.taken) }
{
    let count = next_count(inlet, most);
    let batch = take_batch(alloc, inlet, count)?;
    let changes = net(alloc, batch.as_slice())?;
    match make_changes(shadow, changes.as_slice()) {
        Err(fault) => Err(fault),
        Ok(()) => Ok(count),
    }
}
