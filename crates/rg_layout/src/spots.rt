// The spots of rows on pages.
//
// 1. A row is read from where it lies, but not its text. Its spot stands at its home.
// 2. All pages are let go before each slot, so that two idle frames are enough. Frames may then
//    give a page up between two slots. The spots are those of one state of the pages where frames
//    are sure.
ghost use Rattle.std.specs.Prelude.{◌≡◌, ◌≤◌, ◌++◌, true, length, IfOk, IfErr, OnOk};
ghost use Rattle.rg_home.specs.Pages.{page_at};
ghost use Rattle.rg_page.specs.Content.{slots_of};
ghost use Rattle.rg_page.specs.Seen.{Reads};
ghost use Rattle.rg_space.specs.Took.{slot_in, HasRisen};
ghost use Rattle.rg_layout.specs.Spots.{spot_at, spots_on, spots_of};

use rg_base::place::Place;
use rg_page::frames::Frames;
use rg_space::fault::SpaceFault;
use rg_space::read::{ValuesAt, is_there, values_at};
use rg_stmt::layout::{Spot, Spots};
use std::alloc::Global;

// How many slots a page has; none where it is not there.
fn slot_count_of<F: Frames>(frames: &mut F, number: u32) -> Result<u16, SpaceFault>
    requires { 1 ≤ (F.seen frames.old).spare }
    ensures count { IfOk result (λ count. count
        ≡ length (page_at (slots_of (F.seen frames.new).pages) number)) }
    ensures reads { Reads (F.seen frames.old) (F.seen frames.new) }
    ensures reserved { (F.seen frames.new).reserved ≡ (F.seen frames.old).reserved }
    ensures idle { (F.seen frames.old).idle ≤ (F.seen frames.new).idle }
    ensures cause { IfErr result (λ fault. HasRisen fault (F.seen frames.old) (F.seen frames.new)) }
    ensures gave { F.gave (F.seen frames.old).pages
        (F.seen frames.old).forced frames.old frames.new }
{
    if !is_there(frames, number) {
        return Ok(0);
    }
    match frames.with_page(number) {
        Ok(page) => Ok(page.slot_count()),
        Err(_) => Err(SpaceFault::Device),
    }
}

// Adds the spot of the row whose home is at this place, if there is one.
fn add_spot<F: Frames>(frames: &mut F, home: Place, spots: &mut Vec<Spot>) -> Result<(), SpaceFault>
    requires { 2 ≤ (F.seen frames.old).idle }
    ensures added { OnOk result (spots.new.items ≡ spots.old.items
        ++ spot_at (slot_in (F.seen frames.new)) home) }
    ensures reads { Reads (F.seen frames.old) (F.seen frames.new) }
    ensures reserved { (F.seen frames.new).reserved ≡ (F.seen frames.old).reserved }
    ensures idle { (F.seen frames.old).idle ≤ (F.seen frames.new).idle }
    ensures cause { IfErr result (λ fault. HasRisen fault (F.seen frames.old) (F.seen frames.new)) }
    ensures gave { F.gave (F.seen frames.old).pages
        (F.seen frames.old).forced frames.old frames.new }
{
    frames.let_go();
    let ValuesAt { other, values } = values_at(frames, home)?;
    match values {
        None => Ok(()),
        Some(values) => {
            let spot = Spot {
                place: home,
                key: values.key,
                clus: values.clus,
                over: other,
            };
            match spots.push(spot) {
                Ok(()) => Ok(()),
                Err(_) => Err(SpaceFault::NoMemory),
            }
        }
    }
}

// Adds the spots of a page, by rising slot.
fn add_spots<F: Frames>(frames: &mut F, page: u32, spots: &mut Vec<Spot>) -> Result<(), SpaceFault>
    requires { 2 ≤ (F.seen frames.old).idle }
    ensures added { OnOk result ((F.seen frames.new).sure ≡ true → spots.new.items
        ≡ spots.old.items ++ spots_on (slots_of (F.seen frames.new).pages) page) }
    ensures reads { Reads (F.seen frames.old) (F.seen frames.new) }
    ensures reserved { (F.seen frames.new).reserved ≡ (F.seen frames.old).reserved }
    ensures idle { (F.seen frames.old).idle ≤ (F.seen frames.new).idle }
    ensures cause { IfErr result (λ fault. HasRisen fault (F.seen frames.old) (F.seen frames.new)) }
    ensures gave { F.gave (F.seen frames.old).pages
        (F.seen frames.old).forced frames.old frames.new }
{
    frames.let_go();
    let count = slot_count_of(frames, page)?;
    let mut slot = 0;
    while slot < count {
        add_spot(frames, Place { page, slot }, spots)?;
        slot += 1;
    }
    Ok(())
}

/// The spots of all rows, by rising place.
pub fn all_spots<F: Frames>(frames: &mut F, alloc: Global) -> Result<Spots, SpaceFault>
    requires { 2 ≤ (F.seen frames.old).idle }
    ensures spots { IfOk result (λ spots. (F.seen frames.new).sure ≡ true
        → spots ≡ spots_of (slots_of (F.seen frames.new).pages)) }
    ensures reads { Reads (F.seen frames.old) (F.seen frames.new) }
    ensures reserved { (F.seen frames.new).reserved ≡ (F.seen frames.old).reserved }
    ensures idle { (F.seen frames.old).idle ≤ (F.seen frames.new).idle }
    ensures cause { IfErr result (λ fault. HasRisen fault (F.seen frames.old) (F.seen frames.new)) }
    ensures gave { F.gave (F.seen frames.old).pages
        (F.seen frames.old).forced frames.old frames.new }
{
    let count = frames.count();
    let mut spots = Vec::new(alloc);
    let mut n = 0;
    while n < count {
        add_spots(frames, n + 1, &mut spots)?;
        n += 1;
    }
    Ok(Spots::new(spots))
}
