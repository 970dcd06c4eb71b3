// The texts of layouts.
//
// 1. A layout is one line for the whole and one for its side. A switch has two sides, the old one
//    first.
// 2. A side's line has its pages, its rows and how many of them were moved.
// 3. A full print adds a line for each spot and one for each listing of an index.
ghost use Rattle.std.specs.Prelude.{◌≡◌, ◌++◌, OnOk, count_by, flat_map};
ghost use Rattle.rg_print.specs.Layout.{is_over, layout_text, listing_line, over_text, place_text};
ghost use Rattle.rg_print.specs.Layout.{side_details, side_line, side_text, spot_line};
ghost use Rattle.rg_print.specs.Layout.{switched_text, which_text};

use crate::push::{push, push_named, push_number, push_word};
use rg_base::copy::TableCopy;
use rg_base::no_memory::NoMemory;
use rg_base::place::Place;
use rg_base::which::Which;
use rg_stmt::layout::{Listing, Side, Sides, Spot, Spots};

pub fn push_layout(
    out: &mut Vec<u8>,
    full: bool,
    copy: TableCopy,
    side: &Side,
) -> Result<(), NoMemory>
    ensures { OnOk result (out.new.items ≡ out.old.items ++ layout_text full copy side.now) }
{
    push_named(out, b"LAYOUT copy=", u64::from(copy.number()))?;
    push_side(out, full, "NOW", side)
}

pub fn push_switched(
    out: &mut Vec<u8>,
    full: bool,
    copy: TableCopy,
    sides: &Sides,
) -> Result<(), NoMemory>
    ensures { OnOk result (out.new.items ≡ out.old.items ++ switched_text full copy sides.now) }
{
    push_named(out, b"SWITCHED copy=", u64::from(copy.number()))?;
    push_side(out, full, "OLD", &sides.old)?;
    push_side(out, full, "NEW", &sides.new)
}

fn push_side(out: &mut Vec<u8>, full: bool, name: &str, side: &Side) -> Result<(), NoMemory>
    ensures { OnOk result (out.new.items ≡ out.old.items ++ side_text full name.now side.now) }
{
    push_side_line(out, name, side)?;
    if full {
        push_side_details(out, side)?;
    }
    Ok(())
}

fn push_side_line(out: &mut Vec<u8>, name: &str, side: &Side) -> Result<(), NoMemory>
    ensures { OnOk result (out.new.items ≡ out.old.items ++ side_line name.now side.now) }
{
    let spots = side.spots.as_slice();
    push_word(out, b"\n  ", name)?;
    push_named(out, b" pages=", u64::from(side.pages))?;
    push_named(out, b" rows=", spots.len() as u64)?;
    push_named(out, b" over=", count_over(spots) as u64)
}

// The number of spots whose row was moved.
fn count_over(spots: &[Spot]) -> usize
    ensures { result ≡ count_by is_over spots.now }
{
    spots.iter().filter(|spot| spot.over.is_some()).count()
}

fn push_side_details(out: &mut Vec<u8>, side: &Side) -> Result<(), NoMemory>
    ensures { OnOk result (out.new.items ≡ out.old.items ++ side_details side.now) }
{
    push_spots(out, &side.spots)?;
    push_listing(out, Which::Key, &side.keys)?;
    push_listing(out, Which::Clus, &side.cluses)?;
    push_listing(out, Which::Cat, &side.cats)
}

fn push_spots(out: &mut Vec<u8>, spots: &Spots) -> Result<(), NoMemory>
    ensures { OnOk result (out.new.items ≡ out.old.items ++ flat_map spot_line spots.now) }
{
    for spot in spots.as_slice() {
        push_spot(out, *spot)?;
    }
    Ok(())
}

fn push_spot(out: &mut Vec<u8>, spot: Spot) -> Result<(), NoMemory>
    ensures { OnOk result (out.new.items ≡ out.old.items ++ spot_line spot) }
{
    push(out, b"\n  SPOT ")?;
    push_place(out, spot.place)?;
    push_named(out, b" ", spot.key)?;
    push_named(out, b" ", spot.clus)?;
    push(out, b" ")?;
    push_over(out, spot.over)
}

fn push_over(out: &mut Vec<u8>, over: Option<Place>) -> Result<(), NoMemory>
    ensures { OnOk result (out.new.items ≡ out.old.items ++ over_text over) }
{
    match over {
        None => push(out, b"HOME"),
        Some(place) => {
            push(out, b"OVER ")?;
            push_place(out, place)
        }
    }
}

fn push_place(out: &mut Vec<u8>, place: Place) -> Result<(), NoMemory>
    ensures { OnOk result (out.new.items ≡ out.old.items ++ place_text place) }
{
    push_number(out, u64::from(place.page))?;
    push(out, b".")?;
    push_number(out, u64::from(place.slot))
}

fn push_listing(out: &mut Vec<u8>, which: Which, listing: &Listing) -> Result<(), NoMemory>
    ensures { OnOk result
        (out.new.items ≡ out.old.items ++ flat_map (listing_line which) listing.now) }
{
    for entry in listing.as_slice() {
        push_listing_line(out, which, *entry)?;
    }
    Ok(())
}

fn push_listing_line(out: &mut Vec<u8>, which: Which, entry: (u64, Place)) -> Result<(), NoMemory>
    ensures { OnOk result (out.new.items ≡ out.old.items ++ listing_line which entry) }
{
    let (value, place) = entry;
    push_word(out, b"\n  ", which_name(which))?;
    push_named(out, b" ", value)?;
    push(out, b" ")?;
    push_place(out, place)
}

pub fn which_name(which: Which) -> &'static str
    ensures { result.now ≡ which_text which }
{
    match which {
        Which::Key => "KEY",
        Which::Clus => "CLUS",
        Which::Cat => "CAT",
    }
}
