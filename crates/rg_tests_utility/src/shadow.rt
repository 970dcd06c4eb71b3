ghost use Rattle.std.specs.Prelude.{◌≡◌, ◌≤◌, IfOk};
ghost use Rattle.rg_feed.specs.Fold.Lawful.{AreApart};
ghost use Rattle.rg_shadow.specs.declared.drafts.IndexStage.TheVariants.{Built};

use rg_base::control::{Deadline, Longlog, Maxro};
use rg_base::copy::TableCopy;
use rg_base::homes::Homes;
use rg_base::no_memory::NoMemory;
use rg_base::options::{DrainFor, Options};
use rg_base::place::Place;
use rg_base::position::Position;
use rg_base::row::Row;
use rg_base::text::Text;
use rg_base::which::Which;
use rg_page::page::Page;
use rg_record::buffer::PAGE_SIZE;
use rg_reload::packer::Packer;
use rg_shadow::fault::ShadowFault;
use rg_shadow::shadow::Shadow;
use rg_stmt::layout::Side;
use std::alloc::Global;
use std::process::Abort;
use std::test::Fail;

const OPTIONS: Options = Options {
    maxro: Maxro::Defer,
    longlog: Longlog::Continue,
    delay: 0,
    deadline: Deadline::Never,
    drain: DrainFor::Writers,
    wait: 0,
    retry: 0,
    pause: 0,
    pctfree: 0,
    freepage: 0,
};

fn place(page: u32, slot: u16) -> Place {
    Place { page, slot }
}

// A row of 426 bytes, which takes 444 of its page: nine of them fit on one.
fn row(alloc: Global, clus: u64, key: u64) -> Result<Row, NoMemory> {
    Ok(Row {
        key,
        clus,
        cat: 5,
        text: Text::new(vec![in alloc; b'a'; 400]?),
    })
}

// Three rows, of keys 5, 9 and 4 in slots 0, 1 and 2 of page 1.
fn three_rows(alloc: Global) -> Result<Homes, NoMemory>
    ensures { IfOk result AreApart }
{
    let mut rows = Vec::new(alloc);
    rows.push((Place { page: 1, slot: 0 }, row(alloc, 2, 5)?))?;
    rows.push((Place { page: 1, slot: 1 }, row(alloc, 1, 9)?))?;
    rows.push((Place { page: 1, slot: 2 }, row(alloc, 2, 4)?))?;
    Ok(Homes::new(rows))
}

// They are loaded into a copy of one page, in the order of keys 9, 4 and 5.
fn loaded(rt: &impl Abort, alloc: Global) -> Result<Shadow, Fail> {
    let mut packer = Packer::new(alloc, TableCopy::second(), three_rows(alloc)?, &OPTIONS, 1)?;
    assert!(rt; matches!(packer.next_page(), Ok(Some(_))));
    match packer.next_page() {
        Ok(None) => {}
        _ => assert!(rt; false),
    }
    let (space, pairs) = packer.finish();
    Ok(Shadow::load(alloc, space, pairs)?)
}

// The shadow with this index built.
fn indexed(rt: &impl Abort, alloc: Global, which: Which) -> Result<Shadow, Fail> {
    let mut shadow = loaded(rt, alloc)?;
    shadow.sort(which)?;
    shadow.build(which)?;
    Ok(shadow)
}

// What an index lists.
fn listed(alloc: Global, shadow: &Shadow, which: Which) -> Result<String, Fail> {
    let mut text = String::new(alloc);
    let Some(tree) = shadow.index(which) else {
        return Ok(text);
    };
    for (value, home) in tree.listing()?.as_slice() {
        let entry = format!(in alloc; "{value} {}.{} ", home.page, home.slot)?;
        text.push_str(entry.as_str())?;
    }
    Ok(text)
}

#[test]
fn builds_each_index(rt: HostRuntime) -> Result<(), Fail> {
    let alloc = rt.alloc();
    // Rows of one value are listed by their places, and none is left out.
    let table = [
        (Which::Key, "4 1.1 5 1.2 9 1.0 "),
        (Which::Clus, "1 1.0 2 1.1 2 1.2 "),
        (Which::Cat, "5 1.0 5 1.1 5 1.2 "),
    ];
    for (which, want) in table {
        let shadow = indexed(&rt, alloc, which)?;
        assert_eq!(rt; listed(alloc, &shadow, which)?.as_str(), want);
    }
    Ok(())
}

// So many rows in the slots of page 1. Each has a greater `clus` than the one before it, and a
// smaller key.
fn falling_rows(alloc: Global, count: u16) -> Result<Homes, NoMemory>
    requires { count ≤ 225 }
    ensures { IfOk result AreApart }
{
    let mut rows = Vec::new(alloc);
    for slot in 0..count {
        let place = Place { page: 1, slot };
        rows.push((place, row(alloc, slot as u64, 225 - slot as u64)?))?;
    }
    Ok(Homes::new(rows))
}

// They are loaded into a copy of 200 pages: a page takes one row where nearly all of it is to stay
// free.
fn one_a_page(rt: &impl Abort, alloc: Global) -> Result<Shadow, Fail> {
    let options = Options {
        pctfree: 99,
        ..OPTIONS
    };
    let mut packer = Packer::new(
        alloc,
        TableCopy::second(),
        falling_rows(alloc, 200)?,
        &options,
        200,
    )?;
    for _page in 0..200 {
        assert!(rt; matches!(packer.next_page(), Ok(Some(_))));
    }
    assert!(rt; matches!(packer.next_page(), Ok(None)));
    let (space, pairs) = packer.finish();
    Ok(Shadow::load(alloc, space, pairs)?)
}

// These are more pages than there are runs that are merged at a time.
#[test]
fn merges_the_runs_of_200_pages(rt: HostRuntime) -> Result<(), Fail> {
    let alloc = rt.alloc();
    let mut shadow = one_a_page(&rt, alloc)?;
    shadow.sort(Which::Key)?;
    shadow.build(Which::Key)?;
    // The row of key 225 lies on page 1, and so on.
    let mut want = String::new(alloc);
    for i in 0..200_u32 {
        let entry = format!(in alloc; "{} {}.0 ", 26 + i, 200 - i)?;
        want.push_str(entry.as_str())?;
    }
    let got = listed(alloc, &shadow, Which::Key)?;
    assert_eq!(rt; got.as_str(), want.as_str());
    Ok(())
}

// Makes the row of a source one of this key, or none, and adds what the index by key lists then.
fn change(
    alloc: Global,
    shadow: &mut Shadow,
    source: Place,
    key: Option<u64>,
) -> Result<String, Fail> {
    let changed = match key {
        Some(key) => shadow.apply(source, Some(&row(alloc, 7, key)?)),
        None => shadow.apply(source, None),
    };
    match changed {
        Ok(()) => listed(alloc, shadow, Which::Key),
        Err(ShadowFault::NoSpace) => Ok(format!(in alloc; "no space")?),
        Err(ShadowFault::NoMemory) => Err(NoMemory.into()),
    }
}

#[test]
fn has_no_space_for_a_tenth_row(rt: HostRuntime) -> Result<(), Fail> {
    let alloc = rt.alloc();
    let mut shadow = indexed(&rt, alloc, Which::Key)?;
    for slot in 3..9 {
        change(alloc, &mut shadow, place(1, slot), Some(20))?;
    }
    let full = "4 1.1 5 1.2 9 1.0 20 1.3 20 1.4 20 1.5 20 1.6 20 1.7 20 1.8 ";
    let table = [
        (place(1, 9), Some(20), "no space"),
        (place(7, 7), None, full),
        // A row that goes makes room for it.
        (
            place(1, 1),
            None,
            "4 1.1 5 1.2 20 1.3 20 1.4 20 1.5 20 1.6 20 1.7 20 1.8 ",
        ),
        (
            place(1, 9),
            Some(1),
            "1 1.0 4 1.1 5 1.2 20 1.3 20 1.4 20 1.5 20 1.6 20 1.7 20 1.8 ",
        ),
    ];
    for (source, key, want) in table {
        assert_eq!(rt; change(alloc, &mut shadow, source, key)?.as_str(), want);
    }
    Ok(())
}

// The shadow with each index built.
fn built(rt: &impl Abort, alloc: Global) -> Result<Shadow, Fail>
    ensures keys { IfOk result (λ s. s.keys ≡ Built) }
    ensures cluses { IfOk result (λ s. s.cluses ≡ Built) }
    ensures cats { IfOk result (λ s. s.cats ≡ Built) }
{
    let mut shadow = loaded(rt, alloc)?;
    shadow.sort(Which::Key)?;
    shadow.build(Which::Key)?;
    shadow.sort(Which::Clus)?;
    shadow.build(Which::Clus)?;
    shadow.sort(Which::Cat)?;
    shadow.build(Which::Cat)?;
    Ok(shadow)
}

// The spots of a layout: the place of each row, its key and its `clus`.
fn spots_text(alloc: Global, side: &Side) -> Result<String, Fail> {
    let mut text = String::new(alloc);
    for spot in side.spots.as_slice() {
        let at = spot.place;
        let line = format!(in alloc; "{}.{} {} {}\n", at.page, at.slot, spot.key, spot.clus)?;
        text.push_str(line.as_str())?;
    }
    Ok(text)
}

#[test]
fn lays_out_its_rows(rt: HostRuntime) -> Result<(), Fail> {
    let alloc = rt.alloc();
    let mut shadow = built(&rt, alloc)?;
    let side = shadow.side()?;
    assert_eq!(rt; side.pages, 1);
    assert_eq!(rt;
        spots_text(alloc, &side)?.as_str(),
        "1.0 9 1\n1.1 4 2\n1.2 5 2\n"
    );
    let cluses = [(1, place(1, 0)), (2, place(1, 1)), (2, place(1, 2))];
    assert_eq!(rt; side.cluses.as_slice(), cluses.as_slice());
    Ok(())
}

// The page that is spelled at this position, read back.
fn read_back(rt: &impl Abort, alloc: Global, shadow: &mut Shadow, at: u64) -> Result<Page, Fail> {
    assert!(rt; 1 <= shadow.count());
    let mut bytes = [1; PAGE_SIZE];
    shadow.spell(1, Position(at), &mut bytes);
    Ok(Page::read(alloc, TableCopy::second(), 1, &bytes)?)
}

#[test]
fn spells_a_page_at_a_position(rt: HostRuntime) -> Result<(), Fail> {
    let alloc = rt.alloc();
    let mut shadow = indexed(&rt, alloc, Which::Key)?;
    for at in [77, 5] {
        let page = read_back(&rt, alloc, &mut shadow, at)?;
        assert_eq!(rt; page.position().0, at);
        assert_eq!(rt; page.slot_count(), 3);
        // 444 bytes for each row.
        assert_eq!(rt; page.free(), 2732);
    }
    // The indexes are as before.
    assert_eq!(rt;
        listed(alloc, &shadow, Which::Key)?.as_str(),
        "4 1.1 5 1.2 9 1.0 "
    );
    Ok(())
}
