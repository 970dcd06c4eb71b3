ghost use Rattle.std.specs.Prelude.{◌≤◌, IfOk, length};
ghost use Rattle.rg_feed.specs.Fold.Lawful.{AreApart};

use rg_base::control::{Deadline, Longlog, Maxro};
use rg_base::copy::TableCopy;
use rg_base::homes::Homes;
use rg_base::no_memory::NoMemory;
use rg_base::options::{DrainFor, Options};
use rg_base::place::Place;
use rg_base::row::Row;
use rg_base::text::Text;
use rg_reload::fault::ReloadFault;
use rg_reload::packer::Packer;
use std::alloc::Global;
use std::process::Abort;
use std::test::Fail;

// A row of 426 bytes, which takes 444 of its page.
fn long_row(alloc: Global, clus: u64, key: u64) -> Result<Row, NoMemory> {
    Ok(Row {
        key,
        clus,
        cat: 5,
        text: Text::new(vec![in alloc; b'a'; 400]?),
    })
}

// Rows of these `clus` and keys, in the slots of page 1.
fn rows_of(alloc: Global, briefs: &[(u64, u64)]) -> Result<Homes, NoMemory>
    requires { length briefs.now ≤ 225 }
    ensures { IfOk result AreApart }
{
    let mut rows = Vec::new(alloc);
    let mut slot = 0;
    for (clus, key) in briefs {
        let place = Place { page: 1, slot };
        rows.push((place, long_row(alloc, *clus, *key)?))?;
        slot += 1;
    }
    Ok(Homes::new(rows))
}

fn options_of(pctfree: u8, freepage: u8) -> Options {
    Options {
        maxro: Maxro::Defer,
        longlog: Longlog::Continue,
        delay: 0,
        deadline: Deadline::Never,
        drain: DrainFor::Writers,
        wait: 0,
        retry: 0,
        pause: 0,
        pctfree,
        freepage,
    }
}

// The numbers of the pages that are filled, each with how many rows it takes, up to NoSpace or the
// last row.
fn filled_text(alloc: Global, packer: &mut Packer) -> Result<String, Fail> {
    let mut text = String::new(alloc);
    for _i in 0..100 {
        match packer.next_page() {
            Ok(Some(filled)) => {
                let entry = format!(in alloc; "{}:{} ", filled.page, filled.rows)?;
                text.push_str(entry.as_str())?;
            }
            Ok(None) => return Ok(text),
            Err(ReloadFault::NoSpace { pages }) => {
                let entry = format!(in alloc; "NOSPACE {pages}")?;
                text.push_str(entry.as_str())?;
                return Ok(text);
            }
            Err(ReloadFault::NoMemory) => return Err(NoMemory.into()),
        }
    }
    Ok(text)
}

// What a packer of these rows fills.
fn packed_text(
    alloc: Global,
    briefs: &[(u64, u64)],
    options: &Options,
    capacity: u32,
) -> Result<String, Fail>
    requires { length briefs.now ≤ 225 }
{
    let rows = rows_of(alloc, briefs)?;
    let mut packer = Packer::new(alloc, TableCopy::second(), rows, options, capacity)?;
    filled_text(alloc, &mut packer)
}

#[test]
fn fills_pages_as_options_say(rt: HostRuntime) -> Result<(), Fail> {
    let alloc = rt.alloc();
    // PCTFREE, FREEPAGE, the capacity, and what 20 rows fill. Of a page's 4,064 bytes nine rows
    // leave 68 free and eight 512, of which PCTFREE 5 asks 203.
    let table = [
        (0, 0, 3, "1:9 2:9 3:2 "),
        (0, 1, 6, "1:9 3:9 5:2 "),
        (0, 2, 4, "1:9 2:9 4:2 "),
        (0, 3, 4, "1:9 2:9 3:2 "),
        (5, 0, 3, "1:8 2:8 3:4 "),
        (5, 1, 6, "1:8 3:8 5:4 "),
        (5, 2, 4, "1:8 2:8 4:4 "),
        (5, 3, 4, "1:8 2:8 3:4 "),
        (50, 0, 5, "1:4 2:4 3:4 4:4 5:4 "),
        (50, 1, 10, "1:4 3:4 5:4 7:4 9:4 "),
        (50, 2, 7, "1:4 2:4 4:4 5:4 7:4 "),
        (50, 3, 6, "1:4 2:4 3:4 5:4 6:4 "),
        (99, 0, 4, "1:1 2:1 3:1 4:1 NOSPACE 4"),
        (99, 1, 4, "1:1 3:1 NOSPACE 4"),
        (99, 2, 4, "1:1 2:1 4:1 NOSPACE 4"),
        (99, 3, 4, "1:1 2:1 3:1 NOSPACE 4"),
        // The empty page due at the very end is above the capacity.
        (0, 3, 3, "1:9 2:9 NOSPACE 3"),
        (0, 1, 5, "1:9 3:9 NOSPACE 5"),
    ];
    for (pctfree, freepage, capacity, want) in table {
        let got = packed_text(
            alloc,
            &[(1, 7); 20],
            &options_of(pctfree, freepage),
            capacity,
        )?;
        assert_eq!(rt; got.as_str(), want);
    }
    Ok(())
}

// How many pages there are, and the old and new place of each row.
fn pairs_text(
    rt: &impl Abort,
    alloc: Global,
    briefs: &[(u64, u64)],
    options: &Options,
) -> Result<String, Fail>
    requires { length briefs.now ≤ 225 }
{
    let rows = rows_of(alloc, briefs)?;
    let mut packer = Packer::new(alloc, TableCopy::second(), rows, options, 9)?;
    filled_text(alloc, &mut packer)?;
    match packer.next_page() {
        Ok(None) => {}
        _ => assert!(rt; false),
    }
    let (space, pairs) = packer.finish();
    let mut text = format!(in alloc; "{} pages", space.count())?;
    for (old, new) in pairs.as_slice() {
        let entry = format!(in alloc; ", {} to {}.{}", old.slot, new.page, new.slot)?;
        text.push_str(entry.as_str())?;
    }
    Ok(text)
}

#[test]
fn packs_rows_in_order(rt: HostRuntime) -> Result<(), Fail> {
    let alloc = rt.alloc();
    let options = options_of(50, 1);
    // By clus, then key, then old place.
    let briefs = [(2, 5), (1, 9), (2, 4), (1, 8), (1, 8), (3, 1)];
    let want = "4 pages, 3 to 1.0, 4 to 1.1, 1 to 1.2, 2 to 1.3, 0 to 3.0, 5 to 3.1";
    let got = pairs_text(&rt, alloc, &briefs, &options)?;
    assert_eq!(rt; got.as_str(), want);
    let got = pairs_text(&rt, alloc, &[], &options)?;
    assert_eq!(rt; got.as_str(), "0 pages");
    Ok(())
}
