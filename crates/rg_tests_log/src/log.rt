ghost use Rattle.std.specs.Prelude.{◌≡◌, ◌≤◌};
ghost use Rattle.rg_mem.specs.Shown.{capacities_of};

use rg_base::no_memory::NoMemory;
use rg_base::part::{Part, Parts, SlotOp};
use rg_base::place::Place;
use rg_base::position::Position;
use rg_base::row::Row;
use rg_base::set::Set;
use rg_base::text::Text;
use rg_base::tran::Tran;
use rg_image::sizes::size_of;
use rg_log::entries::read_page;
use rg_log::fault::{LogFault, ReserveFault};
use rg_log::log::Log;
use rg_log::open::open_log;
use rg_mem::volume::{Failing, MemVolume};
use rg_outside::volume::Volume;
use rg_record::buffer::PAGE_SIZE;
use rg_record::record::{Kind, Record};
use std::alloc::Global;
use std::process::Abort;
use std::test::Fail;

// Log page 1 after the first session, an insert and its commit, up to the zeros.
const FIRST: [u8; 119] = [
    82, 71, 76, 49, 0, 0, 0, 1, 0, 0, 0, 0, 0, 0, 0, 1, 0, 2, 0, 95, 0, 0, 0, 0, 0, 70, 0, 0, 0, 0,
    0, 0, 0, 1, 0, 0, 0, 1, 0, 0, 0, 0, 0, 0, 0, 0, 1, 0, 0, 0, 1, 0, 0, 0, 0, 0, 29, 0, 0, 0, 0,
    0, 0, 0, 5, 0, 0, 0, 0, 0, 0, 0, 50, 0, 0, 0, 0, 0, 0, 0, 1, 0, 3, 97, 98, 99, 1, 0, 0, 0, 1,
    0, 0, 1, 0, 29, 0, 21, 0, 0, 0, 0, 0, 0, 0, 2, 0, 0, 0, 1, 0, 0, 0, 0, 0, 0, 0, 1, 3,
];

const HOME: Place = Place { page: 1, slot: 0 };

fn row(alloc: Global) -> Result<Option<Row>, NoMemory> {
    Ok(Some(Row {
        key: 5,
        clus: 50,
        cat: 1,
        text: Text::new(b"abc".to_vec(alloc)?),
    }))
}

fn parts(alloc: Global, op: SlotOp) -> Result<Parts, NoMemory> {
    let part = Part {
        page: 1,
        slot: 0,
        op,
    };
    Ok(Parts::new([part].to_vec(alloc)?))
}

// An insert of the row, the first record of its transaction.
fn insert_at(alloc: Global, position: u64, tran: u32) -> Result<Record, NoMemory> {
    Ok(Record {
        position: Position(position),
        tran: Tran(tran),
        back: Position(0),
        kind: Kind::Change {
            home: HOME,
            before: None,
            after: row(alloc)?,
            parts: parts(alloc, SlotOp::Row { capacity: 29 })?,
        },
    })
}

fn insert(alloc: Global) -> Result<Record, NoMemory> {
    insert_at(alloc, 1, 1)
}

fn commit(position: u64) -> Record {
    Record {
        position: Position(position),
        tran: Tran(1),
        back: Position(1),
        kind: Kind::Commit,
    }
}

// Reserves the bytes of the record, and appends it.
fn add(rt: &impl Abort, log: &mut Log, entry: Record) -> Result<(), Fail>
    ensures { log.new.pages ≡ log.old.pages }
{
    entry.fits();
    assert!(rt; entry.is_spelled());
    let size = size_of(&entry);
    assert!(rt; log.reserve(size).is_ok());
    let last = log.last();
    assert!(rt; last.0 < 1000 && entry.position.0 == last.0 + 1);
    let position = log.append(entry);
    assert_eq!(rt; position, log.last());
    Ok(())
}

// The page of these bytes and zeros.
fn page_of(bytes: &[u8]) -> [u8; PAGE_SIZE] {
    let mut page = [0; PAGE_SIZE];
    for (into, byte) in page.iter_mut().zip(bytes) {
        *into = *byte;
    }
    page
}

#[test]
fn appends_what_is_reserved(rt: HostRuntime) -> Result<(), Fail> {
    let mut log = Log::empty(rt.alloc(), 3);
    assert_eq!(rt; (log.used(), log.reserved(), log.limit()), (0, 0, 4540));
    assert_eq!(rt; (log.last(), log.forced()), (Position(0), Position(0)));
    add(&rt, &mut log, insert(rt.alloc())?)?;
    add(&rt, &mut log, commit(2))?;
    assert_eq!(rt; (log.used(), log.reserved()), (95, 0));
    assert_eq!(rt; (log.last(), log.forced()), (Position(2), Position(0)));
    // (what is asked for, what is left where it is too much)
    for (bytes, full) in [
        (4446, Some(4445)),
        (4000, None),
        (446, Some(445)),
        (445, None),
        (1, Some(0)),
    ] {
        let found = match log.reserve(bytes) {
            Ok(()) => None,
            Err(ReserveFault::LogFull { need, left }) => Some((need, left)),
            Err(ReserveFault::NoMemory) => return Err(Fail::from(NoMemory)),
        };
        assert_eq!(rt; found, full.map(|left| (bytes, left)), "{bytes}");
    }
    Ok(())
}

#[test]
fn reserves_up_to_the_limit(rt: HostRuntime) -> Result<(), Fail> {
    for (pages, limit) in [(0, 0), (1, 0), (2, 2270), (3, 4540)] {
        let mut log = Log::empty(rt.alloc(), pages);
        assert_eq!(rt; log.limit(), limit);
        match log.reserve(limit + 1) {
            Err(ReserveFault::LogFull { need, left }) => {
                assert_eq!(rt; (need, left), (limit + 1, limit), "of {pages}");
            }
            _ => return Err(Fail::from(NoMemory)),
        }
        assert!(rt; log.reserve(limit).is_ok(), "of {pages}");
        assert_eq!(rt; log.reserved(), limit);
        log.give_back(limit);
        assert_eq!(rt; log.reserved(), 0);
    }
    Ok(())
}

// One byte of the page replaced, by its number.
#[test]
fn refuses_wrong_pages(rt: HostRuntime) -> Result<(), Fail> {
    for (what, at, byte) in [
        ("another word", 3, 50),
        ("another page", 7, 2),
        ("another first position", 15, 2),
        ("a record less", 17, 1),
        ("a record more", 17, 3),
        ("no record", 17, 0),
        ("a byte less", 19, 94),
        ("a byte in the header", 23, 1),
        ("a byte after the records", 119, 1),
        ("a byte at the end", 4095, 1),
    ] {
        let mut page = page_of(&FIRST);
        page[at] = byte;
        assert!(rt; read_page(rt.alloc(), &page, 1)?.is_none(), "{what}");
    }
    assert!(rt; read_page(rt.alloc(), &page_of(&FIRST), 2)?.is_none());
    Ok(())
}

// A log of 24 pages and its volume.
#[derive(Drop)]
struct Held {
    log: Log,
    volume: MemVolume,
    ghost pages: { log.pages ≡ 24 },
    ghost capacity: { (capacities_of volume).log ≡ 24 },
}

impl Held {
    fn new(alloc: Global, failing: &[Failing], stop: Option<u64>) -> Result<Held, NoMemory> {
        Ok(Held {
            log: Log::empty(alloc, 24),
            volume: MemVolume::new(alloc, 24, 0, 0, 1000, 500, failing, stop)?,
        })
    }

    // The log that a crash leaves, opened.
    fn crashed(&self, alloc: Global, pick: u64) -> Result<Held, LogFault> {
        let mut volume = match self.volume.crash(pick) {
            Ok(volume) => volume,
            Err(_) => return Err(LogFault::NoMemory),
        };
        let log = open_log(alloc, &mut volume)?;
        Ok(Held { log, volume })
    }

    fn force(&mut self) -> bool {
        self.log.force(&mut self.volume).is_ok()
    }

    // Adds the record, and forces the log where this is wanted.
    fn add(&mut self, rt: &impl Abort, entry: Record, forces: bool) -> Result<(), Fail> {
        add(rt, &mut self.log, entry)?;
        if forces {
            self.force();
        }
        Ok(())
    }

    // Adds commits from this position up to the last, and forces the log after each piece of them.
    fn add_commits(
        &mut self,
        rt: &impl Abort,
        from: u64,
        last: u64,
        piece: u64,
    ) -> Result<(), Fail> {
        assert!(rt; piece != 0);
        for position in from..=last {
            self.add(rt, commit(position), position % piece == 0)?;
        }
        Ok(())
    }

    // The bytes of a log page.
    fn page(&mut self, page: u32) -> Option<[u8; PAGE_SIZE]>
        requires low { 1 ≤ page }
        requires high { page ≤ 24 }
    {
        let mut bytes = [1; PAGE_SIZE];
        match self.volume.read(Set::Log, page, &mut bytes) {
            Ok(()) => Some(bytes),
            Err(_) => None,
        }
    }

    // Writes a log page over.
    fn put(&mut self, page: u32, bytes: &[u8; PAGE_SIZE]) -> bool
        requires low { 1 ≤ page }
        requires high { page ≤ 24 }
    {
        self.volume.write(Set::Log, page, bytes).is_ok()
    }

    // The records are commits, from this position on.
    fn has_commits(&self, rt: &impl Abort, alloc: Global, from: u64) -> Result<(), Fail> {
        for n in 0..self.log.last().0 {
            let entry = self.log.read_at(alloc, Position(n + 1))?;
            assert_eq!(rt; entry.position, Position(n + 1));
            assert_eq!(rt; matches!(entry.kind, Kind::Commit), n + 1 >= from);
        }
        Ok(())
    }
}

// The page of a log that cannot be opened.
fn damaged_page(opened: Result<Held, LogFault>) -> Option<u32> {
    match opened {
        Err(LogFault::Damaged { page }) => Some(page),
        _ => None,
    }
}

#[test]
fn forces_first_session(rt: HostRuntime) -> Result<(), Fail> {
    for failing in [None, Some((1, false)), Some((1, true)), Some((2, false))] {
        let failings = match failing {
            None => Vec::new(rt.alloc()),
            Some((call, written)) => [Failing { call, written }].to_vec(rt.alloc())?,
        };
        let mut held = Held::new(rt.alloc(), failings.as_slice(), None)?;
        held.add(&rt, insert(rt.alloc())?, false)?;
        held.add(&rt, commit(2), false)?;
        if failing.is_some() {
            assert!(rt; !held.force(), "{failing:?}");
            assert_eq!(rt; held.log.forced(), Position(0), "{failing:?}");
        }
        assert!(rt; held.force(), "{failing:?}");
        assert_eq!(rt; held.log.forced(), Position(2), "{failing:?}");
        for pick in 0..8 {
            let mut left = held.crashed(rt.alloc(), pick)?;
            assert!(rt; left.page(1) == Some(page_of(&FIRST)), "{failing:?}");
            assert!(rt; left.page(2) == Some([0; PAGE_SIZE]), "{failing:?}");
            assert_eq!(rt; left.log.forced(), Position(2), "{failing:?}");
            assert_eq!(rt; left.log.used(), 95, "{failing:?}");
        }
    }
    Ok(())
}

#[test]
fn names_damaged_pages(rt: HostRuntime) -> Result<(), Fail> {
    for (page, at, byte) in [
        (1, 3, 50),
        (1, 25, 20),
        (1, 46, 9),
        (2, 7, 3),
        (2, 15, 177),
        (2, 17, 176),
        (3, 19, 0),
        (3, 4095, 1),
        (4, 0, 82),
    ] {
        let mut held = Held::new(rt.alloc(), &[], None)?;
        held.add_commits(&rt, 1, 400, 400)?;
        let mut bytes = held.page(page).ok_or("a page")?;
        assert!(rt; bytes[at] != byte, "{page}, {at}");
        bytes[at] = byte;
        assert!(rt; held.put(page, &bytes));
        assert!(rt; held.volume.sync().is_ok());
        let found = damaged_page(held.crashed(rt.alloc(), 0));
        assert_eq!(rt; found, Some(page), "{page}, {at}");
    }
    Ok(())
}

// After an insert 173 commits fit the first page, and the next one begins at 175. The first 174
// commits leave room for one more.
#[test]
fn names_page_after_short_one(rt: HostRuntime) -> Result<(), Fail> {
    let mut held = Held::new(rt.alloc(), &[], None)?;
    held.add(&rt, insert(rt.alloc())?, false)?;
    held.add_commits(&rt, 2, 200, 200)?;
    let opened = held.crashed(rt.alloc(), 0)?;
    assert_eq!(rt; opened.log.last(), Position(200));
    opened.has_commits(&rt, rt.alloc(), 2)?;
    let mut short = Held::new(rt.alloc(), &[], None)?;
    short.add_commits(&rt, 1, 174, 174)?;
    let bytes = short.page(1).ok_or("a page")?;
    assert!(rt; held.put(1, &bytes));
    assert!(rt; held.volume.sync().is_ok());
    assert_eq!(rt; damaged_page(held.crashed(rt.alloc(), 0)), Some(2));
    Ok(())
}
