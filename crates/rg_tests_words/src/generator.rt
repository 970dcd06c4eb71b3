use rg_base::copy::TableCopy;
use rg_base::place::Place;
use rg_base::session::Session;
use rg_gen::make::make;
use rg_gen::summary::summary;
use rg_stmt::event::{Actor, Entry, Event};
use rg_stmt::layout::{Listing, Side, Spot, Spots};
use rg_stmt::line::Line;
use rg_stmt::stmt::{Reply, Stmt};
use std::alloc::{AllocError, Global};
use std::test::Fail;

// The session of a write, and its row's numbers.
type Write = (u8, u64, u64, u64);

fn write_of(line: &Line) -> Option<Write> {
    match line {
        Line::Said {
            session,
            stmt: Stmt::Insert(row) | Stmt::Update(row),
        } => Some((session.0, row.key, row.clus, row.cat)),
        _ => None,
    }
}

// The values were worked out by a program of their own.
#[test]
fn makes_decks(rt: HostRuntime) -> Result<(), Fail> {
    for (seed, rows, lines, first, reorg, update, last) in [
        (
            0,
            1,
            35,
            (1, 1, 951_807, 1),
            2,
            (3, 1, 921_937, 1),
            (2, 1, 140_745, 1),
        ),
        (
            7,
            100,
            146,
            (1, 1, 165_278, 1),
            101,
            (3, 17, 340_406, 7),
            (2, 99, 929_950, 9),
        ),
        (
            u64::MAX,
            101,
            148,
            (1, 1, 552_488, 1),
            103,
            (3, 23, 955_526, 3),
            (2, 31, 168_612, 1),
        ),
    ] {
        let deck = make(rt.alloc(), seed, rows)?;
        assert_eq!(rt; deck.len(), lines, "at {seed}");
        assert_eq!(rt; write_of(&deck[0]), Some(first), "at {seed}");
        assert!(rt; matches!(deck[reorg], Line::Reorg(_)));
        assert_eq!(rt; write_of(&deck[reorg + 1]), Some(update), "at {seed}");
        // The last round stands before seven steps and the layout.
        assert_eq!(rt; write_of(&deck[lines - 11]), Some(last), "at {seed}");
        assert!(rt; matches!(deck[lines - 1], Line::Show));
    }
    Ok(())
}

#[test]
fn makes_the_greatest_deck(rt: HostRuntime) -> Result<(), Fail> {
    let deck = make(rt.alloc(), 0, 20_000)?;
    assert_eq!(rt; deck.len(), 23_245);
    assert_eq!(rt; write_of(&deck[20_201]), Some((3, 12_956, 591_291, 6)));
    Ok(())
}

fn side(alloc: Global, pages: u32) -> Result<Side, AllocError> {
    let home = Place { page: 1, slot: 0 };
    let over = Place { page: 2, slot: 0 };
    let mut spots = Vec::new(alloc);
    for over in [None, Some(over), None] {
        spots.push(Spot {
            place: home,
            key: 1,
            clus: 1,
            over,
        })?;
    }
    Ok(Side {
        pages,
        spots: Spots::new(spots),
        keys: Listing::new(Vec::new(alloc)),
        cluses: Listing::new(Vec::new(alloc)),
        cats: Listing::new(Vec::new(alloc)),
    })
}

fn entry(actor: Actor, event: Event) -> Entry {
    Entry {
        actor,
        event,
        answer: None,
        calls: 0,
    }
}

#[test]
fn sums_up(rt: HostRuntime) -> Result<(), Fail> {
    let alloc = rt.alloc();
    let mut trace = Vec::new(alloc);
    trace.push(Entry::opened(TableCopy::first(), 0, 0, 0, 0))?;
    let text = summary(alloc, 7, 2, &trace, true)?;
    assert_eq!(rt;
        text.as_slice(),
        b"GEN seed=7 rows=2 entries=1 ok=0 refused=0 copy=0 pages=0 over=0 legal=yes\n".as_slice()
    );
    for reply in [
        Reply::Done,
        Reply::Absent,
        Reply::Held(Session(2)),
        Reply::Done,
        Reply::Done,
    ] {
        trace.push(Entry::said(Session(1), Stmt::Delete(1), reply, 0))?;
    }
    for (copy, pages) in [(TableCopy::first(), 4), (TableCopy::second(), 5)] {
        let side = side(alloc, pages)?;
        trace.push(entry(Actor::System, Event::Layout { copy, side }))?;
    }
    trace.push(entry(Actor::System, Event::LayoutDown))?;
    let text = summary(alloc, u64::MAX, 20_000, &trace, false)?;
    assert_eq!(rt;
        text.as_slice(),
        b"GEN seed=18446744073709551615 rows=20000 entries=9 ok=3 refused=2 \
            copy=2 pages=5 over=1 legal=no\n"
            .as_slice()
    );
    Ok(())
}
