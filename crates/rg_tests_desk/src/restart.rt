use rg_base::part::Parts;
use rg_base::place::Place;
use rg_base::position::Position;
use rg_base::row::Row;
use rg_base::text::Text;
use rg_base::tran::Tran;
use rg_record::record::{Kind, Record};
use rg_restart::stored::stored_rows;
use std::alloc::Global;
use std::process::Abort;
use std::test::Fail;

// A record of this transaction: a Change, by the keys of its rows before and after, or 0 for none;
// or a Commit, where both are 0.
type Step = (u32, u64, u64);

// The records, and of each row that they store the key that leads to it and its `clus`, which is
// the position of the record that made it.
type Case = (&'static [Step], &'static [(u64, u64)]);

fn row(alloc: Global, key: u64, clus: u64) -> Option<Row> {
    if key == 0 {
        return None;
    }
    Some(Row {
        key,
        clus,
        cat: 0,
        text: Text::new(Vec::new(alloc)),
    })
}

fn record(alloc: Global, position: u64, step: Step) -> Record {
    let (tran, before, after) = step;
    let kind = if before == 0 && after == 0 {
        Kind::Commit
    } else {
        Kind::Change {
            home: Place { page: 1, slot: 0 },
            before: row(alloc, before, 0),
            after: row(alloc, after, position),
            parts: Parts::new(Vec::new(alloc)),
        }
    };
    Record {
        position: Position(position),
        tran: Tran(tran),
        back: Position(0),
        kind,
    }
}

fn records_of(alloc: Global, steps: &[Step]) -> Result<Vec<Record>, Fail> {
    let mut records = Vec::new(alloc);
    let mut position: u64 = 0;
    for step in steps.iter().copied() {
        position = position.saturating_add(1);
        records.push(record(alloc, position, step))?;
    }
    Ok(records)
}

#[test]
fn stores_committed_rows(rt: HostRuntime) -> Result<(), Fail> {
    let cases: [Case; 8] = [
        (&[], &[]),
        (&[(1, 0, 5)], &[]),
        (&[(1, 0, 5), (1, 0, 0)], &[(5, 1)]),
        (&[(1, 0, 5), (2, 0, 6), (2, 0, 0)], &[(6, 2)]),
        (&[(1, 0, 5), (1, 0, 0), (2, 5, 0), (2, 0, 0)], &[]),
        (&[(1, 0, 5), (1, 0, 0), (2, 5, 5)], &[(5, 1)]),
        (&[(1, 0, 5), (1, 5, 5), (1, 0, 0)], &[(5, 2)]),
        // Both keys of a Change have its row after.
        (
            &[(1, 0, 5), (2, 5, 7), (2, 0, 0), (1, 0, 0)],
            &[(5, 2), (7, 2)],
        ),
    ];
    for (at, (steps, rows)) in cases.iter().copied().enumerate() {
        let records = records_of(rt.alloc(), steps)?;
        let table = stored_rows(rt.alloc(), records.as_slice())?;
        assert_eq!(rt; table.len(), rows.len(), "case {at}");
        for (key, clus) in rows.iter().copied() {
            let found = table.get(key).map_or(0, |row| row.clus);
            assert_eq!(rt; found, clus, "case {at}, key {key}");
        }
    }
    Ok(())
}
