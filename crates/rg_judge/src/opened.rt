// An opening: what it may find.
// (1) Process death keeps the committed rows. A COMMIT in doubt may be in: then there are two
//     tables.
// (2) The other copy may be current where the switch is in doubt.
// (3) It finds as many rows as the table has.
ghost use Rattle.std.specs.Prelude.{◌≡◌, ◌++◌, ◌==◌, IfOk, None, Some, if◌then◌else◌};
ghost use Rattle.std.specs.Option.{option_map};
ghost use Rattle.rg_judge.specs.StateOf.{state_of};
ghost use Rattle.rg_model.specs.Committed.{committed_table, committed_table_with};
ghost use Rattle.rg_model.specs.Possible.{is_copy_left, one_state, states_opened};
ghost use Rattle.rg_model.specs.State.{at_rest, row_count};

use crate::possibility::Possibility;
use crate::table::cat_table::CatTable;
use crate::table::locked_rows::LockedRows;
use crate::walk::{put_back, put_back_others};
use rg_base::copy::TableCopy;
use rg_base::no_memory::NoMemory;
use rg_base::session::Session;
use rg_claim::claims::Claims;
use rg_model::plain::walks::copy_table;
use std::alloc::Global;

/// A table and a copy that nobody uses.
pub fn rest(alloc: Global, table: CatTable, copy: TableCopy) -> Result<Possibility, NoMemory>
    ensures { IfOk result (λ st. state_of st ≡ at_rest table copy) }
{
    Ok(Possibility {
        rows: LockedRows::new(alloc, table)?,
        claims: Claims::new(alloc)?,
        utility: None,
        copy,
        down: false,
        doubt: None,
        copydoubt: false,
    })
}

fn is_copy_left(st: &Possibility, copy: TableCopy) -> bool
    ensures { result ≡ is_copy_left (state_of st.now) copy }
{
    copy == st.copy || (st.copydoubt && copy == st.copy.other())
}

// The state that a table leaves, where it has as many rows.
fn rest_with(
    alloc: Global,
    table: CatTable,
    copy: TableCopy,
    rows: u64,
) -> Result<Option<Possibility>, NoMemory>
    ensures { IfOk result (λ st. option_map state_of st
        ≡ (if row_count table == rows then Some (at_rest table copy) else None)) }
{
    if table.rows().len() as u64 == rows {
        return Ok(Some(rest(alloc, table, copy)?));
    }
    Ok(None)
}

// The committed rows.
fn committed(alloc: Global, st: Possibility) -> Result<CatTable, NoMemory>
    ensures { IfOk result (λ table. table ≡ committed_table (state_of st)) }
{
    let Possibility {
        rows,
        claims: _,
        utility: _,
        copy: _,
        down: _,
        doubt: _,
        copydoubt: _,
    } = st;
    let (table, locks) = rows.into_parts();
    put_back(alloc, table, locks.as_map())
}

// The committed rows, with what a session wrote.
fn committed_with(alloc: Global, st: &Possibility, session: Session) -> Result<CatTable, NoMemory>
    ensures { IfOk result (λ table. table ≡ committed_table_with (state_of st.now) session) }
{
    let table = CatTable::new(alloc, copy_table(alloc, st.rows.table().rows())?)?;
    put_back_others(alloc, table, st.rows.locks().as_map(), session)
}

/// The states that an opening allows: one for each table that it may find.
pub fn judge_opened(
    alloc: Global,
    st: Possibility,
    copy: TableCopy,
    rows: u64,
) -> Result<(Option<Possibility>, Option<Possibility>), NoMemory>
    ensures { IfOk result (λ two.
        (one_state (option_map state_of two.0) ++ one_state (option_map state_of two.1))
        ≡ states_opened (state_of st) copy rows) }
{
    if !is_copy_left(&st, copy) {
        return Ok((None, None));
    }
    match st.doubt {
        None => {
            let table = committed(alloc, st)?;
            Ok((rest_with(alloc, table, copy, rows)?, None))
        }
        Some(session) => {
            let with = committed_with(alloc, &st, session)?;
            let table = committed(alloc, st)?;
            let first = rest_with(alloc, table, copy, rows)?;
            Ok((first, rest_with(alloc, with, copy, rows)?))
        }
    }
}
