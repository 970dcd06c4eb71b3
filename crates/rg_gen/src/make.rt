// The deck of a seed and a number of rows.
ghost use Rattle.std.specs.Prelude.{◌≡◌, ◌≤◌, ◌++◌, OnOk, IfOk, replicate};
ghost use Rattle.rg_base.specs.Text.{IsLetter};
ghost use Rattle.rg_stmt.specs.declared.line.Line.TheVariants as lines;
ghost use Rattle.rg_gen.specs.Deck.{deck_of, row_of, insert_lines, inserts, after_draws};
ghost use Rattle.rg_gen.specs.Deck.{round_lines, rounds, round_count, step_count};
ghost use Rattle.rg_gen.specs.Deck.{session as session_of};

use crate::draws::Draws;
use rg_base::no_memory::NoMemory;
use rg_base::row::Row;
use rg_base::session::Session;
use rg_base::text::Text;
use rg_opts::statement::default_options;
use rg_stmt::line::Line;
use rg_stmt::stmt::Stmt;
use std::alloc::Global;

/// The most rows that a deck may insert.
pub const ROWS_LIMIT: u32 = 20_000;

/// The deck of this seed, with so many inserts.
pub fn make(alloc: Global, seed: u64, rows: u32) -> Result<Vec<Line>, NoMemory>
    requires least { 1 ≤ rows }
    requires greatest { rows ≤ ROWS_LIMIT }
    ensures { IfOk result (λ deck. deck.items ≡ deck_of seed rows) }
{
    let mut deck = Vec::new(alloc);
    let mut draws = Draws { state: seed };
    push_inserts(alloc, &mut deck, &mut draws, rows)?;
    deck.push(Line::Reorg(default_options()))?;
    push_rounds(alloc, &mut deck, &mut draws, rows)?;
    push_steps(&mut deck, rows)?;
    deck.push(Line::Show)?;
    Ok(deck)
}

// The inserts, with their commits.
fn push_inserts(
    alloc: Global,
    deck: &mut Vec<Line>,
    draws: &mut Draws,
    rows: u32,
) -> Result<(), NoMemory>
    ensures deck { OnOk result
        (deck.new.items ≡ deck.old.items ++ inserts rows rows 1 draws.old.state) }
    ensures state { OnOk result (draws.new.state ≡ after_draws rows draws.old.state) }
{
    let mut key = 0;
    while key < rows {
        key += 1;
        let draw = draws.draw();
        push_insert(alloc, deck, rows, key, draw)?;
    }
    Ok(())
}

fn push_insert(
    alloc: Global,
    deck: &mut Vec<Line>,
    rows: u32,
    key: u32,
    draw: u64,
) -> Result<(), NoMemory>
    ensures { OnOk result (deck.new.items ≡ deck.old.items ++ insert_lines rows key draw) }
{
    let row = row_of(alloc, u64::from(key), draw, b'a')?;
    deck.push(said(1, Stmt::Insert(row)))?;
    if key % 100 == 0 || key == rows {
        deck.push(said(1, Stmt::Commit))?;
    }
    Ok(())
}

// The rounds beside the utility.
fn push_rounds(
    alloc: Global,
    deck: &mut Vec<Line>,
    draws: &mut Draws,
    rows: u32,
) -> Result<(), NoMemory>
    requires least { 1 ≤ rows }
    requires greatest { rows ≤ ROWS_LIMIT }
    ensures { OnOk result (deck.new.items
        ≡ deck.old.items ++ rounds rows (round_count rows) 1 draws.old.state) }
{
    let count = count_rounds(rows);
    let mut round = 0;
    while round < count {
        round += 1;
        let key = 1 + draws.draw() % u64::from(rows);
        let row = row_of(alloc, key, draws.draw(), b'b')?;
        push_round(deck, (2 + round % 4) as u8, row)?;
    }
    Ok(())
}

// The lines of a round, in which this session updates this row.
fn push_round(deck: &mut Vec<Line>, session: u8, row: Row) -> Result<(), NoMemory>
    ensures { OnOk result (deck.new.items ≡ deck.old.items ++ round_lines session row) }
{
    deck.push(said(session, Stmt::Update(row)))?;
    deck.push(said(session, Stmt::Commit))?;
    deck.push(Line::Step)?;
    Ok(())
}

// The steps after the rounds.
fn push_steps(deck: &mut Vec<Line>, rows: u32) -> Result<(), NoMemory>
    requires { rows ≤ ROWS_LIMIT }
    ensures { OnOk result
        (deck.new.items ≡ deck.old.items ++ replicate (step_count rows) lines.Step) }
{
    let mut left = count_rounds(rows).div_ceil(64) + 6;
    while left > 0 {
        deck.push(Line::Step)?;
        left -= 1;
    }
    Ok(())
}

fn count_rounds(rows: u32) -> u32
    requires { rows ≤ ROWS_LIMIT }
    ensures { result ≡ round_count rows }
{
    rows.div_ceil(41) + rows.div_ceil(39) + 6
}

fn said(session: u8, stmt: Stmt) -> Line
    ensures { result ≡ lines.Said (session_of session) stmt }
{
    Line::Said {
        session: Session(session),
        stmt,
    }
}

// A row with a drawn number, and 54 of a letter as its text.
fn row_of(alloc: Global, key: u64, draw: u64, letter: u8) -> Result<Row, NoMemory>
    requires { IsLetter letter }
    ensures { IfOk result (λ row. row ≡ row_of key draw letter) }
{
    Ok(Row {
        key,
        clus: draw % 1_000_000,
        cat: key % 10,
        text: Text::new(vec![in alloc; letter; 54]?),
    })
}
