use rg_base::part::Parts;
use rg_base::place::Place;
use rg_base::position::Position;
use rg_base::row::Row;
use rg_base::tran::Tran;

/// One record of the log. `back` is the position of the transaction's record before it, or 0.
#[derive(Debug, Drop)]
pub struct Record {
    pub position: Position,
    pub tran: Tran,
    pub back: Position,
    pub kind: Kind,
}

/// What a record says.
#[derive(Debug, Drop)]
pub enum Kind {
    /// A write: the row whose home this is was `before` and is `after`.
    Change {
        home: Place,
        before: Option<Row>,
        after: Option<Row>,
        parts: Parts,
    },
    /// A Change is undone: the row is `after` again. `next` is the back of that Change.
    Undo {
        next: Position,
        home: Place,
        after: Option<Row>,
        parts: Parts,
    },
    /// The transaction ends, and what it wrote stays.
    Commit,
    /// The transaction ends, and all that it wrote is undone.
    RolledBack,
    /// Dead areas of ended transactions are freed on one page.
    Purge {
        parts: Parts,
    },
    /// From here on the table is in this copy, which has this many pages.
    Switch {
        copy: u8,
        pages: u32,
    },
}
