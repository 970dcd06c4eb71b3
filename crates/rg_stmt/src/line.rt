use crate::stmt::Stmt;
use rg_base::options::Options;
use rg_base::session::Session;

/// A line of a deck.
#[derive(Debug, Drop)]
pub enum Line {
    /// One statement of a session.
    Said { session: Session, stmt: Stmt },
    /// The control statement of the utility.
    Reorg(Options),
    /// One step of the utility.
    Step,
    /// One flush.
    Flush,
    /// The layout.
    Show,
    /// Process death, and a new opening.
    Death,
}
