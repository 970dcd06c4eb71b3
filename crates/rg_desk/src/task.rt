// What a step of the utility goes by.
//
// 1. It is gathered once, when the step begins. Nothing of it changes until the step's entry is
//    made.
use rg_base::control::Answer;
use rg_base::copy::TableCopy;
use rg_base::session::Session;
use rg_feed::fold::item::Stage;

/// What a step of the utility that runs goes by.
#[derive(Clone, Copy, Debug, PartialEq, Eq)]
pub struct Task {
    /// How far the utility is.
    pub stage: Stage,
    /// What the operator has answered.
    pub answer: Answer,
    /// The changes since the utility started.
    pub changes: u64,
    /// The least session that is in the drain's way.
    pub holder: Option<Session>,
    /// The other copy of the table, which the new one is to be.
    pub copy: TableCopy,
    /// How many pages that copy may have.
    pub capacity: u32,
}
