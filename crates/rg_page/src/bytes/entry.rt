use rg_base::part::SlotOp;
use rg_base::row::Row;
use rg_base::tran::Tran;

/// A slot that was read: the operation that makes it, the transaction that it names or 0, and its
/// row, if it has one.
#[derive(Debug, Drop)]
pub struct Entry {
    pub op: SlotOp,
    pub owner: Tran,
    pub row: Option<Row>,
}

/// What the head of a page says.
#[derive(Clone, Copy, Debug)]
pub struct Head {
    pub copy: u8,
    /// The number of slots.
    pub count: u16,
    pub number: u32,
    pub position: u64,
}
