// How a table was opened.
//
// 1. It stays as it was then: the log grows, and a switch makes another copy current.
use rg_base::copy::TableCopy;

/// With how many records of the log, and of which copy, a table was opened.
#[derive(Clone, Copy, Debug, PartialEq, Eq)]
pub struct Origin {
    pub records: usize,
    pub copy: TableCopy,
}
