/// The number of a transaction: a unit of work that has written. Numbers count from 1, and 0 is no
/// transaction's: records that belong to none have it, and dead areas of a shadow.
#[derive(Clone, Copy, Debug, PartialEq, Eq)]
pub struct Tran(pub u32);
