/// The position of a record in the log, counted from 1. 0 stands for no record.
#[derive(Clone, Copy, Debug, PartialEq, Eq)]
pub struct Position(pub u64);
