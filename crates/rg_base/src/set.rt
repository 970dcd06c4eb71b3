/// The sets of a volume: the log, and the data sets of copy 1 and of copy 2 of the table.
#[derive(Clone, Copy, Debug, PartialEq, Eq)]
pub enum Set {
    Log,
    First,
    Second,
}
