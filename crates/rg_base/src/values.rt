/// The values that indexes list of a row: all of it but its text.
#[derive(Clone, Copy, Debug, PartialEq, Eq)]
pub struct Values {
    pub key: u64,
    pub clus: u64,
    pub cat: u64,
}
