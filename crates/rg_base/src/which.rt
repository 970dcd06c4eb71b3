/// The indexes of the table: over its rows' `key`, `clus` and `cat`.
#[derive(Clone, Copy, Debug, PartialEq, Eq)]
pub enum Which {
    Key,
    Clus,
    Cat,
}
