use crate::map::NumberMap;
use crate::row::Row;

/// A table: the row of each key. It is seen as a finite map from key to row.
pub type Table = NumberMap<Row>;
