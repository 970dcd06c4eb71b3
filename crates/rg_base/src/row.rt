ghost use Rattle.std.specs.Prelude.{◌≡◌, IfOk};
ghost use Rattle.std.specs.Option.{option_copied};

use crate::no_memory::NoMemory;
use crate::text::Text;
use std::alloc::Global;

/// A row of the table. `key` is its unique key, `clus` the value that clusters it, `cat` the value
/// of its third index.
#[derive(Debug, Drop)]
pub struct Row {
    pub key: u64,
    pub clus: u64,
    pub cat: u64,
    pub text: Text,
}

impl Row {
    /// An equal row. It takes memory for its text.
    pub fn copy(&self, alloc: Global) -> Result<Row, NoMemory>
        ensures { IfOk result (λ row. row ≡ self.now) }
    {
        Ok(Row {
            key: self.key,
            clus: self.clus,
            cat: self.cat,
            text: self.text.copy(alloc)?,
        })
    }
}

/// An equal row, if there is one.
pub fn copy_row(alloc: Global, row: Option<&Row>) -> Result<Option<Row>, NoMemory>
    ensures { IfOk result (λ copy. copy ≡ option_copied row.entry) }
{
    match row {
        None => Ok(None),
        Some(row) => Ok(Some(row.copy(alloc)?)),
    }
}
