ghost use Rattle.std.specs.Prelude.{◌≡◌};

use rg_base::row::Row;
use std::marker::Model;

/// Rows, seen as a list.
#[derive(Debug, Drop)]
pub struct Rows {
    rows: Vec<Row>,
}

impl Model for Rows {
    ghost use Rattle.std.specs.Prelude.{List};
    ghost use Rattle.rg_base.specs.declared.row.Row.{Row};

    ghost Value = { List Row };

    ghost view = { λ r. r.rows.items };
}

impl Rows {
    pub fn new(rows: Vec<Row>) -> Rows
        ensures { result ≡ rows.items }
    {
        Rows { rows }
    }

    pub fn as_slice(&self) -> &[Row]
        ensures { result.now ≡ self.now }
    {
        self.rows.as_slice()
    }

    /// The same rows, without memory.
    pub fn into_vec(self) -> Vec<Row>
        ensures { result.items ≡ self }
    {
        let Rows { rows } = self;
        rows
    }
}

/// Keys of rows, seen as a list.
#[derive(Debug, Drop)]
pub struct Keys {
    keys: Vec<u64>,
}

impl Model for Keys {
    ghost use Rattle.std.specs.Prelude.{List, ℕ};

    ghost Value = { List ℕ };

    ghost view = { λ k. k.keys.items };
}

impl Keys {
    pub fn new(keys: Vec<u64>) -> Keys
        ensures { result ≡ keys.items }
    {
        Keys { keys }
    }

    pub fn as_slice(&self) -> &[u64]
        ensures { result.now ≡ self.now }
    {
        self.keys.as_slice()
    }

    /// The same keys, without memory.
    pub fn into_vec(self) -> Vec<u64>
        ensures { result.items ≡ self }
    {
        let Keys { keys } = self;
        keys
    }
}
