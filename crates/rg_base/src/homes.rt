ghost use Rattle.std.specs.Prelude.{◌≡◌};

use crate::place::Place;
use crate::row::Row;
use std::marker::Model;

/// Rows with the places of their homes, seen as a list.
#[derive(Debug, Drop)]
pub struct Homes {
    rows: Vec<(Place, Row)>,
}

impl Model for Homes {
    ghost use Rattle.std.specs.Prelude.{List};
    ghost use Rattle.rg_base.specs.declared.place.Place.{Place};
    ghost use Rattle.rg_base.specs.declared.row.Row.{Row};

    ghost Value = { List (Place × Row) };

    ghost view = { λ h. h.rows.items };
}

impl Homes {
    pub fn new(rows: Vec<(Place, Row)>) -> Homes
        ensures { result ≡ rows.items }
    {
        Homes { rows }
    }

    pub fn as_slice(&self) -> &[(Place, Row)]
        ensures { result.now ≡ self.now }
    {
        self.rows.as_slice()
    }

    /// The same rows, without memory.
    pub fn into_vec(self) -> Vec<(Place, Row)>
        ensures { result.items ≡ self }
    {
        let Homes { rows } = self;
        rows
    }
}
