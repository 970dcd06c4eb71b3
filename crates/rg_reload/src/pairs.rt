// Old places with new ones.
//
// 1. A packer adds each row once, so both places of a pair are in no other pair.
ghost use Rattle.std.specs.Prelude.{◌≡◌};

use rg_base::place::Place;
use std::marker::Model;

/// Places of rows in the old copy, each with the row's place in the new one. They are seen as a
/// list.
#[derive(Debug, Drop)]
pub struct Pairs {
    pairs: Vec<(Place, Place)>,
}

impl Model for Pairs {
    ghost use Rattle.std.specs.Prelude.{List};
    ghost use Rattle.rg_base.specs.declared.place.Place.{Place};

    ghost Value = { List (Place × Place) };

    ghost view = { λ p. p.pairs.items };
}

impl Pairs {
    pub fn new(pairs: Vec<(Place, Place)>) -> Pairs
        ensures { result ≡ pairs.items }
    {
        Pairs { pairs }
    }

    pub fn as_slice(&self) -> &[(Place, Place)]
        ensures { result.now ≡ self.now }
    {
        self.pairs.as_slice()
    }

    /// The same pairs, without memory.
    pub fn into_vec(self) -> Vec<(Place, Place)>
        ensures { result.items ≡ self }
    {
        let Pairs { pairs } = self;
        pairs
    }
}
