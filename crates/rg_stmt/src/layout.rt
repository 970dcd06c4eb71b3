ghost use Rattle.std.specs.Prelude.{◌≡◌};

use rg_base::place::Place;
use std::marker::Model;

/// Where a row lies: its home, its key and `clus`, and the place to which it was moved, where it
/// doesn't lie at home.
#[derive(Clone, Copy, Debug, PartialEq, Eq)]
pub struct Spot {
    pub place: Place,
    pub key: u64,
    pub clus: u64,
    pub over: Option<Place>,
}

/// Spots, seen as a list.
#[derive(Debug, Drop)]
pub struct Spots {
    spots: Vec<Spot>,
}

impl Model for Spots {
    ghost use Rattle.std.specs.Prelude.{List};
    ghost use Rattle.rg_stmt.specs.declared.layout.Spot.{Spot};

    ghost Value = { List Spot };

    ghost view = { λ s. s.spots.items };
}

impl Spots {
    pub fn new(spots: Vec<Spot>) -> Spots
        ensures { result ≡ spots.items }
    {
        Spots { spots }
    }

    pub fn as_slice(&self) -> &[Spot]
        ensures { result.now ≡ self.now }
    {
        self.spots.as_slice()
    }

    /// The same spots, without memory.
    pub fn into_vec(self) -> Vec<Spot>
        ensures { result.items ≡ self }
    {
        let Spots { spots } = self;
        spots
    }
}

/// The entries of an index, each a value and the place of a row with it, seen as a list.
#[derive(Debug, Drop)]
pub struct Listing {
    entries: Vec<(u64, Place)>,
}

impl Model for Listing {
    ghost use Rattle.std.specs.Prelude.{List, ℕ};
    ghost use Rattle.rg_base.specs.declared.place.Place.{Place};

    ghost Value = { List (ℕ × Place) };

    ghost view = { λ l. l.entries.items };
}

impl Listing {
    pub fn new(entries: Vec<(u64, Place)>) -> Listing
        ensures { result ≡ entries.items }
    {
        Listing { entries }
    }

    pub fn as_slice(&self) -> &[(u64, Place)]
        ensures { result.now ≡ self.now }
    {
        self.entries.as_slice()
    }

    /// The same entries, without memory.
    pub fn into_vec(self) -> Vec<(u64, Place)>
        ensures { result.items ≡ self }
    {
        let Listing { entries } = self;
        entries
    }
}

/// The layout of a copy of the table: its pages, where its rows lie, and what its three indexes
/// list.
#[derive(Debug, Drop)]
pub struct Side {
    pub pages: u32,
    pub spots: Spots,
    pub keys: Listing,
    pub cluses: Listing,
    pub cats: Listing,
}

/// The layouts of both copies at a switch.
#[derive(Debug, Drop)]
pub struct Sides {
    pub old: Side,
    pub new: Side,
}
