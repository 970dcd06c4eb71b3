use rg_base::part::Parts;
use rg_base::place::Place;
use rg_base::row::Row;

/// How a write goes about it: the home of its row, the row before, the parts that purge a page
/// first, if that is needed, and then those that write. `specs/Plan.antt` says which plan a write
/// has.
#[derive(Debug, Drop)]
pub struct Plan {
    pub home: Place,
    pub before: Option<Row>,
    pub purge: Parts,
    pub parts: Parts,
}

/// Where a new area comes to lie, and whether its page has to be purged first.
#[derive(Clone, Copy, Debug, PartialEq, Eq)]
pub struct Area {
    pub place: Place,
    pub purges: bool,
}

/// How an area that is there takes a row: its capacity then, and whether its page has to be purged
/// first.
#[derive(Clone, Copy, Debug, PartialEq, Eq)]
pub struct Fitting {
    pub capacity: u16,
    pub purges: bool,
}

/// What a plan has to know of an area that is there: its capacity, the place that it points to, and
/// how it takes the new row.
#[derive(Clone, Copy, Debug, PartialEq, Eq)]
pub struct Look {
    pub capacity: u16,
    pub other: Option<Place>,
    pub fitting: Option<Fitting>,
}
