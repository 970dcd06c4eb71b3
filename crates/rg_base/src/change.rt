use crate::place::Place;
use crate::position::Position;
use crate::row::Row;

/// What a write, or the undoing of one, made of the row at a home: the row from then on, or none.
/// `position` is that of its record in the log.
#[derive(Debug, Drop)]
pub struct Change {
    pub position: Position,
    pub home: Place,
    pub after: Option<Row>,
}
