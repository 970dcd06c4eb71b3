use crate::row::Row;
use crate::session::Session;

/// The lock of a key: the session that holds it, and the committed row of the key when the lock was
/// first taken, or none where there was no row.
#[derive(Debug, Drop)]
pub struct Lock {
    pub owner: Session,
    pub row: Option<Row>,
}
