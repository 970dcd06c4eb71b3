// Why a log is not redone.
//
// 1. The record that is named is the first in the log that does not fit. Nothing was written to a
//    volume.
use rg_base::position::Position;

/// Why a log is not redone.
#[derive(Clone, Copy, Debug, PartialEq, Eq)]
pub enum RedoFault {
    /// The record with this position is the first that has a part which does not fit its page.
    Unfit { position: Position },
    /// A page could not be read.
    Device,
}
