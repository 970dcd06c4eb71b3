ghost use Rattle.std.specs.Prelude.{◌≡◌};
ghost use Rattle.rg_record.specs.declared.fault.RecordFault.TheVariants.{NoMemory};

use std::alloc::{AllocError, AllocFailed};

/// Why no record was read.
#[derive(Debug, Drop, thiserror::Error)]
pub enum RecordFault {
    /// The bytes are no spelling of a record.
    #[error("these bytes are no record")]
    NotARecord,
    #[error("out of memory")]
    NoMemory,
}

impl From<AllocError> for RecordFault {
    ghost from_gives = { λ _ e. e ≡ NoMemory };

    fn from(_error: AllocError) -> RecordFault {
        RecordFault::NoMemory
    }
}

impl<T: Drop> From<AllocFailed<T>> for RecordFault {
    ghost from_gives = { λ _ e. e ≡ NoMemory };

    fn from(_error: AllocFailed<T>) -> RecordFault {
        RecordFault::NoMemory
    }
}
