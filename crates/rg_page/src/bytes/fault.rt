ghost use Rattle.std.specs.Prelude.{◌≡◌};
ghost use Rattle.rg_record.specs.declared.fault.RecordFault.TheVariants as record_fault;
ghost use Rattle.rg_page.specs.declared.bytes.fault.PageFault.TheVariants.{NotAPage, NoMemory};
ghost use Rattle.rg_page.specs.Bytes.Reading.{fault_of};

use rg_base::no_memory;
use rg_record::fault::RecordFault;

/// Why no page was read.
#[derive(Clone, Copy, Debug, PartialEq, Eq, thiserror::Error)]
pub enum PageFault {
    /// The bytes spell no page of that copy and number.
    #[error("these bytes are no page of this copy and number")]
    NotAPage,
    #[error("out of memory")]
    NoMemory,
}

impl From<no_memory::NoMemory> for PageFault {
    ghost from_gives = { λ _ e. e ≡ NoMemory };

    fn from(_error: no_memory::NoMemory) -> PageFault {
        PageFault::NoMemory
    }
}

impl From<RecordFault> for PageFault {
    ghost from_gives = { λ fault e. e ≡ fault_of fault };

    fn from(fault: RecordFault) -> PageFault {
        match fault {
            RecordFault::NotARecord => PageFault::NotAPage,
            RecordFault::NoMemory => PageFault::NoMemory,
        }
    }
}
