// Why a space refuses a call.
//
// 1. A fault names the first cause that was found. Full comes of a put or a change alone, and Unfit
//    of a redo alone. Nothing was applied to a page where a plan is refused.
use rg_base::no_memory::NoMemory;
use rg_page::frames::Device;

/// Why a space refuses a plan, or a row.
#[derive(Clone, Copy, Debug, PartialEq, Eq, thiserror::Error)]
pub enum SpaceFault {
    /// No page has room for the row of `need` bytes, and the copy is at its capacity.
    #[error("no room for a row of {need} bytes")]
    Full { need: u16 },
    /// A page could not be read.
    #[error("a page could not be read")]
    Device,
    #[error("out of memory")]
    NoMemory,
}

/// Why a record is not redone.
#[derive(Clone, Copy, Debug, PartialEq, Eq, thiserror::Error)]
pub enum RedoFault {
    /// A part of it does not fit its page.
    #[error("a record that does not fit its pages")]
    Unfit,
    /// A page could not be read.
    #[error("a page could not be read")]
    Device,
}

impl From<NoMemory> for SpaceFault {
    fn from(_error: NoMemory) -> SpaceFault {
        SpaceFault::NoMemory
    }
}

impl From<Device> for SpaceFault {
    fn from(_error: Device) -> SpaceFault {
        SpaceFault::Device
    }
}
