/// A call of the volume failed.
#[derive(Clone, Copy, Debug, PartialEq, Eq)]
pub struct Device;

/// Why no room was reserved.
#[derive(Debug, Drop)]
pub enum ReserveFault {
    /// `need` bytes were asked for, and `left` are left up to the limit.
    LogFull { need: u32, left: u32 },
    NoMemory,
}

/// Why a log was not opened.
#[derive(Debug, Drop)]
pub enum LogFault {
    /// This log page is the first that is neither zero nor has the form of a log page.
    Damaged { page: u32 },
    Device,
    NoMemory,
}
