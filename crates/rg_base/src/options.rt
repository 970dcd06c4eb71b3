use crate::control::{Deadline, Longlog, Maxro};

/// What the utility drains before its last iteration.
#[derive(Clone, Copy, Debug, PartialEq, Eq)]
pub enum DrainFor {
    Writers,
    All,
}

/// The options of a utility's control statement. Times are in whole seconds.
#[derive(Clone, Copy, Debug, PartialEq, Eq)]
pub struct Options {
    pub maxro: Maxro,
    pub longlog: Longlog,
    pub delay: u32,
    pub deadline: Deadline,
    pub drain: DrainFor,
    /// How long a drain waits.
    pub wait: u32,
    /// How often it is tried again.
    pub retry: u8,
    /// How long the utility goes on before it tries again.
    pub pause: u32,
    /// The part of a page that stays free, in hundredths.
    pub pctfree: u8,
    /// After how many filled pages an empty one stands; 0 for none.
    pub freepage: u8,
}

/// The drain that is in force.
#[derive(Clone, Copy, Debug, PartialEq, Eq)]
pub enum DrainState {
    Free,
    Asked(DrainFor),
    Granted(DrainFor),
}
