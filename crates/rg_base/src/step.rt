use crate::options::DrainFor;

/// The stage of a running utility, which says what its next step makes.
#[derive(Clone, Copy, Debug, PartialEq, Eq)]
pub enum Step {
    /// A page is copied.
    Unload,
    /// A page of the new copy is filled.
    Reload,
    /// The list of an index is sorted.
    Sort,
    /// An index is built.
    Build,
    /// Changes are taken in an iteration.
    Log,
    /// The drain that was asked is looked at.
    Wait(DrainFor),
    /// Changes are taken under the first drain that was granted.
    Last,
    /// The new copy is written, under this drain.
    Write(DrainFor),
    /// The copies are switched.
    Switch,
    /// The utility ends.
    End,
}
