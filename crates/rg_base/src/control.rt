/// MAXRO: how long the last iteration over the log may take by the operator's estimate, in seconds.
/// `Defer` never asks the drain on its own; LONGLOG DRAIN still does.
#[derive(Clone, Copy, Debug, PartialEq, Eq)]
pub enum Maxro {
    Within(u32),
    Defer,
}

/// LONGLOG: what the utility does when the log does not grow shorter.
#[derive(Clone, Copy, Debug, PartialEq, Eq)]
pub enum Longlog {
    Continue,
    Term,
    Drain,
}

/// DEADLINE: the moment by which the utility must be done, on the operator's scale.
#[derive(Clone, Copy, Debug, PartialEq, Eq)]
pub enum Deadline {
    Never,
    At(u32),
}

/// ALTER: the options that the operator replaces in a running utility.
#[derive(Clone, Copy, Debug, PartialEq, Eq)]
pub struct Alteration {
    pub maxro: Option<Maxro>,
    pub longlog: Option<Longlog>,
    pub delay: Option<u32>,
    pub deadline: Option<Deadline>,
}

/// What the operator wants of a running utility.
#[derive(Clone, Copy, Debug, PartialEq, Eq)]
pub enum Command {
    Nothing,
    Term,
    Alter(Alteration),
}

/// The operator's answer before a step of the utility: the present moment, and an estimate of how
/// long the rest of the log will take, both in whole seconds.
#[derive(Clone, Copy, Debug, PartialEq, Eq)]
pub struct Answer {
    pub now: u32,
    pub estimate: u32,
    pub command: Command,
}
