// What a run leaves.
//
// 1. The volume and the operator are handed back, however the run ended.
// 2. Of a run that was judged it is also said which entry is the first that is not legal, if there
//    is one.
use rg_base::set::Set;
use rg_desk::run::Run;

/// How a run ended.
#[derive(Clone, Copy, Debug, PartialEq, Eq)]
pub enum RunEnd {
    /// Each line has its entry. `rows` is the number of committed rows: those of a unit that is
    /// still open are not among them.
    Whole { rows: u64 },
    /// Each line has its entry, and the device has refused a COMMIT.
    Down,
    /// An opening was refused, the first one or that after a death: this page breaks a rule of a
    /// sound volume.
    Damaged { set: Set, page: u32 },
    /// An opening was refused, the first one or that after a death: a call of the volume failed.
    DeviceAtOpening,
    /// Out of memory in an opening, or for an entry; nothing of its line was done.
    NoMemory,
}

/// How a run ended whose trace was judged, and the number of the first entry of the trace that is
/// not legal, if there is one. Where memory ran out nothing was judged.
#[derive(Clone, Copy, Debug, PartialEq, Eq)]
pub struct JudgedEnd {
    pub end: RunEnd,
    pub verdict: Option<usize>,
}

/// What a run leaves: the volume and the operator that it was handed, its trace, and how it ended.
pub type Played<V, O> = Run<V, O, RunEnd>;

/// The same of a run whose trace was judged.
pub type Judged<V, O> = Run<V, O, JudgedEnd>;
