// The calls that a volume in memory keeps. Each that failed is kept as a failed one.
ghost use Rattle.std.specs.Prelude.{◌≡◌};
ghost use Rattle.rg_mem.specs.Listed.{is_failed_note};

use rg_base::set::Set;

/// A call as a volume keeps it. A write names the place of its bytes among those of all writes.
#[derive(Clone, Copy, Debug)]
pub enum Noted {
    Read,
    Wrote {
        set: Set,
        page: u32,
        at: usize,
    },
    Synced,
    FailedRead,
    FailedWrite {
        set: Set,
        page: u32,
        at: usize,
        reads: bool,
    },
    FailedSync,
}

impl Noted {
    // Whether it failed.
    pub fn is_failed(&self) -> bool
        ensures { result ≡ is_failed_note self.now }
    {
        match self {
            Noted::FailedRead | Noted::FailedWrite { .. } | Noted::FailedSync => true,
            Noted::Read | Noted::Wrote { .. } | Noted::Synced => false,
        }
    }
}
