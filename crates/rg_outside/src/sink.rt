ghost use Rattle.std.specs.Prelude.{◌≡◌, ◌<◌, ◌≤◌, List, ℕ, Option, length, take, IfOk, IfErr};
ghost use Rattle.std.specs.Prelude.{OnErr};
ghost use Rattle.rg_outside.specs.Faults.{HasGiveCause};
ghost use Rattle.std.specs.Io.KnownBytes.{Appends, Keeps};

/// Why a sink took nothing.
#[derive(Clone, Copy, Debug, PartialEq, Eq)]
pub enum GiveFault {
    /// The call failed.
    Failed,
    /// Out of memory. It is no fault of the sink.
    NoMemory,
}

/// Where the bytes of a print go. A sink may report the bytes that it holds; what is said of bytes
/// is said of such a sink.
pub trait Sink {
    /// The bytes that it holds, where it reports them.
    ghost contents: { Self → Option (List ℕ) };

    /// How often a call has failed, or taken 0 of a piece that is not empty. It stands still at
    /// 2 ^ 64 - 1.
    ghost faults: { Self → ℕ };

    /// Keeps bytes from the front of `from`, and answers how many. A call that was refused kept
    /// nothing.
    fn give(&mut self, from: &[u8]) -> Result<usize, GiveFault>
        ensures count { IfOk result (λ n. n ≤ length from.now) }
        ensures kept { IfOk result
            (λ n. Appends (contents self.old) (contents self.new) (take n from.now)) }
        ensures refused { OnErr result (Keeps (contents self.old) (contents self.new)) }
        ensures cause { HasGiveCause (faults self.old) (faults self.new) (length from.now) result };
}
