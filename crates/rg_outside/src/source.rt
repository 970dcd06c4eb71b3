ghost use Rattle.std.specs.Prelude.{◌≡◌, ◌<◌, ◌≤◌, List, ℕ, Option, length, take, IfOk, OnErr};
ghost use Rattle.rg_outside.specs.Faults.{HasCause};
ghost use Rattle.std.specs.Io.KnownBytes.{Consumes, IsAtEnd, Keeps};

/// A call outside failed. Nothing is known of the reason.
#[derive(Clone, Copy, Debug, PartialEq, Eq)]
pub struct Failed;

/// Where the bytes of a deck come from. A source may report the bytes that it has left; what is
/// said of bytes is said of such a source.
pub trait Source {
    /// The bytes that are left, where it reports them.
    ghost left: { Self → Option (List ℕ) };

    /// How often a call has failed. It stands still at 2 ^ 64 - 1.
    ghost faults: { Self → ℕ };

    /// Puts the next bytes at the front of `into`, and answers how many; 0 for a non-empty `into`
    /// is the end. A call that failed took nothing.
    fn take(&mut self, into: &mut [u8]) -> Result<usize, Failed>
        ensures count { IfOk result (λ n. n ≤ length into.old) }
        ensures taken { IfOk result
            (λ n. Consumes (left self.old) (left self.new) (take n into.new)) }
        ensures end { IfOk result (λ n. 0 < length into.old → n ≡ 0 → IsAtEnd (left self.new)) }
        ensures failed { OnErr result (Keeps (left self.old) (left self.new)) }
        ensures cause { HasCause (faults self.old) (faults self.new) result };
}
