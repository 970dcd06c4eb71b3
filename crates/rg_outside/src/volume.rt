// The volume, as all layers see it.
//
// 1. A call fails only where the count of faults rises. The faults of a known volume are its calls
//    that failed.
// 2. A read gives what the calls so far have left. A write may leave the old content or the new one
//    after a crash, until a sync succeeds.
ghost use Rattle.std.specs.Prelude.{◌≡◌, ◌≤◌, ℕ, Option, OnOk, OnErr};
ghost use Rattle.rg_outside.specs.Calls.{read_of};
ghost use Rattle.rg_outside.specs.Capacities.{capacity_of, IsPage};
ghost use Rattle.rg_outside.specs.Faults.{HasCause};
ghost use Rattle.rg_outside.specs.Made.{CountsFailed, MadeRead, MadeWrite, MadeSync};
ghost use Rattle.rg_outside.specs.Moments.{IfTold, HasWholePages};
ghost use Rattle.rg_outside.specs.Volume.{VolumeSeen};

use crate::source::Failed;
use rg_base::set::Set;

/// The pages of the log and of both copies of the table. The pages of a set are numbered from 1 to
/// its capacity, which never changes. A page has 4,096 bytes.
///
/// A volume may report its contents and its calls. Such a volume is called known, and what is said
/// of contents is said of a known volume.
pub trait Volume {
    /// What it reports: its contents and calls, where it does, how often a call has failed, and how
    /// many pages each set has.
    ghost seen: { Self → VolumeSeen };

    /// How many pages the set has. It is no call of the device.
    fn capacity(&self, set: Set) -> u32
        ensures { result ≡ capacity_of (seen self.now).capacities set };

    /// Reads a page: of a known volume, its content as it reads. A read that failed leaves `into`
    /// as it was.
    fn read(&mut self, set: Set, page: u32, into: &mut [u8; 4096]) -> Result<(), Failed>
        requires { IsPage (seen self.old).capacities set page }
        ensures made { MadeRead result (seen self.old).told (seen self.new).told }
        ensures content { OnOk result
            (IfTold (seen self.new).told (λ t. into.new ≡ read_of t.first t.calls set page)) }
        ensures kept { OnErr result (into.new ≡ into.old) }
        ensures capacities { (seen self.new).capacities ≡ (seen self.old).capacities }
        ensures cause { HasCause (seen self.old).faults (seen self.new).faults result };

    /// Writes a page. A write that failed leaves the old content or the new one, and a crash may
    /// leave either; or it was refused whole.
    fn write(&mut self, set: Set, page: u32, from: &[u8; 4096]) -> Result<(), Failed>
        requires { IsPage (seen self.old).capacities set page }
        ensures made { MadeWrite result (seen self.old).told set page from.now
            (seen self.new).told }
        ensures capacities { (seen self.new).capacities ≡ (seen self.old).capacities }
        ensures cause { HasCause (seen self.old).faults (seen self.new).faults result };

    /// Makes durable what reads. A sync that failed makes nothing durable.
    fn sync(&mut self) -> Result<(), Failed>
        ensures made { MadeSync result (seen self.old).told (seen self.new).told }
        ensures capacities { (seen self.new).capacities ≡ (seen self.old).capacities }
        ensures cause { HasCause (seen self.old).faults (seen self.new).faults result };

    /// A known volume reports its own capacities.
    ghost told_capacities: { (volume : Self) →
        IfTold (seen volume).told (λ t. t.capacities ≡ (seen volume).capacities) };

    /// The faults of a known volume are its calls that failed, while its calls can be counted.
    ghost told_faults: { (volume : Self) →
        IfTold (seen volume).told (CountsFailed (seen volume).faults) };

    /// The pages of a known volume have 4,096 bytes.
    ghost whole_pages: { (volume : Self) → IfTold (seen volume).told HasWholePages };
}
