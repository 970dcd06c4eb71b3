ghost use Rattle.std.specs.Prelude.{◌≡◌, IfOk};
ghost use Rattle.std.specs.String.{string_bytes};
ghost use Rattle.rg_outside.specs.Capacities.{capacity_of};
ghost use Rattle.rg_file.specs.Sizes.{file_capacities, is_standard, volume_length, volume_name};

use crate::sizes::Sizes;
use rg_base::set::Set;
use std::alloc::{AllocError, Global};

impl Sizes {
    /// How many pages a set has.
    pub fn capacity(&self, set: Set) -> u32
        ensures { result ≡ capacity_of (file_capacities self.now) set }
    {
        match set {
            Set::Log => self.log,
            Set::First | Set::Second => self.copy,
        }
    }

    /// How many bytes the file of a volume has.
    pub fn length(&self) -> u64
        ensures { result ≡ volume_length self.now }
    {
        (u64::from(self.log) + u64::from(self.copy) + u64::from(self.copy)) * 4096
    }

    // Whether these are the standard sizes.
    fn is_standard(&self) -> bool
        ensures { result ≡ is_standard self.now }
    {
        self.log == 8192 && self.copy == 4096
    }

    /// The name of the file of a volume.
    pub fn file_name(&self, alloc: Global) -> Result<String, AllocError>
        ensures { IfOk result (λ name. string_bytes name ≡ volume_name self.now) }
    {
        if self.is_standard() {
            format!(in alloc; "reorgdb.vol")
        } else {
            format!(in alloc; "reorgdb-{}-{}.vol", self.log, self.copy)
        }
    }
}
