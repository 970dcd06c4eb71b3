// Why a change of the old copy is not made in the new one.
//
// 1. NoSpace is returned if and only if the space of the new copy has no room for the row.
// 2. After a fault the new copy is as it was.
ghost use Rattle.std.specs.Prelude.{◌≡◌};
ghost use Rattle.rg_shadow.specs.declared.fault.ShadowFault.TheVariants.{NoMemory};

use rg_base::no_memory::NoMemory;

/// Why a change is not made.
#[derive(Clone, Copy, Debug, PartialEq, Eq, thiserror::Error)]
pub enum ShadowFault {
    /// No page has room for the row, and the copy is at its capacity.
    #[error("no room in the new copy")]
    NoSpace,
    #[error("out of memory")]
    NoMemory,
}

impl From<NoMemory> for ShadowFault {
    ghost from_gives = { λ _ e. e ≡ NoMemory };

    fn from(_error: NoMemory) -> ShadowFault {
        ShadowFault::NoMemory
    }
}
