// Why a page of a new copy is not filled.
//
// 1. NoSpace is returned if and only if the page, or the empty page due after it, is above the
//    capacity. It is found before memory is taken.
ghost use Rattle.std.specs.Prelude.{◌≡◌};
ghost use Rattle.rg_reload.specs.declared.fault.ReloadFault.TheVariants.{NoMemory};

use rg_base::no_memory::NoMemory;

/// Why a page is not filled.
#[derive(Clone, Copy, Debug, PartialEq, Eq, thiserror::Error)]
pub enum ReloadFault {
    /// The copy may not have more than `pages` pages, and would need one more.
    #[error("no room in a copy of {pages} pages")]
    NoSpace { pages: u32 },
    #[error("out of memory")]
    NoMemory,
}

impl From<NoMemory> for ReloadFault {
    ghost from_gives = { λ _ e. e ≡ NoMemory };

    fn from(_error: NoMemory) -> ReloadFault {
        ReloadFault::NoMemory
    }
}
