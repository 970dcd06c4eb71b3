// The sizes of a volume.
// (1) A volume has from 2 to 65,536 pages of the log, and each copy of its table from 1 to 65,536:
//     256 MiB at most.
// (2) Nothing in a volume's file says its sizes, so the name of the file does. Volumes of different
//     sizes have different files, and neither is opened as if it were the other.
ghost use Rattle.std.specs.Prelude.{◌≡◌, IfSome, IfNone};
ghost use Rattle.std.proofs.Props.{props};
ghost use Rattle.rg_file.specs.Bounds.{AreSizes};

// The file of a volume of these sizes.
mod file;

/// How many pages the log has, and how many each of the two copies of the table.
#[derive(Clone, Copy, Debug, PartialEq, Eq)]
pub struct Sizes {
    pub log: u32,
    pub copy: u32,
    ghost in_range: { AreSizes log copy } by { Prim.hlevel (props) },
}

impl Sizes {
    /// The sizes of a volume for which none are asked: 32 MiB of the log, and 16 MiB of each copy.
    pub fn standard() -> Sizes
        ensures log { result.log ≡ 8192 }
        ensures copy { result.copy ≡ 4096 }
    {
        Sizes {
            log: 8192,
            copy: 4096,
        }
    }

    /// These sizes; none where a volume cannot have them.
    pub fn new(log: u64, copy: u64) -> Option<Sizes>
        ensures none { IfNone result (AreSizes log copy → ⊥) }
        ensures found { IfSome result (λ sizes. (sizes.log ≡ log) × (sizes.copy ≡ copy)) }
    {
        if 2 <= log && log <= 65_536 && 1 <= copy && copy <= 65_536 {
            Some(Sizes {
                log: log as u32,
                copy: copy as u32,
            })
        } else {
            None
        }
    }
}
