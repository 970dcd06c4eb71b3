ghost use Rattle.std.specs.Prelude.{◌≡◌};
ghost use Rattle.rg_file.specs.Sizes.{volume_name};
ghost use Rattle.rg_file.specs.declared.sizes.Sizes.{Sizes};

/// Volumes of different sizes have different files, so none is opened with other sizes than those
/// that it was made with.
pub fn one_name()
    ensures { (a b : Sizes) → volume_name a ≡ volume_name b
        → (a.log ≡ b.log) × (a.copy ≡ b.copy) }
{}
