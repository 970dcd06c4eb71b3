ghost use Rattle.std.specs.Prelude.{◌≡◌, ℕ};
ghost use Rattle.rg_outside.specs.Calls.{Told};
ghost use Rattle.rg_run.specs.Fit.{HasSide};
ghost use Rattle.rg_stmt.specs.declared.layout.Side.{Side};

/// A layout that is read from a volume is the only one of as many pages. So no other can be printed
/// at SWITCHED: not the one that packing would have given where the old pages were copied, nor one
/// made from the rows.
pub fn one_side()
    ensures { (copy start calls : ℕ) (a b : Side) (t : Told) → HasSide copy start calls a t
        → HasSide copy start calls b t → a.pages ≡ b.pages → a.spots ≡ b.spots }
{}
