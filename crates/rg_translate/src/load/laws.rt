//! Each function's contract is a law of the definitions. None of them runs anything.
ghost use Rattle.rg_translate.specs.Load.Laws.{PackedIsRight, PackedStays};

/// A new copy stays packed while its indexes are made.
pub fn stays_law()
    ensures { PackedStays }
{}

/// Where all pages were copied and nothing has changed since, the new copy is right for the table.
pub fn right_law()
    ensures { PackedIsRight }
{}
