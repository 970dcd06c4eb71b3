//! Each function's contract is a law of the definitions. None of them runs anything.
ghost use Rattle.rg_translate.specs.PackedCopy.Laws.{CopiesAreTable, PackedIsQuiet, PackedSpots};
ghost use Rattle.rg_translate.specs.PackedCopy.Laws.{SourcesAreTable, TableIsPacked};

/// The rows at the homes of a new copy are a table where the rows of its sources are.
pub fn table_law()
    ensures { SourcesAreTable }
{}

/// Where packed rows lie, in which order, and that the quiet ones among them lie right.
pub fn spots_law()
    ensures spots { PackedSpots }
    ensures quiet { PackedIsQuiet }
{}

/// The rows of a table, packed in order, make the packed copy of the table.
pub fn packed_law()
    ensures { TableIsPacked }
{}

/// The rows of all copies are the table, where nothing has changed since the start.
pub fn copies_law()
    ensures { CopiesAreTable }
{}
