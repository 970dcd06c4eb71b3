//! Each function's contract is a law of the definitions. None of them runs anything.
ghost use Rattle.rg_laws_log.specs.StoredRows.KeyedLaws.{StoredByKey, UndosAddNothing, LogStores};
ghost use Rattle.rg_laws_log.specs.StoredRows.KeyedLaws.{OpeningStores};

/// What a log stores is what its writes by key and its Commits store, whatever the log is.
pub fn keyed_law()
    ensures stored { StoredByKey }
    ensures undos { UndosAddNothing }
    ensures log { LogStores }
    ensures opening { OpeningStores }
{}
