//! Each function's contract is a law of the definitions. None of them runs anything.
ghost use Rattle.rg_laws_log.specs.LogState.RecordLaws.{RecordsAppend, RecordsJoin, RecordsKeep};
ghost use Rattle.rg_laws_log.specs.LogState.RecordLaws.{NothingHolds, RunsKeep, RunsJoin};
ghost use Rattle.rg_laws_log.specs.LogState.RecordLaws.{PrefixesHold, PrefixesRun, StoredIsTable};
ghost use Rattle.rg_laws_log.specs.LogState.RecordLaws.{CommitsTell, StoredTells};
ghost use Rattle.rg_laws_log.specs.LogState.DeskLaws.{PlansMake, LocksGive, DesksWrite};
ghost use Rattle.rg_laws_log.specs.LogState.DeskLaws.{EmptyPurgeStays, PurgesRun};
ghost use Rattle.rg_laws_log.specs.LogState.UnitLaws.{NowAfter, StoredAfter, HitAfter, KeysDiffer};
ghost use Rattle.rg_laws_log.specs.LogState.UnitLaws.{OwnAfter, UnitsAfter, OpenAfter, NoneAfter};
ghost use Rattle.rg_laws_log.specs.LogState.UnitLaws.{UndoLeaves, RollbackRows, RollbackRuns};
ghost use Rattle.rg_laws_log.specs.LogState.UnitLaws.{RollbackPages, UnitsUndo};
ghost use Rattle.rg_laws_log.specs.LogState.OpeningLaws.{PrefixesPass, OpeningsClose, TestsSuffice};
ghost use Rattle.rg_laws_log.specs.LogState.OpeningLaws.{RestsPass, LogsGoOn, LogsTell, PagesPart};

/// The acts of records: one more record is one more act.
pub fn records_law()
    ensures one { RecordsAppend }
    ensures more { RecordsJoin }
{}

/// What every prefix of a lawful log leaves.
pub fn prefix_law()
    ensures records { RecordsKeep }
    ensures start { NothingHolds }
    ensures runs { RunsKeep }
    ensures prefixes { PrefixesHold }
    ensures shorter { PrefixesRun }
    ensures join { RunsJoin }
    ensures table { StoredIsTable }
{}

/// What a log says of the stored rows.
pub fn stored_law()
    ensures commits { CommitsTell }
    ensures stored { StoredTells }
{}

/// What a desk may append for a write.
pub fn desk_law()
    ensures plans { PlansMake }
    ensures locks { LocksGive }
    ensures writes { DesksWrite }
    ensures empty { EmptyPurgeStays }
    ensures purges { PurgesRun }
{}

/// What each act makes of the rows by key, and of the committed ones.
pub fn key_rows_law()
    ensures now { NowAfter }
    ensures stored { StoredAfter }
{}

/// What each act makes of the writes of a key, and of a unit's own writes.
pub fn writes_law()
    ensures hit { HitAfter }
    ensures none { NoneAfter }
    ensures keys { KeysDiffer }
    ensures own { OwnAfter }
{}

/// Which units are live, and which are open, after each act.
pub fn units_law()
    ensures live { UnitsAfter }
    ensures open_units { OpenAfter }
{}

/// What an undo needs, and what it leaves.
pub fn unit_undo_law()
    ensures can { UnitsUndo }
    ensures leaves { UndoLeaves }
{}

/// What a whole rollback leaves, and that it is lawful.
pub fn rollback_law()
    ensures rows { RollbackRows }
    ensures runs { RollbackRuns }
    ensures pages { RollbackPages }
{}

/// What an opening finds, and what it leaves.
pub fn tests_law()
    ensures pass { PrefixesPass }
    ensures close { OpeningsClose }
    ensures suffice { TestsSuffice }
    ensures rests { RestsPass }
    ensures later { LogsGoOn }
    ensures tells { LogsTell }
{}

/// Redo page by page.
pub fn page_law()
    ensures { PagesPart }
{}
