//! Each function's contract is a law of the definitions. None of them runs anything.
ghost use Rattle.rg_laws_pages.specs.UndoRoom.Laws.{UndoDoes, ReadyBegins, UnitBegins, PurgeKeeps};
ghost use Rattle.rg_laws_pages.specs.UndoRoom.Laws.{PutKeeps, ChangeKeeps, DropKeeps, UndoKeeps};
ghost use Rattle.rg_laws_pages.specs.UndoRoom.Laws.{EndKeeps, UnitRows, CommittedRows, DeadKept};
ghost use Rattle.rg_laws_pages.specs.UndoRoom.Laws.{LocksKeepApart, TestedBefore, AreasStay};

/// What the plan of one undo does.
pub fn undo_law()
    ensures { UndoDoes }
{}

/// Each record, and the start and end of units, leave the live units ready to be undone, with the
/// same committed rows.
pub fn keeps_law()
    ensures space { ReadyBegins }
    ensures unit { UnitBegins }
    ensures purge { PurgeKeeps }
    ensures put { PutKeeps }
    ensures change { ChangeKeeps }
    ensures drop { DropKeeps }
    ensures undo { UndoKeeps }
    ensures end { EndKeeps }
{}

/// The rows of a unit that is undone, and of one that commits.
pub fn rows_law()
    ensures undone { UnitRows }
    ensures committed { CommittedRows }
{}

/// The dead homes of live units keep naming areas of their own.
pub fn dead_law()
    ensures { DeadKept }
{}

/// The areas of live units stay, and do not shrink.
pub fn areas_law()
    ensures { AreasStay }
{}

/// Locks by key keep the homes of live units apart.
pub fn locks_law()
    ensures { LocksKeepApart }
{}

/// An opening may test all writes before it undoes the first.
pub fn opening_law()
    ensures { TestedBefore }
{}
