// What calls leave of the log. A caller keeps `LeavesLog` of its volume and log, and each kind of
// call goes on with it:
// 1. A sync, a read, and a write of another set leave the log as it was, whatever they answer; so
//    do any number of calls that write in another set, or nowhere.
// 2. An append keeps what is on the volume: it is a part of more records.
// 3. A force says so by its own clauses, and brings more of the records onto the volume.
ghost use Rattle.std.specs.Prelude.{◌≡◌, ◌≤◌, ◌++◌, ℕ, List, Option, Result, length};
ghost use Rattle.rg_base.specs.declared.set.Set.{Set};
ghost use Rattle.rg_base.specs.declared.set.Set.TheVariants.{Log as LogSet};
ghost use Rattle.rg_outside.specs.Calls.{Told};
ghost use Rattle.rg_outside.specs.Made.{MadeRead, MadeSync, MadeWrite, WritesIn};
ghost use Rattle.rg_outside.specs.Moments.{EachCall, EachImage, IfTold};
ghost use Rattle.rg_outside.specs.declared.source.Failed.{Failed};
ghost use Rattle.rg_record.specs.declared.record.Record.{Record};
ghost use Rattle.rg_image.specs.Kept.{AreEntries};
ghost use Rattle.rg_image.specs.Pack.{end_of, start};
ghost use Rattle.rg_image.specs.Rules.{ArePositions};
ghost use Rattle.rg_log.specs.Kept.{LeavesLog};
ghost use Rattle.rg_log.specs.Open.{IsQuiet, ReadsTidy};
ghost use Rattle.rg_log.specs.Present.{KeepsLog, HasPart, HasSoundPart};

/// A sync leaves the log, whether or not it failed.
pub fn syncs_keep_the_log()
    ensures { (capacity low : ℕ) (rs : List Record) (old new : Option Told)
        (result : Result (Unit {0}) Failed) → MadeSync result old new
        → KeepsLog old new capacity rs low }
{}

/// A read leaves the log, whether or not it failed.
pub fn reads_keep_the_log()
    ensures { (capacity low : ℕ) (rs : List Record) (old new : Option Told)
        (result : Result (Unit {0}) Failed) → MadeRead result old new
        → KeepsLog old new capacity rs low }
{}

/// A write of another set leaves the log, whether or not it failed.
pub fn other_writes_keep_the_log()
    ensures { (capacity low : ℕ) (rs : List Record) (old new : Option Told)
        (result : Result (Unit {0}) Failed) (set : Set) (page : ℕ) (bytes : List ℕ)
        → (set ≡ LogSet → ⊥) → MadeWrite result old set page bytes new
        → KeepsLog old new capacity rs low }
{}

/// Calls that write in another set alone leave the log, and so do calls that write nothing.
pub fn other_calls_keep_the_log()
    ensures writes { (capacity low : ℕ) (rs : List Record) (old new : Option Told) (set : Set)
        → (set ≡ LogSet → ⊥) → EachCall old new (WritesIn set) → KeepsLog old new capacity rs low }
    ensures reads { (capacity low : ℕ) (rs : List Record) (old new : Option Told)
        → EachCall old new IsQuiet → KeepsLog old new capacity rs low }
{}

/// What one run of calls keeps, and then another, both keep; and it is there after them.
pub fn runs_keep_the_log()
    ensures join { (capacity low : ℕ) (rs : List Record) (old mid new : Option Told)
        → KeepsLog old mid capacity rs low → KeepsLog mid new capacity rs low
        → KeepsLog old new capacity rs low }
    ensures end { (capacity low : ℕ) (rs : List Record) (old new : Option Told)
        → KeepsLog old new capacity rs low → LeavesLog old capacity rs low
        → LeavesLog new capacity rs low }
{}

/// Records that are appended leave what is on the volume.
pub fn appends_keep_the_log()
    ensures { (capacity low : ℕ) (rs more : List Record) (told : Option Told)
        → LeavesLog told capacity rs low → LeavesLog told capacity (rs ++ more) low }
{}

/// The log of each image that a crash may leave is a part of the records, no less than `low`. Where
/// positions count from 1, its log pages follow their rule, and it is tidy; so the volume reads
/// tidy when it is opened again.
pub fn crashes_leave_a_part()
    ensures part { (capacity low : ℕ) (rs : List Record) (told : Option Told) → AreEntries rs
        → (1 ≤ length rs → (end_of start rs).page ≤ capacity) → LeavesLog told capacity rs low
        → IfTold told (EachImage (HasPart capacity rs low)) }
    ensures sound { (capacity low : ℕ) (rs : List Record) (told : Option Told) → AreEntries rs
        → ArePositions rs → (1 ≤ length rs → (end_of start rs).page ≤ capacity)
        → LeavesLog told capacity rs low
        → IfTold told (EachImage (HasSoundPart capacity rs low)) }
    ensures tidy { (capacity low : ℕ) (rs : List Record) (told : Option Told) → AreEntries rs
        → ArePositions rs → (1 ≤ length rs → (end_of start rs).page ≤ capacity)
        → LeavesLog told capacity rs low → ReadsTidy told capacity }
{}
