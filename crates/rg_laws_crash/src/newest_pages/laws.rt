//! Each function's contract is a law of the definitions. None of them runs anything.
ghost use Rattle.rg_laws_crash.specs.NewestPages.Laws.{CanIsNear, ThereIsNear};
ghost use Rattle.rg_laws_crash.specs.NewestPages.Laws.{EachIsNewest, EndIsNewest, RebuiltAreNewest};
ghost use Rattle.rg_laws_crash.specs.NewestPages.Laws.{RecordIsNewest};
ghost use Rattle.rg_laws_crash.specs.NewestPages.FlushLaws.{BaseIsVersion, CleanIsNewest};
ghost use Rattle.rg_laws_crash.specs.NewestPages.FlushLaws.{NewestMayBeWritten, WrittenIsVersion};
ghost use Rattle.rg_laws_crash.specs.NewestPages.OpenLaws.{OpeningCanRedo, OpeningIsNewest};
ghost use Rattle.rg_laws_crash.specs.NewestPages.OpenLaws.{OpeningMarks};
ghost use Rattle.rg_laws_crash.specs.NewestPages.OpenLaws.{OpeningStands, SinceTheSwitch};
ghost use Rattle.rg_laws_crash.specs.NewestPages.OpenLaws.{SwitchedPages};
ghost use Rattle.rg_laws_crash.specs.NewestPages.Steady.{OpenedPast, PagesGrow, SteadyFront};
ghost use Rattle.rg_laws_crash.specs.NewestPages.Steady.{SteadyMore};
ghost use Rattle.rg_laws_crash.specs.NewestPages.Steady.{SteadyOpened, TidyGoesOn};

/// What a record makes of pages in memory is the newest version of each, once it is appended.
pub fn newest_law()
    ensures there { ThereIsNear }
    ensures can { CanIsNear }
    ensures one { RecordIsNewest }
    ensures each { EachIsNewest }
    ensures end { EndIsNewest }
    ensures rebuilt { RebuiltAreNewest }
{}

/// When a page in memory may be written, and what a page that was read or written shows.
pub fn flush_law()
    ensures written { NewestMayBeWritten }
    ensures version { WrittenIsVersion }
    ensures base { BaseIsVersion }
    ensures clean { CleanIsNewest }
{}

/// What an opening leaves: the pages on the volume may stand there, and those in memory are the
/// newest.
pub fn open_law()
    ensures since { SinceTheSwitch }
    ensures pages { SwitchedPages }
    ensures stands { OpeningStands }
    ensures can_redo { OpeningCanRedo }
    ensures newest { OpeningIsNewest }
    ensures marks { OpeningMarks }
{}

/// A copy that is current still: how its pages grow, and that what a crash leaves of its set is
/// tidy again.
pub fn steady_law()
    ensures more { SteadyMore }
    ensures front { SteadyFront }
    ensures opened { SteadyOpened }
    ensures grow { PagesGrow }
    ensures tidy { TidyGoesOn }
    ensures past { OpenedPast }
{}
