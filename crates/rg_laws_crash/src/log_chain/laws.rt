//! Each function's contract is a law of the definitions. None of them runs anything.
ghost use Rattle.rg_laws_crash.specs.LogChain.Laws.{ChainFront, FrontsHaveSpace, Owes};
ghost use Rattle.rg_laws_crash.specs.LogChain.Laws.{RecordFollows, RecordTells, RecordsFollow};
ghost use Rattle.rg_laws_crash.specs.LogChain.Laws.{RecordsTell};

/// Records that are appended tell the state that they leave.
pub fn tells_law()
    ensures one { RecordTells }
    ensures more { RecordsTell }
{}

/// They follow from each other, and so does each part of the log from its first record on.
pub fn follows_law()
    ensures one { RecordFollows }
    ensures more { RecordsFollow }
    ensures front { ChainFront }
{}

/// What ending the open transactions takes, after each record, and that there is room for it.
pub fn space_law()
    ensures owes { Owes }
    ensures fronts { FrontsHaveSpace }
{}
