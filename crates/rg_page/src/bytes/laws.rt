//! Each function's contract is a law of the definitions. None of them runs anything.
ghost use Rattle.rg_page.specs.Bytes.Laws.{IsWhole, IsReadBack, OneSpelling, ZerosAreBlank};

/// A data page has 4,096 bytes, and no other page has the same.
pub fn page_bytes_law()
    ensures whole { IsWhole }
    ensures back { IsReadBack }
    ensures one { OneSpelling }
    ensures zeros { ZerosAreBlank }
{}
