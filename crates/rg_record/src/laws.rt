// 1. Each record has one spelling, and no two records share one.
// 2. No record has more bytes than the greatest of its kind.
ghost use Rattle.std.specs.Prelude.{◌≡◌, ◌≤◌};
ghost use Rattle.rg_record.specs.declared.record.Record.{Record};
ghost use Rattle.rg_record.specs.Fits.{Fits};
ghost use Rattle.rg_record.specs.Spelled.{IsRecord, greatest};
ghost use Rattle.rg_record.specs.Spelling.{record_bytes, record_size};

/// Equal bytes are of equal records.
pub fn bytes_are_of_one_record()
    ensures { (a b : Record) → Fits a → Fits b → record_bytes a ≡ record_bytes b → a ≡ b }
{}

/// No record has more bytes than the greatest of its kind, and none more than 1,729.
pub fn records_are_short()
    ensures kind { (entry : Record) → IsRecord entry → Fits entry
        → record_size entry ≤ greatest entry.kind }
    ensures all { (entry : Record) → IsRecord entry → Fits entry → record_size entry ≤ 1729 }
{}
