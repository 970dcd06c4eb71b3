// A clause that names each record ranges over all numbers and all texts. These calls do nothing at
// run time that matters; they say of a value what its type keeps, so that such a clause applies.
ghost use Rattle.std.specs.List.{AllByRecursion};
ghost use Rattle.rg_base.specs.Values.{FitsRow};
ghost use Rattle.rg_record.specs.Fits.{FitsPlace, FitsOp, FitsPart, FitsOption, FitsKind};
ghost use Rattle.rg_record.specs.Fits.{Fits};

use crate::record::{Kind, Record};
use rg_base::part::{Part, SlotOp};
use rg_base::place::Place;
use rg_base::row::Row;

fn place_fits(_place: Place)
    ensures { FitsPlace _place }
{}

fn op_fits(op: SlotOp)
    ensures { FitsOp op }
{
    match op {
        SlotOp::Free | SlotOp::Row { .. } | SlotOp::DeadRow { .. } => {}
        SlotOp::Pointer { other, .. }
        | SlotOp::Over { other, .. }
        | SlotOp::DeadPointer { other, .. }
        | SlotOp::DeadOver { other, .. } => place_fits(other),
    }
}

fn part_fits(part: Part)
    ensures { FitsPart part }
{
    op_fits(part.op);
}

fn parts_fit(parts: &[Part])
    ensures { AllByRecursion FitsPart parts.now }
{
    for part in parts {
        part_fits(*part);
    }
}

/// Each number of a row is within its type, and its text is one.
pub fn row_fits(row: &Row)
    ensures { FitsRow row.now }
{
    let _key = row.key;
    let _clus = row.clus;
    let _cat = row.cat;
    let _text = row.text.as_slice();
}

fn option_fits(row: &Option<Row>)
    ensures { FitsOption row.now }
{
    if let Some(row) = row {
        row_fits(row);
    }
}

fn kind_fits(kind: &Kind)
    ensures { FitsKind kind.now }
{
    match kind {
        Kind::Change {
            home,
            before,
            after,
            parts,
        } => {
            place_fits(*home);
            option_fits(before);
            option_fits(after);
            parts_fit(parts.as_slice());
        }
        Kind::Undo {
            next,
            home,
            after,
            parts,
        } => {
            let _next = next.0;
            place_fits(*home);
            option_fits(after);
            parts_fit(parts.as_slice());
        }
        Kind::Commit | Kind::RolledBack => {}
        Kind::Purge { parts } => parts_fit(parts.as_slice()),
        Kind::Switch { copy, pages } => {
            let _copy = *copy;
            let _pages = *pages;
        }
    }
}

impl Record {
    /// Each number of the record is within its type, and each text is one.
    pub fn fits(&self)
        ensures { Fits self.now }
    {
        let _position = self.position.0;
        let _tran = self.tran.0;
        let _back = self.back.0;
        kind_fits(&self.kind);
    }
}
