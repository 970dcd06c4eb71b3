// 1. Of each transaction of the records so far a few numbers are kept, so that no record is looked
//    for again.
// 2. The Changes of a transaction that are not undone are found from the latest one back: up to the
//    first Undo all records of a transaction are Changes, so the back of each names the one before.
ghost use Rattle.std.specs.Prelude.{◌≡◌, ◌+◌, ◌*◌, ◌<◌, ◌^◌};
ghost use Rattle.rg_check.specs.Chain.Running.{no_unit, owed_unit, unit_after};

use rg_base::position::Position;
use rg_record::record::Kind;

/// A transaction as the records so far leave it.
#[derive(Clone, Copy, Debug)]
pub struct Unit {
    /// The position of its last record, or 0.
    pub last: u64,
    /// The position of its latest Change that is not undone, or 0.
    pub top: u64,
    /// How many of its Changes are not undone.
    pub left: u64,
    /// It has an Undo.
    pub undoing: bool,
    /// It has its Commit or RolledBack.
    pub ended: bool,
}

impl Unit {
    /// A transaction without records.
    pub fn none() -> Unit
        ensures { result ≡ no_unit }
    {
        Unit {
            last: 0,
            top: 0,
            left: 0,
            undoing: false,
            ended: false,
        }
    }

    /// The bytes that ending it takes.
    pub fn owed(&self) -> u64
        requires { 911 * self.now.left + 23 < 2 ^ 64 }
        ensures { result ≡ owed_unit self.now }
    {
        if self.ended {
            return 0;
        }
        911 * self.left + 23
    }

    /// The transaction after one more record of it.
    pub fn after(self, position: Position, kind: &Kind) -> Unit
        requires { self.left + 1 < 2 ^ 64 }
        ensures { result ≡ unit_after self position.0 kind.now }
    {
        let last = position.0;
        match kind {
            Kind::Change { .. } => Unit {
                last,
                top: last,
                left: self.left + 1,
                ..self
            },
            Kind::Undo { next, .. } => Unit {
                last,
                top: next.0,
                left: self.left.saturating_sub(1),
                undoing: true,
                ..self
            },
            Kind::Commit | Kind::RolledBack => Unit {
                last,
                ended: true,
                ..self
            },
            Kind::Purge { .. } | Kind::Switch { .. } => self,
        }
    }
}
