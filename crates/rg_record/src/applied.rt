// A record applies its parts in their order. Those that bring a row bring the record's own.
ghost use Rattle.std.specs.Prelude.{◌≡◌};
ghost use Rattle.std.specs.Option.{option_copied};
ghost use Rattle.rg_record.specs.Applied.{parts_of, after_of};

use crate::record::{Kind, Record};
use rg_base::part::Part;
use rg_base::row::Row;

impl Record {
    /// The parts that the record applies to pages: none for the end of a unit and for a Switch.
    pub fn parts(&self) -> &[Part]
        ensures { result.now ≡ parts_of self.now.kind }
    {
        match &self.kind {
            Kind::Change { parts, .. } | Kind::Undo { parts, .. } | Kind::Purge { parts } => {
                parts.as_slice()
            }
            Kind::Commit | Kind::RolledBack | Kind::Switch { .. } => &[],
        }
    }

    /// The row that the record brings to its home, if it brings one.
    pub fn after(&self) -> Option<&Row>
        ensures { option_copied result ≡ after_of self.now.kind }
    {
        match &self.kind {
            Kind::Change { after, .. } | Kind::Undo { after, .. } => after.as_ref(),
            Kind::Commit | Kind::RolledBack | Kind::Purge { .. } | Kind::Switch { .. } => None,
        }
    }
}
