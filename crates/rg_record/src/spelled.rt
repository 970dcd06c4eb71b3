// Which records have a spelling.
//
// 1. A Change or an Undo has one to three parts.
// 2. A Purge has 1 to 225 parts, each Free, all of one page.
// 3. A Purge and a Switch are of transaction 0, with back 0. A Switch names copy 1 or 2.
ghost use Rattle.std.specs.Prelude.{◌≡◌, IsTrue, ◌↔◌, ◌≤◌, length};
ghost use Rattle.std.specs.List.{list_all};
ghost use Rattle.rg_record.specs.Spelled.{is_free, frees_on, IsFew, AreFrees, IsOfNone, IsRecord};

use crate::record::{Kind, Record};
use rg_base::part::{Part, SlotOp};

fn is_few(parts: &[Part]) -> bool
    ensures { IsTrue result ↔ IsFew parts.now }
{
    1 <= parts.len() && parts.len() <= 3
}

fn is_free(op: SlotOp) -> bool
    ensures { result ≡ is_free op }
{
    matches!(op, SlotOp::Free)
}

// Whether the parts free slots of that page.
fn all_free(parts: &[Part], page: u32) -> bool
    ensures { result ≡ list_all (frees_on page) parts.now }
{
    parts
        .iter()
        .all(|part| is_free(part.op) && part.page == page)
}

// Whether the parts free slots of one page.
fn are_frees(parts: &[Part]) -> bool
    ensures { IsTrue result ↔ AreFrees parts.now }
{
    match parts {
        [] => false,
        [first, ..] => all_free(parts, first.page),
    }
}

impl Record {
    // Whether it is of no transaction.
    fn is_of_none(&self) -> bool
        ensures { IsTrue result ↔ IsOfNone self.now }
    {
        self.tran.0 == 0 && self.back.0 == 0
    }

    /// Whether it has a spelling.
    pub fn is_spelled(&self) -> bool
        ensures { IsTrue result ↔ IsRecord self.now }
    {
        match &self.kind {
            Kind::Change { parts, .. } | Kind::Undo { parts, .. } => is_few(parts.as_slice()),
            Kind::Commit | Kind::RolledBack => true,
            Kind::Purge { parts } => {
                let parts = parts.as_slice();
                parts.len() <= 225 && are_frees(parts) && self.is_of_none()
            }
            Kind::Switch { copy, .. } => (*copy == 1 || *copy == 2) && self.is_of_none(),
        }
    }
}
