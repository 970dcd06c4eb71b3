// The two copies of a table.
ghost use Rattle.std.specs.Prelude.{◌≡◌, IfNone, IfSome};
ghost use Rattle.rg_base.specs.Copies.{IsCopy, other_of, set_of};

use crate::set::Set;
use std::marker::Model;

/// One of the two copies of a table, seen as its number: 1 or 2.
#[derive(Clone, Copy, Debug, PartialEq, Eq)]
pub struct TableCopy {
    number: u8,
}

impl Model for TableCopy {
    ghost use Rattle.std.specs.Prelude.{ℕ};
    ghost use Rattle.rg_base.specs.Copies.{IsCopy};

    ghost Value = { ℕ };

    ghost view = { λ c. c.number };

    ghost invariant = { λ c. IsCopy c.number };

    ghost inverse = { λ n. record { number = n } };
}

impl TableCopy {
    /// Copy 1, in which a new table begins.
    pub fn first() -> TableCopy
        ensures { result ≡ 1 }
    {
        TableCopy { number: 1 }
    }

    /// Copy 2.
    pub fn second() -> TableCopy
        ensures { result ≡ 2 }
    {
        TableCopy { number: 2 }
    }

    /// The copy with this number. None is returned where no copy has it.
    pub fn of(number: u8) -> Option<TableCopy>
        ensures none { IfNone result (IsCopy number → ⊥) }
        ensures some { IfSome result (λ copy. (copy ≡ number) × IsCopy number) }
    {
        if number == 1 || number == 2 {
            return Some(TableCopy { number });
        }
        None
    }

    /// Its number, as it stands on a volume and in a report.
    pub fn number(self) -> u8
        ensures is { result ≡ self }
        ensures known { IsCopy self }
    {
        self.number
    }

    /// The copy beside it.
    pub fn other(self) -> TableCopy
        ensures is { result ≡ other_of self }
        ensures copy { IsCopy result }
        ensures known { IsCopy self }
    {
        TableCopy {
            number: if self.number == 1 { 2 } else { 1 },
        }
    }

    /// The set that it has its pages in.
    pub fn set(self) -> Set
        ensures is { result ≡ set_of self }
        ensures known { IsCopy self }
    {
        if self.number == 1 {
            Set::First
        } else {
            Set::Second
        }
    }
}
