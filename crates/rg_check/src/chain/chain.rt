// 1. The records so far are kept as what the next record is tested by: their transactions, the
//    current copy, and what ending the open transactions takes.
// 2. A transaction is drawn with the next number, so transactions are kept in order, without gaps.
// 3. No transaction is open where nothing is owed.
ghost use Rattle.std.specs.Prelude.{◌≡◌, ◌≤◌, ◌<◌, ◌+◌, ◌-◌, ◌*◌, ◌^◌, ◌++◌, ◌∷◌, [], ◌↔◌, IsTrue};
ghost use Rattle.std.specs.Prelude.{OnOk, false, length, List, ℕ, nat_le, if◌then◌else◌, sum_by};
ghost use Rattle.rg_record.specs.Spelled.{IsKind, IsRecord};
ghost use Rattle.rg_image.specs.Meaning.{Current, raised, current_after};
ghost use Rattle.rg_image.specs.Rules.{Done, has_undo, Undoes, IsOfTran, IsOpen, KindFollows};
ghost use Rattle.rg_image.specs.Rules.{IsChained, owed};
ghost use Rattle.rg_check.specs.Chain.Kept.{AreDone, IsKept, IsUnit};
ghost use Rattle.rg_check.specs.Chain.Running.{owed_unit, put_unit, unit_at};

use crate::chain::names::names_pages;
use crate::chain::same::is_same_option;
use crate::chain::unit::Unit;
use rg_base::copy::TableCopy;
use rg_base::no_memory::NoMemory;
use rg_base::part::Part;
use rg_base::place::Place;
use rg_base::position::Position;
use rg_base::row::Row;
use rg_base::tran::Tran;
use rg_outside::volume::Volume;
use rg_record::record::{Kind, Record};
use std::alloc::Global;
use std::marker::Model;

/// What is kept of the records so far.
#[derive(Drop)]
pub struct Chain {
    units: Vec<Unit>,
    copy: TableCopy,
    pages: u32,
    owed: u64,
}

impl Model for Chain {
    ghost use Rattle.std.specs.Prelude.{◌≡◌, ◌<◌, ◌^◌, length, sum_by};
    ghost use Rattle.rg_check.specs.Chain.Running.{Running, owed_unit};

    ghost Value = { Running };

    ghost view = { λ c. record {
      units = c.units.items;
      current = record { copy = c.copy; pages = c.pages };
      owed = c.owed;
    } };

    ghost invariant = { λ c. (c.owed ≡ sum_by owed_unit c.units.items)
        × (length c.units.items < 2 ^ 32) };
}

// Whether an Undo with these values undoes the Change at this position.
fn undoes(before: &[Record], top: u64, next: Position, home: Place, after: &Option<Row>) -> bool
    requires { top ≤ length before.now }
    ensures { (done : List Done) → AreDone before.now top done
        → (IsTrue result ↔ Undoes done next.0 home after.now) }
{
    if top == 0 {
        return false;
    }
    let entry = &before[(top - 1) as usize];
    match &entry.kind {
        Kind::Change {
            home: at,
            before,
            ..
        } => { next == entry.back && home == *at && is_same_option(after, before) }
        _ => false,
    }
}

// The number of pages, raised to the greatest page of the parts.
fn raised(pages: u32, parts: &[Part]) -> u32
    ensures { result ≡ raised pages parts.now }
{
    match parts {
        [] => pages,
        [part, rest @ ..] => raised(pages.max(part.page), rest),
    }
}

impl Chain {
    /// No record.
    pub fn new(alloc: Global) -> Chain
        ensures { IsKept [] result }
    {
        Chain {
            units: Vec::new(alloc),
            copy: TableCopy::first(),
            pages: 0,
            owed: 0,
        }
    }

    /// The greatest number of a transaction, or 0.
    pub fn greatest(&self) -> Tran
        ensures { result.0 ≡ length self.now.units }
    {
        Tran(self.units.len() as u32)
    }

    /// The current copy: that of the last Switch, or the first.
    pub fn copy(&self) -> TableCopy
        ensures { result ≡ self.now.current.copy }
    {
        self.copy
    }

    /// The number of pages of the current copy.
    pub fn pages(&self) -> u32
        ensures { result ≡ self.now.current.pages }
    {
        self.pages
    }

    /// The transaction with this number.
    pub fn unit(&self, tran: Tran) -> Unit
        requires { 1 ≤ tran.0 }
        ensures is { result ≡ unit_at self.now.units tran.0 }
        ensures unit { (before : List Record) → IsKept before self.now
            → IsUnit before tran.0 result }
    {
        let at = (tran.0 - 1) as usize;
        if at < self.units.len() {
            self.units[at]
        } else {
            Unit::none()
        }
    }

    // Whether the record is of a transaction that is drawn next, or goes on and has not ended.
    fn is_of_unit(&self, entry: &Record) -> bool
        ensures { (before : List Record) → IsKept before self.now
            → (IsTrue result ↔ IsOfTran before entry.now) }
    {
        let tran = entry.tran;
        if tran.0 == 0 || tran.0 as usize - 1 > self.units.len() {
            return false;
        }
        let unit = self.unit(tran);
        entry.back.0 == unit.last && !unit.ended
    }

    /// Whether no transaction is open.
    pub fn none_is_open(&self) -> bool
        ensures { (before : List Record) → IsKept before self.now
            → (IsTrue result ↔ ((tran : ℕ) → IsOpen tran before → ⊥)) }
    {
        self.owed == 0
    }

    /// The bytes that ending the open transactions takes.
    pub fn owed(&self) -> u64
        ensures is { result ≡ self.now.owed }
        ensures owed { (before : List Record) → IsKept before self.now → result ≡ owed before }
    {
        self.owed
    }

    // Whether such a record is of a transaction that has no Undo.
    fn is_forward(&self, before: &[Record], entry: &Record) -> bool
        requires { IsKept before.now self.now }
        ensures { IsTrue result ↔ (IsOfTran before.now entry.now
            × (has_undo entry.now.tran.0 before.now ≡ false)) }
    {
        self.is_of_unit(entry) && !self.unit(entry.tran).undoing
    }

    // Whether the record is what its kind asks of the records before it.
    fn kind_follows(&self, before: &[Record], entry: &Record) -> bool
        requires { IsKept before.now self.now }
        ensures { IsTrue result ↔ KindFollows before.now entry.now entry.now.kind }
    {
        match &entry.kind {
            Kind::Change { .. } | Kind::Commit => self.is_forward(before, entry),
            Kind::Undo {
                next,
                home,
                after,
                ..
            } => {
                self.is_of_unit(entry)
                    && undoes(before, self.unit(entry.tran).top, *next, *home, after)
            }
            Kind::RolledBack => self.is_of_unit(entry),
            Kind::Purge { .. } => true,
            Kind::Switch { copy, .. } => *copy != self.copy.number() && self.none_is_open(),
        }
    }

    /// Whether the record follows from those before it.
    pub fn follows<V: Volume>(&self, volume: &V, before: &[Record], entry: &Record) -> bool
        requires { IsKept before.now self.now }
        ensures { IsTrue result ↔ IsChained (V.seen volume.now).capacities before.now entry.now }
    {
        entry.position.0 == before.len() as u64 + 1
            && self.kind_follows(before, entry)
            && names_pages(volume, self.copy, &entry.kind)
    }

    // Puts a transaction in its place, or behind the others.
    fn put(&mut self, tran: Tran, unit: Unit) -> Result<(), NoMemory>
        requires low { 1 ≤ tran.0 }
        requires high { tran.0 ≤ length self.old.units + 1 }
        requires few { 911 * (unit_at self.old.units tran.0).left + 23 < 2 ^ 64 }
        requires room { 911 * unit.left + 23 + self.old.owed < 2 ^ 64 }
        ensures units { OnOk result (self.new.units ≡ put_unit self.old.units tran.0 unit) }
        ensures sum { self.new.owed ≡ sum_by owed_unit self.new.units }
        ensures current { self.new.current ≡ self.old.current }
    {
        let at = (tran.0 - 1) as usize;
        if at < self.units.len() {
            self.owed -= self.units[at].owed();
            self.units[at] = unit;
        } else {
            self.units.push(unit)?;
        }
        self.owed += unit.owed();
        Ok(())
    }

    // The current copy and its pages after a record.
    fn turn(&mut self, kind: &Kind)
        requires { IsKind kind.now }
        ensures { self.new ≡ record self.old { current = current_after self.old.current kind.now } }
    {
        match kind {
            Kind::Change { parts, .. } | Kind::Undo { parts, .. } | Kind::Purge { parts } => {
                self.pages = raised(self.pages, parts.as_slice());
            }
            Kind::Commit | Kind::RolledBack => {}
            Kind::Switch { copy, pages } => {
                let Some(turned) = TableCopy::of(*copy) else {
                    unreachable!()
                };
                self.copy = turned;
                self.pages = *pages;
            }
        }
    }

    /// One record more, which follows from those before it.
    pub fn add(&mut self, before: &[Record], entry: &Record) -> Result<(), NoMemory>
        requires kept { IsKept before.now self.old }
        requires few { length before.now < 2 ^ 32 }
        requires position { entry.now.position.0 ≡ length before.now + 1 }
        requires kind { KindFollows before.now entry.now entry.now.kind }
        requires spelled { IsRecord entry.now }
        ensures { OnOk result (IsKept (before.now ++ entry.now ∷ []) self.new) }
    {
        if entry.tran.0 != 0 {
            let position = Position(before.len() as u64 + 1);
            let unit = self.unit(entry.tran).after(position, &entry.kind);
            self.put(entry.tran, unit)?;
        }
        self.turn(&entry.kind);
        Ok(())
    }
}
