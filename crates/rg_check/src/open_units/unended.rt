// What an opening undoes.
//
// 1. A transaction that has records and no end is open, whether or not a Change of it is left.
//    Open transactions are listed by rising number.
// 2. A Change of a transaction is left until an Undo takes it: each Undo takes the latest one that
//    is left. Changes that are left are listed the latest first, in the order of their undo.
// 3. Records of other transactions change nothing.
ghost use Rattle.std.specs.Prelude.{◌≡◌, ◌++◌, ◌∷◌, [], if◌then◌else◌, List, reverse, OnOk, IfOk};
ghost use Rattle.rg_check.specs.Chain.Kept.{IsKept};
ghost use Rattle.rg_page.specs.Bare.{numbers_of};
ghost use Rattle.rg_check.specs.OpenUnits.Unended.{left_by, left_of, open_in};

use crate::chain::chain::Chain;
use crate::chain::unit::Unit;
use rg_base::no_memory::NoMemory;
use rg_base::tran::Tran;
use rg_record::record::{Kind, Record};
use std::alloc::Global;

// Lists a transaction that has not ended.
fn list_open(trans: &mut Vec<Tran>, tran: Tran, unit: Unit) -> Result<(), NoMemory>
    ensures { OnOk result (numbers_of trans.new.items
        ≡ numbers_of trans.old.items ++ (if unit.ended then [] else tran.0 ∷ [])) }
{
    if !unit.ended {
        trans.push(tran)?;
    }
    Ok(())
}

/// The transactions of a log without an end, by rising number.
pub fn open_trans(alloc: Global, chain: &Chain) -> Result<Vec<Tran>, NoMemory>
    ensures { IfOk result (λ trans. (rs : List Record) → IsKept rs chain.now
        → numbers_of trans.items ≡ open_in rs) }
{
    let mut trans = Vec::new(alloc);
    let mut number = 0;
    while number < chain.greatest().0 {
        number += 1;
        let tran = Tran(number);
        list_open(&mut trans, tran, chain.unit(tran))?;
    }
    Ok(trans)
}

// What one more record of a transaction leaves, where the latest Change is last.
fn take_record(alloc: Global, left: &mut Vec<Record>, entry: &Record) -> Result<(), NoMemory>
    ensures { OnOk result (reverse left.new.items ≡ left_by (reverse left.old.items) entry.now) }
{
    match &entry.kind {
        Kind::Change { .. } => {
            left.push(entry.copy(alloc)?)?;
            Ok(())
        }
        Kind::Undo { .. } => {
            left.pop();
            Ok(())
        }
        Kind::Commit | Kind::RolledBack | Kind::Purge { .. } | Kind::Switch { .. } => Ok(()),
    }
}

/// Copies of a transaction's Changes that are not undone, the latest first.
pub fn changes_left(alloc: Global, records: &[Record], tran: Tran) -> Result<Vec<Record>, NoMemory>
    ensures { IfOk result (λ changes. changes.items ≡ left_of tran.0 records.now) }
{
    let mut left = Vec::new(alloc);
    let mut at = 0;
    while at < records.len() {
        let entry = &records[at];
        if entry.tran.0 == tran.0 {
            take_record(alloc, &mut left, entry)?;
        }
        at += 1;
    }
    left.reverse();
    Ok(left)
}
