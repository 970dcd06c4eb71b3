// The open units of a log, undone at its opening.
//
// 1. Units are undone by rising number, each whole: its Changes that are not undone, the latest
//    first, and then its RolledBack.
// 2. Each Change is tested at its turn. The first that lacks what its undo needs is answered by its
//    place. The space is then to be dropped, as after a fault.
// 3. The records are appended to the log in memory, out of bytes that are reserved for all units
//    together before the first of them. What is left of these is given back.
ghost use Rattle.std.specs.Prelude.{◌≡◌, ◌≤◌, ◌+◌, ◌*◌, ◌++◌, ◌∷◌, [], ℕ, length, take, IfOk, OnOk};
ghost use Rattle.std.specs.List.{AllByRecursion};
ghost use Rattle.rg_home.specs.Able.{Proper};
ghost use Rattle.rg_image.specs.Rules.{last_position, limit_of, of_tran, owed};
ghost use Rattle.rg_image.specs.Pack.{log_bytes};
ghost use Rattle.rg_check.specs.Chain.Kept.{IsKept};
ghost use Rattle.rg_page.specs.Bare.{numbers_of};
ghost use Rattle.rg_check.specs.OpenUnits.Unended.{left_of, open_in, owed_for};
ghost use Rattle.rg_space.specs.Memory.{space_pages};
ghost use Rattle.rg_laws_crash.specs.SoundVolume.Closing.{rolled_back};
ghost use Rattle.rg_restart.specs.Closed.{AreUndosFrom, Closes, ClosesUnit, IsInStep, TookBack};

use rg_base::no_memory::NoMemory;
use rg_base::place::Place;
use rg_base::position::Position;
use rg_base::tran::Tran;
use rg_check::chain::chain::Chain;
use rg_check::chain::unit::Unit;
use rg_check::open_units::unended::changes_left;
use rg_check::page_tests::turns::{Outcome, undo_tested};
use rg_engine::records::{append, next_position};
use rg_log::fault::ReserveFault;
use rg_log::log::Log;
use rg_page::list::ListFrames;
use rg_record::record::{Kind, Record};
use rg_space::space::Space;
use std::alloc::Global;

// Appends the records of a unit's undo.
fn append_undos(log: &mut Log, tran: Tran, undos: Vec<Record>)
    requires undos { AreUndosFrom (length log.old.records + 1) tran.0 undos.items }
    requires room { 911 * length undos.items ≤ log.old.reserved }
    ensures took { TookBack (tran.0 ∷ []) (911 * length undos.items) log.old log.new }
    ensures records { log.new.records ≡ log.old.records ++ undos.items }
{
    for undo in undos {
        undo.fits();
        append(log, undo);
    }
}

// Appends the RolledBack of a unit whose last record is at `back`.
fn append_end(log: &mut Log, tran: Tran, back: Position)
    requires room { 23 ≤ log.old.reserved }
    ensures took { TookBack (tran.0 ∷ []) 23 log.old log.new }
    ensures records { log.new.records ≡ log.old.records
        ++ rolled_back (length log.old.records + 1) back.0 tran.0 ∷ [] }
{
    let entry = Record {
        position: next_position(log),
        tran,
        back,
        kind: Kind::RolledBack,
    };
    append(log, entry);
}

// Undoes the unit of a transaction, of which the first `count` records of the log are. None says
// that all is done; else a Change lacks what its undo needs, at this place.
fn close_unit(
    alloc: Global,
    space: &mut Space<ListFrames>,
    log: &mut Log,
    count: usize,
    tran: Tran,
    unit: Unit,
) -> Result<Option<Place>, NoMemory>
    requires step { IsInStep space.old }
    requires proper { Proper (space_pages space.old) }
    requires within { count ≤ length log.old.records }
    requires room { 911 * length (left_of tran.0 (take count log.old.records)) + 23
        ≤ log.old.reserved }
    requires last { unit.last ≡ last_position 0 (of_tran tran.0 (take count log.old.records)) }
    ensures { IfOk result (ClosesUnit tran.0 (take count log.old.records) space.old space.new
        log.old log.new) }
{
    let (old, _) = log.records().split_at(count);
    let changes = changes_left(alloc, old, tran)?;
    let none = changes.is_empty();
    let position = next_position(log);
    match undo_tested(alloc, space, changes, position, Position(unit.last)) {
        Err(_) => Err(NoMemory),
        Ok(Outcome::Breach { place }) => Ok(Some(place)),
        Ok(Outcome::Undone { undos }) => {
            append_undos(log, tran, undos);
            let back = if none {
                Position(unit.last)
            } else {
                log.last()
            };
            append_end(log, tran, back);
            Ok(None)
        }
    }
}

// Undoes the units of these transactions, of which the first `count` records of the log are.
fn close_each(
    alloc: Global,
    space: &mut Space<ListFrames>,
    log: &mut Log,
    count: usize,
    chain: &Chain,
    trans: &[Tran],
) -> Result<Option<Place>, NoMemory>
    requires step { IsInStep space.old }
    requires proper { Proper (space_pages space.old) }
    requires within { count ≤ length log.old.records }
    requires room { owed_for (numbers_of trans.now) (take count log.old.records)
        ≤ log.old.reserved }
    requires low { AllByRecursion (λ (t : Tran). 1 ≤ t.0) trans.now }
    requires kept { IsKept (take count log.old.records) chain.now }
    ensures { IfOk result (Closes (numbers_of trans.now) (take count log.old.records)
        space.old space.new log.old log.new) }
{
    let mut at = 0;
    while at < trans.len() {
        let tran = trans[at];
        let breach = close_unit(alloc, space, log, count, tran, chain.unit(tran))?;
        if breach.is_some() {
            return Ok(breach);
        }
        at += 1;
    }
    Ok(None)
}

// Reserves what the undo of all open units takes.
fn reserve_owed(log: &mut Log, chain: &Chain) -> Result<(), NoMemory>
    requires kept { IsKept log.old.records chain.now }
    requires space { log_bytes log.old.records + owed log.old.records ≤ limit_of log.old.pages }
    requires idle { log.old.reserved ≡ 0 }
    ensures ok { OnOk result
        (log.new ≡ record log.old { reserved = owed log.old.records }) }
{
    // It is no more than the limit, by the rule on the log's space.
    let bytes = chain.owed().min(u64::from(log.limit())) as u32;
    match log.reserve(bytes) {
        Ok(()) => Ok(()),
        Err(ReserveFault::NoMemory) => Err(NoMemory),
        Err(ReserveFault::LogFull { .. }) => unreachable!(),
    }
}

/// Undoes the open units of a log, whose transactions these are. None says that all is done; else
/// a Change lacks what its undo needs, at this place.
pub fn close_units(
    alloc: Global,
    space: &mut Space<ListFrames>,
    log: &mut Log,
    chain: &Chain,
    trans: &[Tran],
) -> Result<Option<Place>, NoMemory>
    requires step { IsInStep space.old }
    requires proper { Proper (space_pages space.old) }
    requires kept { IsKept log.old.records chain.now }
    requires trans { numbers_of trans.now ≡ open_in log.old.records }
    requires space { log_bytes log.old.records + owed log.old.records ≤ limit_of log.old.pages }
    requires idle { log.old.reserved ≡ 0 }
    ensures closes { IfOk result (Closes (open_in log.old.records) log.old.records
        space.old space.new log.old log.new) }
    ensures idle { OnOk result (log.new.reserved ≡ 0) }
{
    let count = log.records().len();
    reserve_owed(log, chain)?;
    let breach = close_each(alloc, space, log, count, chain, trans)?;
    let left = log.reserved();
    log.give_back(left);
    Ok(breach)
}
