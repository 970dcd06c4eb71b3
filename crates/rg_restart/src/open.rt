// The opening of a volume.
//
// 1. All rules on the log are tested first, each over the whole log. Then the pages of the current
//    copy are read, and last the rules on pages are tested.
// 2. The first rule that is broken names its page. Nothing is written, and the operator is not
//    asked.
// 3. The entries of earlier openings are kept, before those of the desk that is opened. A refusal
//    hands them back.
ghost use Rattle.std.specs.Prelude.{◌≡◌, [], IfOk, IfErr};
ghost use Rattle.rg_check.specs.Chain.Kept.{IsKept};
ghost use Rattle.rg_desk.specs.Chronicle.{IsRecorded};
ghost use Rattle.rg_engine.specs.Volume.{HasCalls};
ghost use Rattle.rg_image.specs.Rules.{HasSpace, IsChain};
ghost use Rattle.rg_log.specs.Kept.{log_pages};
ghost use Rattle.rg_redo.specs.CurrentCopy.Laws.{CoversAll};
ghost use Rattle.rg_restart.specs.Opening.{BreaksLog, GoesOnTidy, IsRefused, Looks, OpensStored};
ghost use Rattle.rg_restart.specs.Opening.{cause_of};

use crate::data::{read_pages, switch_of};
use crate::find::{damaged, find};
use rg_base::no_memory::NoMemory;
use rg_base::set::Set;
use rg_check::chain::chain::Chain;
use rg_check::chain::names::copy_pages;
use rg_check::chain::test::{LogTest, test_log};
use rg_desk::desk::{Desk, OpenCause, OpenFault};
use rg_desk::run::Run;
use rg_engine::found::Found;
use rg_feed::inlet::FeedIn;
use rg_log::fault::LogFault;
use rg_log::log::Log;
use rg_log::open::open_log;
use rg_outside::counted::Counts;
use rg_outside::operator::Operator;
use rg_outside::volume::Volume;
use rg_stmt::event::Entry;
use std::alloc::Global;

// The cause of a log that was not read.
fn cause_of(fault: LogFault) -> OpenCause
    ensures { result ≡ cause_of fault }
{
    match fault {
        LogFault::Damaged { page } => OpenCause::Damaged {
            set: Set::Log,
            page,
        },
        LogFault::Device => OpenCause::Device,
        LogFault::NoMemory => OpenCause::NoMemory,
    }
}

// Tests the records of a log, and keeps what was learned of them.
fn sound_log<V: Volume>(alloc: Global, volume: &V, log: &Log) -> Result<Chain, OpenCause>
    ensures chain { IfOk result (λ chain. IsChain (V.seen volume.now).capacities log.now.records) }
    ensures space { IfOk result (λ chain. HasSpace (log_pages (V.seen volume.now).capacities)
        log.now.records) }
    ensures kept { IfOk result (λ chain. IsKept log.now.records chain) }
    ensures covers { IfOk result (λ chain. CoversAll (V.seen volume.now).capacities
        log.now.records) }
    ensures refused { IfErr result (BreaksLog (V.seen volume.now).capacities log.now.records) }
{
    match test_log(alloc, volume, log.records()) {
        Err(NoMemory) => Err(OpenCause::NoMemory),
        Ok(LogTest::Sound(chain)) => Ok(chain),
        Ok(LogTest::BrokenChain { page }) => Err(damaged(Set::Log, page)),
        Ok(LogTest::NoSpace { page }) => Err(damaged(Set::Log, page)),
    }
}

// What is found of a volume.
fn look<V: Volume>(alloc: Global, volume: &mut V) -> Result<Found, OpenCause>
    requires { GoesOnTidy (V.seen volume.old) }
    ensures looks { IfOk result (Looks (V.seen volume.old) (V.seen volume.new)) }
    ensures refused { IfErr result
        (IsRefused (V.seen volume.old) (V.seen volume.new)) }
{
    let log = match open_log(alloc, volume) {
        Ok(log) => log,
        Err(fault) => return Err(cause_of(fault)),
    };
    let chain = sound_log(alloc, volume, &log)?;
    let (copy, count) = (chain.copy(), chain.pages());
    let last = log.records().len() as u64;
    let switch = switch_of(log.records());
    let read = read_pages(alloc, volume, copy, copy.set(), count, last, switch)?;
    let capacity = copy_pages(volume, copy);
    find(alloc, log, &chain, read, capacity)
}

/// Opens a volume over the table that its log stores. A page that breaks a rule of a sound volume
/// is named. The undo of open units is appended to the log in memory, and written by the next
/// COMMIT. The table may have been opened before: the trace has the entries of earlier openings, up
/// to which there were so many calls. Beside the desk stands the end at which all that it sends is
/// received.
pub fn open_desk<V: Counts, O: Operator>(
    alloc: Global,
    volume: V,
    operator: O,
    trace: Vec<Entry>,
    calls: u64,
) -> Result<(Desk<V, O>, FeedIn), OpenFault<V, O>>
    requires tidy { GoesOnTidy (V.seen volume) }
    requires recorded { IsRecorded trace.items calls }
    requires counted { HasCalls (V.seen volume) calls }
    ensures opens { IfOk result (λ made. OpensStored V.seen (V.seen volume) operator made.0) }
    ensures older { IfOk result (λ made. made.0.older ≡ trace.items) }
    ensures ring { IfOk result (λ made. made.0.ring ≡ made.1.ring) }
    ensures received { IfOk result (λ made. made.1.items ≡ []) }
    ensures refused { IfErr result (λ fault. IsRefused
        (V.seen volume) (V.seen fault.volume) fault.end) }
    ensures operator { IfErr result (λ fault. fault.operator ≡ operator) }
    ensures trace { IfErr result (λ fault. fault.trace.items ≡ trace.items) }
{
    let mut volume = volume;
    match look(alloc, &mut volume) {
        Ok(found) => Desk::new(alloc, volume, operator, trace, calls, found),
        Err(end) => Err(Run {
            volume,
            operator,
            trace,
            end,
        }),
    }
}
