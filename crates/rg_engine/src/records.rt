// The records of a log, by their positions.
//
// 1. A record's position is its number in the log, counted from 1.
ghost use Rattle.std.specs.Prelude.{◌≡◌, ◌≤◌, ◌+◌, ◌++◌, ◌∷◌, [], length};
ghost use Rattle.std.specs.Option.{option_copied};
ghost use Rattle.rg_record.specs.Spelled.{IsRecord};
ghost use Rattle.rg_engine.specs.Bytes.{kind_bytes, taken_of};
ghost use Rattle.rg_engine.specs.RecordList.{record_at};

use rg_base::position::Position;
use rg_log::log::Log;
use rg_record::record::Record;

/// The position of the next record.
pub fn next_position(log: &Log) -> Position
    ensures { result.0 ≡ length log.now.records + 1 }
{
    Position(log.records().len() as u64 + 1)
}

/// The record of a position, if there is one.
pub fn record_at(log: &Log, position: Position) -> Option<&Record>
    requires { 1 ≤ position.0 }
    ensures { option_copied result ≡ record_at log.now.records position.0 }
{
    let index = position.0 - 1;
    log.records().get(index as usize)
}

/// Appends a record that has a spelling, and whose bytes are reserved. It takes no memory.
pub fn append(log: &mut Log, entry: Record)
    requires spelled { IsRecord entry }
    requires next { entry.position.0 ≡ length log.old.records + 1 }
    requires room { kind_bytes entry.kind ≤ log.old.reserved }
    ensures records { log.new.records ≡ log.old.records ++ entry ∷ [] }
    ensures reserved { log.new.reserved + kind_bytes entry.kind ≡ log.old.reserved }
    ensures taken { taken_of log.new ≡ taken_of log.old }
    ensures pages { log.new.pages ≡ log.old.pages }
    ensures forced { log.new.forced ≡ log.old.forced }
{
    entry.fits();
    log.append(entry);
}
