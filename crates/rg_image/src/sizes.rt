// 1. A record takes its bytes and 2 for its length.
// 2. A record that does not fit the rest of a page begins the next one.
ghost use Rattle.std.specs.Prelude.{◌≡◌, ◌≤◌, ◌*◌};
ghost use Rattle.rg_image.specs.Kept.{IsEntry, AreEntries};
ghost use Rattle.rg_image.specs.Pack.{end_of, log_bytes, size_of, start};

use rg_record::record::Record;

/// The bytes of a log page after its header.
pub const ROOM: u32 = 4072;

/// The bytes that a record takes of a page.
pub fn size_of(entry: &Record) -> u32
    requires { IsEntry entry.now }
    ensures size { result ≡ size_of entry.now }
    ensures low { 23 ≤ result }
    ensures high { result ≤ 1731 }
{
    entry.size() + 2
}

/// The bytes that the records take.
pub fn all_bytes(records: &[Record]) -> u32
    requires entries { AreEntries records.now }
    requires few { log_bytes records.now ≤ 4072 * 65536 }
    ensures { result ≡ log_bytes records.now }
{
    let mut bytes = 0;
    for entry in records {
        bytes += size_of(entry);
    }
    bytes
}

/// The log page that the last record is on.
pub fn last_page(records: &[Record]) -> u32
    requires entries { AreEntries records.now }
    requires few { (end_of start records.now).page ≤ 65536 }
    ensures { result ≡ (end_of start records.now).page }
{
    let mut page = 1;
    let mut used = 0;
    for entry in records {
        let size = size_of(entry);
        if used + size <= ROOM {
            used += size;
        } else {
            page += 1;
            used = size;
        }
    }
    page
}
