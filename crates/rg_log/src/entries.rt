// 1. Each record of a page stands behind its length, and has one spelling. So the records of a page
//    are read exactly: where so many records stand there, just these are found.
// 2. A page is a log page only if its records, filled into a page again, give these very bytes. So
//    its header and the zeros after its records need no test of their own.
ghost use Rattle.std.specs.Prelude.{◌≡◌, ◌++◌, IfOk, IfErr, length};
ghost use Rattle.rg_image.specs.Kept.{IsEntry};
ghost use Rattle.rg_image.specs.Page.{spelt};
ghost use Rattle.rg_log.specs.Read.{IsNoEntry, AreRead, AreNone, IsFormRead};

use crate::page::{count_fitting, fill_page};
use rg_base::field::get_u16;
use rg_base::no_memory::NoMemory;
use rg_base::note::note;
use rg_record::buffer::PAGE_SIZE;
use rg_record::fault::RecordFault;
use rg_record::read::read_record;
use rg_record::record::Record;
use std::alloc::Global;

/// The bytes of a log page before its records.
pub const PAGE_HEAD: usize = 24;

// The record at the front of these bytes, and the bytes after it.
fn entry_at(alloc: Global, bytes: &[u8]) -> Result<(Record, &[u8]), RecordFault>
    ensures entry { IfOk result (λ x. IsEntry x.0) }
    ensures bytes { IfOk result (λ x. bytes.now ≡ spelt x.0 ++ x.1.now) }
    ensures fault { IfErr result (IsNoEntry bytes.now) }
{
    if bytes.len() < 2 {
        return Err(RecordFault::NotARecord);
    }
    let size = get_u16(bytes, 0) as usize;
    let (_, rest) = bytes.split_at(2);
    if rest.len() < size {
        return Err(RecordFault::NotARecord);
    }
    let (front, rest) = rest.split_at(size);
    match read_record(alloc, front) {
        Ok(entry) => {
            note(&entry.size());
            Ok((entry, rest))
        }
        Err(fault) => Err(fault),
    }
}

// So many records from the front of these bytes on.
fn entries_at(alloc: Global, count: u16, bytes: &[u8]) -> Result<Vec<Record>, RecordFault>
    ensures read { IfOk result (λ found. AreRead bytes.now count found.items) }
    ensures fault { IfErr result (AreNone bytes.now count) }
{
    let mut records = Vec::new(alloc);
    let mut rest = bytes;
    for _k in 0..count {
        match entry_at(alloc, rest) {
            Ok((entry, after)) => {
                records.push(entry)?;
                rest = after;
            }
            Err(fault) => return Err(fault),
        }
    }
    Ok(records)
}

/// The records of a page, where these bytes have the form of a log page with this number.
pub fn read_page(
    alloc: Global,
    bytes: &[u8; PAGE_SIZE],
    page: u32,
) -> Result<Option<Vec<Record>>, NoMemory>
    ensures { IfOk result (IsFormRead page bytes.now) }
{
    let count = get_u16(bytes, 16);
    let (_, body) = bytes.split_at(PAGE_HEAD);
    let records = match entries_at(alloc, count, body) {
        Ok(records) => records,
        Err(fault) => match fault {
            RecordFault::NotARecord => return Ok(None),
            RecordFault::NoMemory => return Err(NoMemory),
        },
    };
    if records.is_empty() {
        return Ok(None);
    }
    let (fitting, _) = count_fitting(&records);
    if fitting != records.len() {
        return Ok(None);
    }
    if fill_page(&records, page) != *bytes {
        return Ok(None);
    }
    Ok(Some(records))
}
