// A log page is filled with the records from one of them on, as many as fit.
ghost use Rattle.std.specs.Prelude.{◌++◌, ◌≡◌, ◌≤◌, ◌+◌, ◌*◌, length, take, drop};
ghost use Rattle.rg_image.specs.Kept.{IsEntry, AreEntries};
ghost use Rattle.rg_image.specs.Pack.{fitting, size_of, log_bytes};
ghost use Rattle.rg_image.specs.Page.{page_bytes, page_head, spelt};

use rg_image::sizes::{ROOM, size_of};
use rg_record::buffer::{Buffer, PAGE_SIZE};
use rg_record::record::Record;

// Adds the record behind its length.
fn add_entry(out: &mut Buffer, entry: &Record)
    requires entry { IsEntry entry.now }
    requires room { length out.old + size_of entry.now ≤ 4096 }
    ensures bytes { out.new ≡ out.old ++ spelt entry.now }
    ensures len { length out.new ≡ length out.old + size_of entry.now }
{
    let size = size_of(entry);
    out.add_u16((size - 2) as u16);
    entry.add_to(out);
}

/// How many of the records fit one page, from the first on, and the bytes that they take.
pub fn count_fitting(records: &[Record]) -> (usize, u32)
    requires { AreEntries records.now }
    ensures count { result.0 ≡ fitting 0 records.now }
    ensures used { result.1 ≡ log_bytes (take (fitting 0 records.now) records.now) }
    ensures high { result.1 ≤ 4072 }
{
    let mut used = 0;
    for (count, entry) in records.iter().enumerate() {
        let size = size_of(entry);
        if used + size > ROOM {
            return (count, used);
        }
        used += size;
    }
    (records.len(), used)
}

/// The index after the last record that fits the page that record `from` begins.
pub fn page_end(records: &[Record], from: usize) -> usize
    requires within { from ≤ length records.now }
    requires entries { AreEntries records.now }
    ensures end { result ≡ from + fitting 0 (drop from records.now) }
    ensures within { result ≤ length records.now }
{
    let (_, back) = records.split_at(from);
    let (count, _) = count_fitting(back);
    from + count
}

// The header of a log page.
fn add_head(out: &mut Buffer, page: u32, first: u64, count: u16, used: u16)
    requires { length out.old + 24 ≤ 4096 }
    ensures bytes { out.new ≡ out.old ++ page_head page first count used }
    ensures len { length out.new ≡ length out.old + 24 }
{
    out.add(&[82, 71, 76, 49]);
    out.add_u32(page);
    out.add_u64(first);
    out.add_u16(count);
    out.add_u16(used);
    out.add_u32(0);
}

/// The bytes of a page with these records.
pub fn fill_page(records: &[Record], page: u32) -> [u8; PAGE_SIZE]
    requires some { 1 ≤ length records.now }
    requires entries { AreEntries records.now }
    requires fits { fitting 0 records.now ≡ length records.now }
    ensures { result ≡ page_bytes page records.now }
{
    let (count, used) = count_fitting(records);
    let mut out = Buffer::new();
    add_head(
        &mut out,
        page,
        records[0].position.0,
        count as u16,
        used as u16,
    );
    for entry in records {
        add_entry(&mut out, entry);
    }
    out.into_page()
}
