// The bytes of a row.
//
// 1. A row has one spelling: `row_bytes` of the definitions, 26 bytes and its text.
// 2. What is read is the row that the bytes spell. A refusal names the first test that fails: the
//    number of bytes, then the length of the text, then each byte of the text.
// 3. Writing into room that is there takes no memory.
ghost use Rattle.std.specs.Prelude.{◌≡◌, ◌≤◌, ◌<◌, ◌^◌, ◌++◌, IfOk, IfErr, length, take, drop};
ghost use Rattle.std.specs.Prelude.{slice_index};
ghost use Rattle.std.specs.List.{AllByRecursion};
ghost use Rattle.rg_base.specs.Field.{field};
ghost use Rattle.rg_base.specs.Text.{IsLetter, IsText};
ghost use Rattle.rg_base.specs.RowBytes.{row_bytes, row_of, row_size, RowFaultIs};
ghost use Rattle.rg_base.specs.Values.{values_of};

use crate::bytes::Bytes;
use crate::field::{get_u16, get_u64, put_bytes, put_u16, put_u64};
use crate::no_memory::NoMemory;
use crate::row::Row;
use crate::text::{TEXT_LIMIT, Text};
use crate::values::Values;
use std::alloc::Global;

/// The bytes of a row before its text.
pub const ROW_HEAD: usize = 26;

/// Why bytes are no row.
#[derive(Debug, Drop, thiserror::Error)]
pub enum RowFault {
    /// There are fewer than 26 bytes.
    #[error("fewer than 26 bytes")]
    Short,
    /// The text's length is above 800, or is not the number of the bytes that follow.
    #[error("a wrong length of the text")]
    Length,
    /// Byte number `at`, counted from 0 over all bytes of the row, is the first of the text outside
    /// 33 to 126.
    #[error("byte {at} is no byte of a text")]
    Byte { at: u16 },
    #[error("out of memory")]
    NoMemory,
}

impl From<NoMemory> for RowFault {
    fn from(_error: NoMemory) -> RowFault {
        RowFault::NoMemory
    }
}

impl Row {
    /// The number of its bytes: 26 to 826. They show the row.
    pub fn size(&self) -> u16
        ensures size { result ≡ row_size self.now }
        ensures low { 26 ≤ result }
        ensures high { result ≤ 826 }
        ensures back { row_of (row_bytes self.now) ≡ self.now }
        ensures text { IsText self.now.text }
    {
        are_numbers(self.key, self.clus, self.cat);
        26 + self.text.as_slice().len() as u16
    }

    /// Writes its bytes at the front of `into`. It takes no memory.
    pub fn write_into(&self, into: &mut [u8])
        requires { row_size self.now ≤ length into.old }
        ensures bytes { into.new ≡ row_bytes self.now ++ drop (row_size self.now) into.old }
        ensures back { row_of (row_bytes self.now) ≡ self.now }
        ensures size { length (row_bytes self.now) ≡ row_size self.now }
    {
        let text = self.text.as_slice();
        put_u64(into, 0, self.key);
        put_u64(into, 8, self.clus);
        put_u64(into, 16, self.cat);
        put_u16(into, 24, text.len() as u16);
        put_bytes(into, ROW_HEAD, text);
    }
}

// Says in a contract that the numbers of a row are below 2^64.
fn are_numbers(key: u64, clus: u64, cat: u64)
    ensures key { key < 2 ^ 64 }
    ensures clus { clus < 2 ^ 64 }
    ensures cat { cat < 2 ^ 64 }
{
    let _ = (key, clus, cat);
}

/// The bytes of a row.
pub fn write_row(alloc: Global, row: &Row) -> Result<Bytes, NoMemory>
    ensures { IfOk result (λ bytes. bytes ≡ row_bytes row.now) }
{
    let mut bytes = vec![in alloc; 0; row.size() as usize]?;
    row.write_into(bytes.as_mut_slice());
    Ok(Bytes::new(bytes))
}

/// The row that these bytes spell.
pub fn read_row(alloc: Global, bytes: &[u8]) -> Result<Row, RowFault>
    ensures row { IfOk result (λ row. row_bytes row ≡ bytes.now) }
    ensures shown { IfOk result (λ row. row ≡ row_of bytes.now) }
    ensures fault { IfErr result (RowFaultIs bytes.now) }
{
    if bytes.len() < ROW_HEAD {
        return Err(RowFault::Short);
    }
    let (_, text) = bytes.split_at(ROW_HEAD);
    if text.len() > TEXT_LIMIT {
        return Err(RowFault::Length);
    }
    if get_u16(bytes, 24) as usize != text.len() {
        return Err(RowFault::Length);
    }
    let at = count_letters(text);
    if at < text.len() {
        return Err(RowFault::Byte {
            at: (ROW_HEAD + at) as u16,
        });
    }
    match row_from(alloc, bytes) {
        Ok(row) => Ok(row),
        Err(_) => Err(RowFault::NoMemory),
    }
}

/// The row that these bytes spell, which are known to spell one. So its letters are not looked at.
pub fn read_spelled(alloc: Global, bytes: &[u8]) -> Result<Row, NoMemory>
    requires spelled { row_bytes (row_of bytes.now) ≡ bytes.now }
    requires text { IsText (row_of bytes.now).text }
    ensures { IfOk result (λ row. row ≡ row_of bytes.now) }
{
    row_from(alloc, bytes)
}

/// The values of the row that these bytes spell, which are known to spell one. Its text is not
/// copied, so it takes no memory.
pub fn read_values(bytes: &[u8]) -> Values
    requires { row_bytes (row_of bytes.now) ≡ bytes.now }
    ensures { result ≡ values_of (row_of bytes.now) }
{
    let key = get_u64(bytes, 0);
    let clus = get_u64(bytes, 8);
    let cat = get_u64(bytes, 16);
    Values { key, clus, cat }
}

// The row that bytes show, which have its fields, the length of the text that follows, and a text.
fn row_from(alloc: Global, bytes: &[u8]) -> Result<Row, NoMemory>
    requires long { 26 ≤ length bytes.now }
    requires length { field 2 (length (drop 26 bytes.now)) ≡ take 2 (drop 24 bytes.now) }
    requires text { IsText (drop 26 bytes.now) }
    ensures row { IfOk result (λ row. row_bytes row ≡ bytes.now) }
    ensures shown { IfOk result (λ row. row ≡ row_of bytes.now) }
{
    let (_, text) = bytes.split_at(ROW_HEAD);
    let text = match text.to_vec(alloc) {
        Ok(text) => text,
        Err(_) => return Err(NoMemory),
    };
    Ok(Row {
        key: get_u64(bytes, 0),
        clus: get_u64(bytes, 8),
        cat: get_u64(bytes, 16),
        text: Text::new(text),
    })
}

// How many bytes of a text come before the first that no text may have.
fn count_letters(bytes: &[u8]) -> usize
    ensures high { result ≤ length bytes.now }
    ensures letters { AllByRecursion IsLetter (take result bytes.now) }
    ensures other { result < length bytes.now → IsLetter (slice_index bytes.now result) → ⊥ }
{
    for (at, byte) in bytes.iter().enumerate() {
        if *byte < 33 || *byte > 126 {
            return at;
        }
    }
    bytes.len()
}
