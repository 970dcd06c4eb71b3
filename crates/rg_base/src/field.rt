// Numbers in the bytes of a format.
//
// 1. A number stands in 2, 4 or 8 bytes, the highest first.
// 2. Each run of so many bytes is the field of one number, so what is read is exact.
// 3. What is written at a place leaves all bytes before it and behind it.
ghost use Rattle.std.specs.Prelude.{◌≡◌, ◌≤◌, ◌+◌, ◌++◌, length, take, drop};
ghost use Rattle.rg_base.specs.Field.{field};

use byteorder::{BigEndian, ByteOrder};

/// The number in the 2 bytes from `at` on.
pub fn get_u16(bytes: &[u8], at: usize) -> u16
    requires { at + 2 ≤ length bytes.now }
    ensures { field 2 result ≡ take 2 (drop at bytes.now) }
{
    let mut field = [0; 2];
    field.copy_from_slice(&bytes[at..at + 2]);
    u16::from_be_bytes(field)
}

/// The number in the 4 bytes from `at` on.
pub fn get_u32(bytes: &[u8], at: usize) -> u32
    requires { at + 4 ≤ length bytes.now }
    ensures { field 4 result ≡ take 4 (drop at bytes.now) }
{
    let mut field = [0; 4];
    field.copy_from_slice(&bytes[at..at + 4]);
    u32::from_be_bytes(field)
}

/// The number in the 8 bytes from `at` on.
pub fn get_u64(bytes: &[u8], at: usize) -> u64
    requires { at + 8 ≤ length bytes.now }
    ensures { field 8 result ≡ take 8 (drop at bytes.now) }
{
    let mut field = [0; 8];
    field.copy_from_slice(&bytes[at..at + 8]);
    u64::from_be_bytes(field)
}

/// Writes these bytes from `at` on.
pub fn put_bytes(into: &mut [u8], at: usize, bytes: &[u8])
    requires { at + length bytes.now ≤ length into.old }
    ensures { into.new ≡ take at into.old ++ (bytes.now ++ drop (at + length bytes.now) into.old) }
{
    into[at..at + bytes.len()].copy_from_slice(bytes);
}

/// Writes the number in the 2 bytes from `at` on.
pub fn put_u16(into: &mut [u8], at: usize, number: u16)
    requires { at + 2 ≤ length into.old }
    ensures { into.new ≡ take at into.old ++ (field 2 number ++ drop (at + 2) into.old) }
{
    let mut field = [0; 2];
    BigEndian::write_u16(&mut field, number);
    put_bytes(into, at, &field);
}

/// Writes the number in the 4 bytes from `at` on.
pub fn put_u32(into: &mut [u8], at: usize, number: u32)
    requires { at + 4 ≤ length into.old }
    ensures { into.new ≡ take at into.old ++ (field 4 number ++ drop (at + 4) into.old) }
{
    let mut field = [0; 4];
    BigEndian::write_u32(&mut field, number);
    put_bytes(into, at, &field);
}

/// Writes the number in the 8 bytes from `at` on.
pub fn put_u64(into: &mut [u8], at: usize, number: u64)
    requires { at + 8 ≤ length into.old }
    ensures { into.new ≡ take at into.old ++ (field 8 number ++ drop (at + 8) into.old) }
{
    let mut field = [0; 8];
    BigEndian::write_u64(&mut field, number);
    put_bytes(into, at, &field);
}
