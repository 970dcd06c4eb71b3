// A page that is being filled.
//
// 1. It is seen as the bytes so far. All bytes after them are zero.
// 2. Adding takes no memory: the room of a page is there from the start.
ghost use Rattle.std.specs.Prelude.{◌≡◌, ◌≤◌, ◌+◌, ◌++◌, ◌∷◌, [], length, take};
ghost use Rattle.rg_base.specs.Field.{field};
ghost use Rattle.rg_base.specs.RowBytes.{row_bytes, row_size};
ghost use Rattle.rg_record.specs.Filled.{padded};

use byteorder::{BigEndian, ByteOrder};
use rg_base::row::Row;
use std::marker::Model;

/// The bytes of a page.
pub const PAGE_SIZE: usize = 4096;

/// The greatest number of bytes of a row.
pub const ROW_LIMIT: usize = 826;

/// A page that is being filled, seen as the bytes so far.
#[derive(Drop)]
pub struct Buffer {
    bytes: [u8; PAGE_SIZE],
    used: usize,
}

impl Model for Buffer {
    ghost use Rattle.std.specs.Prelude.{◌≡◌, ◌≤◌, List, ℕ, take};
    ghost use Rattle.rg_record.specs.Filled.{padded};

    ghost Value = { List ℕ };

    ghost view = { λ b. take b.used b.bytes };

    ghost invariant = { λ b. (b.used ≤ 4096) × (b.bytes ≡ padded (take b.used b.bytes)) };
}

impl Buffer {
    pub fn new() -> Buffer
        ensures { result ≡ [] }
    {
        Buffer {
            bytes: [0; PAGE_SIZE],
            used: 0,
        }
    }

    /// Adds bytes at the end.
    pub fn add(&mut self, piece: &[u8])
        requires { length self.old + length piece.now ≤ 4096 }
        ensures bytes { self.new ≡ self.old ++ piece.now }
        ensures len { length self.new ≡ length self.old + length piece.now }
    {
        let end = self.used + piece.len();
        self.bytes[self.used..end].copy_from_slice(piece);
        self.used = end;
    }

    /// Adds one byte at the end.
    pub fn add_u8(&mut self, number: u8)
        requires { length self.old + 1 ≤ 4096 }
        ensures bytes { self.new ≡ self.old ++ number ∷ [] }
        ensures len { length self.new ≡ length self.old + 1 }
    {
        self.add(&[number]);
    }

    /// Adds a number in 2 bytes.
    #[tactic(auto, unfolding(rg_base::specs::Field::field))]
    pub fn add_u16(&mut self, number: u16)
        requires { length self.old + 2 ≤ 4096 }
        ensures bytes { self.new ≡ self.old ++ field 2 number }
        ensures len { length self.new ≡ length self.old + 2 }
    {
        let mut bytes = [0; 2];
        BigEndian::write_u16(&mut bytes, number);
        self.add(&bytes);
    }

    /// Adds a number in 4 bytes.
    #[tactic(auto, unfolding(rg_base::specs::Field::field))]
    pub fn add_u32(&mut self, number: u32)
        requires { length self.old + 4 ≤ 4096 }
        ensures bytes { self.new ≡ self.old ++ field 4 number }
        ensures len { length self.new ≡ length self.old + 4 }
    {
        let mut bytes = [0; 4];
        BigEndian::write_u32(&mut bytes, number);
        self.add(&bytes);
    }

    /// Adds a number in 8 bytes.
    #[tactic(auto, unfolding(rg_base::specs::Field::field))]
    pub fn add_u64(&mut self, number: u64)
        requires { length self.old + 8 ≤ 4096 }
        ensures bytes { self.new ≡ self.old ++ field 8 number }
        ensures len { length self.new ≡ length self.old + 8 }
    {
        let mut bytes = [0; 8];
        BigEndian::write_u64(&mut bytes, number);
        self.add(&bytes);
    }

    /// Adds the bytes of a row.
    pub fn add_row(&mut self, row: &Row)
        requires { length self.old + row_size row.now ≤ 4096 }
        ensures bytes { self.new ≡ self.old ++ row_bytes row.now }
        ensures len { length self.new ≡ length self.old + row_size row.now }
    {
        let mut bytes = [0; ROW_LIMIT];
        let size = row.size() as usize;
        row.write_into(&mut bytes);
        self.add(&bytes[..size]);
    }

    /// The bytes so far.
    pub fn as_slice(&self) -> &[u8]
        ensures bytes { result.now ≡ self.now }
        ensures high { length self.now ≤ 4096 }
    {
        &self.bytes[..self.used]
    }

    /// The page: the bytes so far and zeros.
    pub fn into_page(self) -> [u8; PAGE_SIZE]
        ensures { result ≡ padded self }
    {
        let Buffer { bytes, used: _ } = self;
        bytes
    }
}
