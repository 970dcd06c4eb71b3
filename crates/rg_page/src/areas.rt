// The bytes of a page's rows, one after another in one buffer, in the order of their slots.
//
// 1. The buffer has the 4,064 bytes that a page's slots may take, from the start on, so nothing
//    here takes memory later.
// 2. A row's bytes are replaced in place: only the bytes behind them move.
ghost use Rattle.std.specs.Prelude.{◌≡◌, ◌≤◌, ◌<◌, ◌+◌, ◌-◌, ◌∷◌, ◌++◌, [], IfOk, Some, length};
ghost use Rattle.std.specs.Prelude.{take, slice_index_or, set, vec_len, vec_capacity};
ghost use Rattle.std.specs.Option.{option_copied};
ghost use Rattle.rg_base.specs.RowBytes.{row_bytes, row_size};
ghost use Rattle.rg_page.specs.Changed.{IsShown};
ghost use Rattle.rg_page.specs.Stretches.{filled_by, total, bytes_of, size_of, IsPut};

use rg_base::no_memory::NoMemory;
use rg_base::row::Row;
use std::alloc::Global;
use std::marker::Model;

/// The bytes of a page that its slots may take.
pub const ROOM: usize = 4064;

/// The greatest number of slots of a page, since each takes 18 bytes.
pub const SLOTS: usize = 225;

/// Stretches of bytes, in order; a slot without a row has an empty one.
#[derive(Drop)]
pub struct Areas {
    lengths: Vec<u16>,
    bytes: Vec<u8>,
    filled: usize,
}

impl Model for Areas {
    ghost use Rattle.std.specs.Prelude.{List, ℕ};
    ghost use Rattle.rg_page.specs.Stretches.{stretches, IsBuffer};

    ghost Value = { List (List ℕ) };

    ghost view = { λ a. stretches a.lengths.items a.bytes.items };

    ghost invariant = { λ a. IsBuffer a.lengths a.bytes.items a.filled };
}

impl Areas {
    pub fn new(alloc: Global) -> Result<Areas, NoMemory>
        ensures { IfOk result (λ areas. areas ≡ []) }
    {
        Ok(Areas {
            lengths: Vec::with_capacity(alloc, SLOTS)?,
            bytes: vec![in alloc; 0; ROOM]?,
            filled: 0,
        })
    }

    pub fn len(&self) -> usize
        ensures { result ≡ length self.now }
    {
        self.lengths.len()
    }

    /// The bytes of stretch i.
    pub fn get(&self, i: usize) -> &[u8]
        requires { i < length self.now }
        ensures { result.now ≡ slice_index_or self.now i [] }
    {
        let (_, rest) = self.bytes.as_slice().split_at(self.offset(i));
        let (stretch, _) = rest.split_at(self.lengths[i] as usize);
        stretch
    }

    /// Puts the bytes of this row, or none, in the place of stretch i.
    pub fn replace(&mut self, i: usize, row: Option<&Row>)
        requires there { i < length self.old }
        requires fits { filled_by self.old + size_of (option_copied row)
            ≤ 4064 + length (slice_index_or self.old i []) }
        ensures { self.new ≡ set self.old i (bytes_of (option_copied row.entry)) }
    {
        let at = self.offset(i);
        let old = self.lengths[i] as usize;
        let size = size_of(row);
        put_row(self.bytes.as_mut_slice(), at, old, self.filled, row);
        self.filled = self.filled - old + size as usize;
        self.lengths[i] = size;
    }

    /// Adds an empty stretch at the end.
    pub fn push_empty(&mut self)
        requires { length self.old < 225 }
        ensures { self.new ≡ self.old ++ [] ∷ [] }
    {
        push_within(&mut self.lengths, 0);
    }

    /// Adds the bytes of a row at the end.
    pub fn push_row(&mut self, row: &Row)
        requires few { length self.old < 225 }
        requires fits { filled_by self.old + row_size row.now ≤ 4064 }
        ensures areas { self.new ≡ self.old ++ row_bytes row.now ∷ [] }
        ensures shown { IsShown (Some row.now) }
    {
        let size = row.size();
        row.write_into(&mut self.bytes[self.filled..]);
        self.filled += size as usize;
        push_within(&mut self.lengths, size);
    }

    /// Leaves the first n stretches alone.
    pub fn truncate(&mut self, n: usize)
        requires { n ≤ length self.old }
        ensures { self.new ≡ take n self.old }
    {
        self.filled = self.offset(n);
        self.lengths.truncate(n);
    }

    // Where stretch i begins.
    fn offset(&self, i: usize) -> usize
        requires { i ≤ length self.now }
        ensures stretches { result ≡ filled_by (take i self.now) }
        ensures within { result ≤ 4064 }
    {
        sum(&self.lengths[..i])
    }
}

fn sum(lengths: &[u16]) -> usize
    requires { total lengths.now ≤ 4064 }
    ensures { result ≡ total lengths.now }
{
    let mut all = 0;
    for length in lengths {
        all += *length as usize;
    }
    all
}

fn size_of(row: Option<&Row>) -> u16
    ensures { result ≡ size_of (option_copied row.entry) }
{
    match row {
        None => 0,
        Some(row) => row.size(),
    }
}

// Puts a row's bytes, or none, in the place of the `old` bytes from `at` on, and moves those behind
// them, of which the first `filled` bytes of the buffer have the last.
fn put_row(bytes: &mut [u8], at: usize, old: usize, filled: usize, row: Option<&Row>)
    requires whole { at + old ≤ filled }
    requires within { filled + size_of (option_copied row) ≤ length bytes.old + old }
    requires filled { filled ≤ length bytes.old }
    ensures { IsPut bytes.old bytes.new at old (filled - (at + old))
        (bytes_of (option_copied row.entry)) }
{
    match row {
        None => bytes.copy_within(at + old..filled, at),
        Some(row) => {
            bytes.copy_within(at + old..filled, at + row.size() as usize);
            row.write_into(&mut bytes[at..]);
        }
    }
}

/// Adds an item where there is room for it.
pub fn push_within<T: Drop>(items: &mut Vec<T>, item: T)
    requires { vec_len items.old < vec_capacity items.old }
    ensures items { items.new.items ≡ items.old.items ++ item ∷ [] }
    ensures capacity { vec_capacity items.old ≤ vec_capacity items.new }
{
    match items.push(item) {
        Ok(()) => {}
        Err(_) => unreachable!(),
    }
}
