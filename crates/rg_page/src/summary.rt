// 1. A summary has the headers of its page's slots, and the last of them is not Free.
// 2. Its slots take at most 4,064 bytes.
// 3. It keeps the ceiling of its page: what that can offer at most, whoever is live.
ghost use Rattle.std.specs.Prelude.{◌≡◌, ◌≤◌, ◌<◌, ◌+◌, [], ◌++◌, ◌∷◌, ◌↔◌, IsTrue, IfOk, length};
ghost use Rattle.std.specs.Prelude.{map, vec_len, vec_capacity};
ghost use Rattle.std.specs.List.{list_any};
ghost use Rattle.rg_home.specs.Slots.{slot_at, placed, used, Fits, IsTrimmed, trim, put, is_free};
ghost use Rattle.rg_home.specs.Plan.{room, purged, admits, first_free};
ghost use Rattle.rg_page.specs.Bare.{bare, numbers_of};
ghost use Rattle.rg_page.specs.Ceiling.{spared, ceiling};
ghost use Rattle.rg_page.specs.Laid.{whole_slot, IsArea};
ghost use Rattle.rg_page.specs.Shown.{shown, IsHeld, IsSpelled};

use crate::header::Header;
use crate::slot::Slot;
use rg_base::no_memory::NoMemory;
use rg_base::place::Place;
use rg_base::tran::Tran;
use std::alloc::Global;
use std::marker::Model;

/// The headers of a page's slots, in order, with the bytes that the slots take and the page's
/// ceiling: what it could offer a slot and its area at most, whoever is live.
#[derive(Drop)]
pub struct Summary {
    headers: Vec<Header>,
    taken: u16,
    most: u16,
}

impl Model for Summary {
    ghost use Rattle.std.specs.Prelude.{List};
    ghost use Rattle.rg_home.specs.Slot.{Slot};
    ghost use Rattle.rg_page.specs.Summed.{IsSummary};

    ghost Value = { List Slot };

    ghost view = { λ s. s.headers.items };

    ghost invariant = { λ s. IsSummary s.headers s.taken s.most };
}

#[derive(Clone, Copy, Debug)]
pub struct Offer {
    pub room: u16,
    pub gap: bool,
}

/// What a page of these headers offers once it is purged.
fn once_purged(headers: &[Header], live: &[Tran]) -> Offer
    requires { Fits headers.now }
    ensures room { result.room ≡ room (numbers_of live.now) headers.now }
    ensures gap { result.gap ≡ list_any is_free (purged (numbers_of live.now) headers.now) }
{
    let mut all: u32 = 0;
    let mut kept: u32 = 0;
    let mut seen = false;
    let mut gap = false;
    for i in 0..headers.len() {
        let header = &headers[i];
        if header.goes(live) {
            all += 18;
            seen = true;
        } else {
            all += 18 + header.capacity() as u32;
            kept = all;
            gap = seen;
        }
    }
    Offer {
        room: (4064 - kept) as u16,
        gap,
    }
}

// The bytes that slots with these headers take.
fn sum(headers: &[Header]) -> u16
    requires { Fits headers.now }
    ensures { result ≡ used headers.now }
{
    let mut all: u16 = 0;
    for i in 0..headers.len() {
        all += 18 + headers[i].capacity();
    }
    all
}

fn ceiling_of(headers: &[Header]) -> u16
    requires { Fits headers.now }
    ensures { result ≡ ceiling headers.now }
{
    let offer = once_purged(headers, &[]);
    if offer.gap {
        offer.room + 18
    } else {
        offer.room
    }
}

impl Summary {
    pub fn new(alloc: Global) -> Result<Summary, NoMemory>
        ensures { IfOk result (λ s. s ≡ []) }
    {
        Ok(Summary {
            headers: Vec::with_capacity(alloc, 226)?,
            taken: 0,
            most: 4064,
        })
    }

    /// The summary of these headers.
    pub(crate) fn of(headers: Vec<Header>) -> Summary
        requires fits { Fits headers.items }
        requires trimmed { IsTrimmed headers.items }
        requires room { 226 ≤ vec_capacity headers }
        ensures { result ≡ headers.items }
    {
        let taken = sum(&headers);
        let most = ceiling_of(&headers);
        Summary {
            headers,
            taken,
            most,
        }
    }

    pub fn len(&self) -> u16
        ensures count { result ≡ length self.now }
        ensures fits { Fits self.now }
        ensures trimmed { IsTrimmed self.now }
    {
        self.headers.len() as u16
    }

    /// The header of slot i, counted from 0.
    pub fn header(&self, i: u16) -> &Header
        requires { i < length self.now }
        ensures { result.now ≡ slot_at self.now i }
    {
        &self.headers[i as usize]
    }

    /// An equal summary.
    pub fn copy(&self, alloc: Global) -> Result<Summary, NoMemory>
        ensures { IfOk result (λ summary. summary ≡ self.now) }
    {
        let mut headers = Vec::with_capacity(alloc, 226)?;
        for i in 0..self.len() {
            push(&mut headers, self.header(i).copy());
        }
        Ok(Summary {
            headers,
            taken: self.taken,
            most: self.most,
        })
    }

    /// What lies in slot i, where it names this place and these are the bytes of its row.
    pub fn slot<'a>(&self, i: u16, other: Place, bytes: &'a [u8]) -> Slot<'a>
        requires { i < length self.now }
        ensures shown { shown result ≡ whole_slot (slot_at self.now i) other bytes.now }
        ensures spelled { IsArea (slot_at self.now i) bytes.now → IsSpelled result }
        ensures held { IsArea (slot_at self.now i) bytes.now → IsHeld result }
    {
        self.headers[i as usize].slot(other, bytes)
    }

    /// The bytes that no slot takes.
    pub fn free(&self) -> u16
        ensures { result + used self.now ≡ 4064 }
    {
        4064 - self.taken
    }

    /// What would be free if all dead areas but those of these owners were purged.
    pub fn room(&self, live: &[Tran]) -> u16
        ensures { result ≡ room (numbers_of live.now) self.now }
    {
        once_purged(&self.headers, live).room
    }

    /// Whether the page stays within its bytes where this slot is set.
    pub fn fits(&self, i: u16, header: &Header) -> bool
        ensures { IsTrue result ↔ Fits (placed self.now i header.now) }
    {
        let at = i as usize;
        let count = self.headers.len();
        let free = 4064 - self.taken as usize;
        let capacity = header.capacity() as usize;
        if at < count {
            return capacity <= free + self.headers[at].capacity() as usize;
        }
        if header.is_free() {
            return true;
        }
        18 * (at - count + 1) + capacity <= free
    }

    /// A slot of the page was set. It takes no memory.
    pub fn set(&mut self, i: u16, header: Header)
        requires { Fits (placed self.old i header) }
        ensures { self.new ≡ placed self.old i header }
    {
        place(&mut self.headers, i as usize, header);
        self.taken = sum(&self.headers);
        self.most = ceiling_of(&self.headers);
    }

    /// The bytes that the page could offer a slot and its area, if all dead areas were purged.
    pub fn ceiling(&self) -> u16
        ensures { result ≡ ceiling self.now }
    {
        self.most
    }

    /// Whether the page admits a new area, once it is purged.
    pub fn admits(&self, live: &[Tran], b: u16) -> bool
        requires some { 1 ≤ b }
        requires size { b ≤ 826 }
        ensures { result ≡ admits (numbers_of live.now) b self.now }
    {
        if self.most < b + 18 {
            return false;
        }
        let offer = once_purged(&self.headers, live);
        if offer.gap {
            b <= offer.room
        } else {
            b + 18 <= offer.room
        }
    }
}

// Sets a header.
fn place(headers: &mut Vec<Header>, at: usize, header: Header)
    requires fits { Fits (placed headers.old.items at header) }
    requires trimmed { IsTrimmed headers.old.items }
    requires room { 226 ≤ vec_capacity headers.old }
    ensures items { headers.new.items ≡ placed headers.old.items at header }
    ensures capacity { vec_capacity headers.old ≤ vec_capacity headers.new }
{
    if at < headers.len() {
        headers[at] = header;
        cut(headers);
        return;
    }
    if header.is_free() {
        return;
    }
    grow(headers, at, header);
}

// Drops the Free headers at the end.
fn cut(headers: &mut Vec<Header>)
    ensures items { headers.new.items ≡ trim headers.old.items }
    ensures capacity { vec_capacity headers.old ≤ vec_capacity headers.new }
{
    let mut n = headers.len();
    while n > 0 && headers[n - 1].is_free() {
        n -= 1;
    }
    headers.truncate(n);
}

// Puts a header at the end, past Free ones.
fn grow(headers: &mut Vec<Header>, at: usize, header: Header)
    requires past { vec_len headers.old ≤ at }
    requires room { at < vec_capacity headers.old }
    ensures items { headers.new.items ≡ put headers.old.items at header }
    ensures capacity { vec_capacity headers.old ≤ vec_capacity headers.new }
{
    while headers.len() < at {
        push(headers, Header::free());
    }
    push(headers, header);
}

fn push(v: &mut Vec<Header>, x: Header)
    requires { vec_len v.old < vec_capacity v.old }
    ensures items { v.new.items ≡ v.old.items ++ x ∷ [] }
    ensures capacity { vec_capacity v.old ≤ vec_capacity v.new }
{
    match v.push(x) {
        Ok(()) => {}
        Err(_) => unreachable!(),
    }
}
