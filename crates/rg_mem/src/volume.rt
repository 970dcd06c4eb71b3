// A volume in memory.
//
// 1. It keeps each call in the order of the calls, with the bytes of each write, in room that it
//    takes when it is made. A call past that room is refused whole, and so is each later one.
// 2. Its faults are the calls that failed, those past its room included.
// 3. A failed write leaves the old content or the new one, as it was told. A failed sync makes
//    nothing durable.
ghost use Rattle.std.specs.Bool.{OnTrue, OnFalse};
ghost use Rattle.std.specs.Prelude.{◌≡◌, ◌==◌, find, ℕ, ◌≤◌, ◌<◌, ◌^◌, ◌+◌, ◌-◌, []};
ghost use Rattle.std.specs.Prelude.{slice_index_or, ◌∷◌, ◌++◌, length, is_some, All, IfOk, OnOk};
ghost use Rattle.std.specs.Prelude.{OnErr};
ghost use Rattle.std.specs.Prelude.{is_err};
ghost use Rattle.std.specs.Prelude.{IsTrue, min, vec_len, vec_capacity, if◌then◌else◌, ◌↔◌};
ghost use Rattle.rg_outside.specs.Counts.{count_after};
ghost use Rattle.rg_mem.specs.Listed.{failed_in, is_failed_note, writes_needed, noted_write};
ghost use Rattle.rg_mem.specs.Listed.{zero_page};
ghost use Rattle.rg_mem.specs.Listed.{pick_at};

use crate::noted::Noted;
use rg_base::no_memory::NoMemory;
use rg_base::set::Set;
use rg_outside::source::Failed;
use rg_outside::volume::Volume;
use std::alloc::Global;

type Page = [u8; 4096];

/// A call that is to fail, by its number, counted from 1. `written` says that a write leaves its
/// content to a read all the same.
#[derive(Clone, Copy, Debug)]
pub struct Failing {
    pub call: u64,
    pub written: bool,
}

/// A volume in memory. It keeps the list of all its calls, in room for a stated number of calls and
/// of writes that it takes when it is made. A call past that room fails and is refused whole, and
/// so is every call after it.
#[derive(Drop)]
pub struct MemVolume {
    log: Vec<Page>,
    first: Vec<Page>,
    second: Vec<Page>,
    calls: Vec<Noted>,
    writes: Vec<Page>,
    past: u64,
    failing: Vec<Failing>,
    stop: Option<u64>,
    faults: u64,
    ghost whole_log: { All (λ page. length page ≡ 4096) log.items },
    ghost whole_first: { All (λ page. length page ≡ 4096) first.items },
    ghost whole_second: { All (λ page. length page ≡ 4096) second.items },
    ghost whole_writes: { All (λ page. length page ≡ 4096) writes.items },
    ghost there: { All (λ call. writes_needed call ≤ length writes.items) calls.items },
    ghost failed: { faults ≡ min (past + failed_in calls.items) (2 ^ 64 - 1) },
    ghost small_log: { length log.items < 2 ^ 32 },
    ghost small_first: { length first.items < 2 ^ 32 },
    ghost small_second: { length second.items < 2 ^ 32 },
}

impl MemVolume {
    ghost use Rattle.rg_outside.specs.Calls.{Call, Read, Synced, Wrote, FailedRead, FailedSync};
    ghost use Rattle.rg_outside.specs.Calls.{FailedWrite, Refused, effect_of, read_after, read_of};
    ghost use Rattle.rg_outside.specs.Calls.{left_after, left_of};
    ghost use Rattle.rg_outside.specs.Capacities.{IsPage, capacity_of};
    ghost use Rattle.rg_outside.specs.Faults.{Rose};
    ghost use Rattle.rg_outside.specs.Made.{Made};
    ghost use Rattle.rg_outside.specs.Moments.{IsImage};
    ghost use Rattle.rg_mem.specs.Listed.{call_of, calls_of, image_of, write_call, content_at};
    ghost use Rattle.rg_mem.specs.Listed.{zero_page, pick_at, page_index};
    ghost use Rattle.rg_mem.specs.Shown.{capacities_of, shown, told_of, has_room, fault_of};
    ghost use Rattle.rg_mem.specs.Shown.{contents_left};
    ghost use Rattle.rg_mem.specs.Shown.{IsFresh, HoldsPages, Keeps, KeepsAs};

    /// A volume of zero pages, with room for so many calls and writes. After `stop` calls all fail,
    /// and leave the old content to a read.
    pub fn new(
        alloc: Global,
        log: u32,
        first: u32,
        second: u32,
        calls: u32,
        writes: u32,
        failing: &[Failing],
        stop: Option<u64>,
    ) -> Result<MemVolume, NoMemory>
        ensures capacities { IfOk result
            (λ v. capacities_of v ≡ record { log = log; first = first; second = second }) }
        ensures fresh { IfOk result IsFresh }
        ensures keeps { IfOk result (Keeps calls writes failing.now stop) }
        ensures zero { IfOk result (λ v. HoldsPages v (λ set page. zero_page)) }
    {
        Ok(MemVolume {
            log: zero_pages(alloc, log)?,
            first: zero_pages(alloc, first)?,
            second: zero_pages(alloc, second)?,
            calls: Vec::with_capacity(alloc, calls as usize)?,
            writes: Vec::with_capacity(alloc, writes as usize)?,
            past: 0,
            failing: failing.to_vec(alloc)?,
            stop,
            faults: 0,
        })
    }

    /// What a crash leaves: a volume of the same room without failing calls. Page p holds, of the
    /// contents that a crash may leave it, numbered from 0 with the oldest first, the one numbered
    /// `pick + p`, counted round.
    pub fn crash(&self, pick: u64) -> Result<MemVolume, NoMemory>
        ensures capacities { IfOk result (λ v. capacities_of v ≡ capacities_of self.now) }
        ensures fresh { IfOk result IsFresh }
        ensures keeps { IfOk result
            (Keeps (vec_capacity self.now.calls) (vec_capacity self.now.writes) [] None) }
        ensures picked { IfOk result
            (λ v. HoldsPages v (λ set page.
            content_at (contents_left self.now set page) (pick + page))) }
        ensures image { IfOk result (λ v. IsImage (shown self.now) (shown v).first) }
    {
        let alloc = *self.calls.allocator();
        Ok(MemVolume {
            log: self.picked(alloc, Set::Log, pick)?,
            first: self.picked(alloc, Set::First, pick)?,
            second: self.picked(alloc, Set::Second, pick)?,
            calls: Vec::with_capacity(alloc, self.calls.capacity())?,
            writes: Vec::with_capacity(alloc, self.writes.capacity())?,
            past: 0,
            failing: Vec::new(alloc),
            stop: None,
            faults: 0,
        })
    }

    /// What a crash leaves: a volume of the same room without failing calls. The pages of set Log,
    /// of First and of Second stand in this order, and the n-th of them holds, of the contents that
    /// a crash may leave it, numbered from 0 with the oldest first, the one numbered by the n-th of
    /// `picks`, counted round. A page without a pick holds the oldest. So each image that a crash
    /// may leave comes of some picks.
    pub fn crash_with(&self, picks: &[u64]) -> Result<MemVolume, NoMemory>
        ensures capacities { IfOk result (λ v. capacities_of v ≡ capacities_of self.now) }
        ensures fresh { IfOk result IsFresh }
        ensures keeps { IfOk result
            (Keeps (vec_capacity self.now.calls) (vec_capacity self.now.writes) [] None) }
        ensures picked { IfOk result (λ v. HoldsPages v (λ set page.
            content_at (contents_left self.now set page)
            (pick_at picks.now (page_index (capacities_of self.now) set page)))) }
        ensures image { IfOk result (λ v. IsImage (shown self.now) (shown v).first) }
    {
        let alloc = *self.calls.allocator();
        let first = self.log.len();
        let second = first + self.first.len();
        Ok(MemVolume {
            log: self.picked_from(alloc, Set::Log, picks, 0)?,
            first: self.picked_from(alloc, Set::First, picks, first)?,
            second: self.picked_from(alloc, Set::Second, picks, second)?,
            calls: Vec::with_capacity(alloc, self.calls.capacity())?,
            writes: Vec::with_capacity(alloc, self.writes.capacity())?,
            past: 0,
            failing: Vec::new(alloc),
            stop: None,
            faults: 0,
        })
    }

    // The pages of a set that a crash leaves, by the picks from a place on.
    fn picked_from(
        &self,
        alloc: Global,
        set: Set,
        picks: &[u64],
        start: usize,
    ) -> Result<Vec<Page>, NoMemory>
        requires { start < 2 ^ 33 }
        ensures len { IfOk result
            (λ pages. length pages.items ≡ capacity_of (capacities_of self.now) set) }
        ensures whole { IfOk result (λ pages. All (λ page. length page ≡ 4096) pages.items) }
        ensures each { IfOk result (λ pages. (page : ℕ) → IsPage (capacities_of self.now) set page →
            slice_index_or pages.items (page - 1) []
            ≡ content_at (contents_left self.now set page)
            (pick_at picks.now (start + (page - 1)))) }
    {
        let mut pages = Vec::new(alloc);
        for n in 0..self.capacity(set) {
            let number = pick_at(picks, start + n as usize);
            pages.push(self.pick(alloc, set, n + 1, number as u128)?)?;
        }
        Ok(pages)
    }

    // The pages of a set that a crash leaves.
    fn picked(&self, alloc: Global, set: Set, pick: u64) -> Result<Vec<Page>, NoMemory>
        ensures len { IfOk result
            (λ pages. length pages.items ≡ capacity_of (capacities_of self.now) set) }
        ensures whole { IfOk result (λ pages. All (λ page. length page ≡ 4096) pages.items) }
        ensures each { IfOk result (λ pages. (page : ℕ) → IsPage (capacities_of self.now) set page →
            slice_index_or pages.items (page - 1) []
            ≡ content_at (contents_left self.now set page) (pick + page)) }
    {
        let mut pages = Vec::new(alloc);
        for n in 0..self.capacity(set) {
            let page = n + 1;
            pages.push(self.pick(alloc, set, page, pick as u128 + page as u128)?)?;
        }
        Ok(pages)
    }

    // Of the contents that a crash may leave a page, the one with this number, counted round.
    fn pick(&self, alloc: Global, set: Set, page: u32, number: u128) -> Result<Page, NoMemory>
        requires { IsPage (capacities_of self.now) set page }
        ensures { IfOk result
            (λ bytes. bytes ≡ content_at (contents_left self.now set page) number) }
    {
        let left = self.left(alloc, set, page)?;
        let n = number % left.len() as u128;
        Ok(left[n as usize])
    }

    // The page as it reads: the newest write that a read gives, or the content from the beginning.
    fn content(&self, set: Set, page: u32) -> &Page
        requires { IsPage (capacities_of self.now) set page }
        ensures { result.now
            ≡ read_of (image_of self.now.log.items self.now.first.items self.now.second.items)
            (calls_of self.now.writes.items self.now.calls.items) set page }
    {
        let mut n = self.calls.len();
        while n > 0 {
            n -= 1;
            match self.calls[n] {
                Noted::Wrote {
                    set: s,
                    page: p,
                    at,
                }
                | Noted::FailedWrite {
                    set: s,
                    page: p,
                    at,
                    reads: true,
                } => {
                    if s == set && p == page {
                        return &self.writes[at];
                    }
                }
                _ => {}
            }
        }
        match set {
            Set::Log => &self.log[page as usize - 1],
            Set::First => &self.first[page as usize - 1],
            Set::Second => &self.second[page as usize - 1],
        }
    }

    // The contents that a crash may leave a page, the oldest first.
    fn left(&self, alloc: Global, set: Set, page: u32) -> Result<Vec<Page>, NoMemory>
        requires { IsPage (capacities_of self.now) set page }
        ensures left { IfOk result (λ left. left.items ≡ left_of
            (image_of self.now.log.items self.now.first.items self.now.second.items)
            (calls_of self.now.writes.items self.now.calls.items) set page) }
        ensures some { IfOk result (λ left. 0 < vec_len left) }
    {
        let mut read = match set {
            Set::Log => self.log[page as usize - 1],
            Set::First => self.first[page as usize - 1],
            Set::Second => self.second[page as usize - 1],
        };
        let mut left = Vec::new(alloc);
        left.push(read)?;
        for call in &self.calls {
            self.follow(call, set, page, &mut left, &mut read)?;
        }
        Ok(left)
    }

    // What one more call makes of the contents that a crash may leave, and of the one that reads.
    fn follow(
        &self,
        call: &Noted,
        set: Set,
        page: u32,
        left: &mut Vec<Page>,
        read: &mut Page,
    ) -> Result<(), NoMemory>
        requires { writes_needed call.now ≤ length self.now.writes.items }
        ensures left { OnOk result
            (left.new.items
            ≡ left_after (effect_of (call_of self.now.writes.items call.now)) left.old.items
            read.old set page) }
        ensures read { OnOk result
            (read.new
            ≡ read_after (effect_of (call_of self.now.writes.items call.now)) read.old set page) }
    {
        match call {
            Noted::Wrote {
                set: s,
                page: p,
                at,
            } => {
                if *s == set && *p == page {
                    left.push(self.writes[*at])?;
                    *read = self.writes[*at];
                }
                Ok(())
            }
            Noted::FailedWrite {
                set: s,
                page: p,
                at,
                reads,
            } => {
                if *s == set && *p == page {
                    left.push(self.writes[*at])?;
                    if *reads {
                        *read = self.writes[*at];
                    }
                }
                Ok(())
            }
            Noted::Synced => {
                left.clear();
                left.push(*read)?;
                Ok(())
            }
            Noted::Read | Noted::FailedRead | Noted::FailedSync => Ok(()),
        }
    }

    // There is room for one more call.
    fn has_room(&self) -> bool
        ensures room { IsTrue result
            ↔ ((self.now.past ≡ 0) × (vec_len self.now.calls < vec_capacity self.now.calls)) }
        ensures value { result ≡ has_room self.now }
    {
        self.past == 0 && self.calls.len() < self.calls.capacity()
    }

    // How the next call is to fail, if it is.
    fn fault(&self) -> Option<Failing>
        ensures { result ≡ fault_of self.now }
    {
        let number = self.calls.len() as u64 + 1;
        match self.stop {
            Some(last) if last < number => Some(Failing {
                call: number,
                written: false,
            }),
            _ => failing_at(&self.failing, number),
        }
    }

    // Keeps a call that writes nothing new.
    fn note(&mut self, call: Noted)
        requires past { self.old.past ≡ 0 }
        requires room { vec_len self.old.calls < vec_capacity self.old.calls }
        requires there { writes_needed call ≤ length self.old.writes.items }
        ensures made { Made (told_of self.old) (call_of self.old.writes.items call)
            (told_of self.new) }
        ensures capacities { capacities_of self.new ≡ capacities_of self.old }
        ensures keeps { KeepsAs self.old self.new }
        ensures faults { self.new.faults
            ≡ (if is_failed_note call then count_after self.old.faults else self.old.faults) }
    {
        if call.is_failed() {
            self.faults = self.faults.saturating_add(1);
        }
        self.calls.push_reserved(call);
    }

    // Keeps a write with its bytes.
    fn note_write(&mut self, set: Set, page: u32, from: &Page, fault: Option<Failing>)
        requires past { self.old.past ≡ 0 }
        requires room { vec_len self.old.calls < vec_capacity self.old.calls }
        requires write_room { vec_len self.old.writes < vec_capacity self.old.writes }
        ensures made { Made (told_of self.old) (write_call set page from.now fault)
            (told_of self.new) }
        ensures capacities { capacities_of self.new ≡ capacities_of self.old }
        ensures keeps { KeepsAs self.old self.new }
        ensures faults { self.new.faults
            ≡ (if is_some fault then count_after self.old.faults else self.old.faults) }
    {
        let at = self.writes.len();
        if fault.is_some() {
            self.faults = self.faults.saturating_add(1);
        }
        self.writes.push_reserved(*from);
        self.calls.push_reserved(noted_write(set, page, at, fault));
    }

    // A call past the room.
    fn refuse(&mut self)
        ensures made { Made (told_of self.old) Refused (told_of self.new) }
        ensures capacities { capacities_of self.new ≡ capacities_of self.old }
        ensures keeps { KeepsAs self.old self.new }
        ensures later { self.old.faults ≤ self.new.faults }
        ensures count { self.new.faults ≡ count_after self.old.faults }
        ensures rose { Rose self.old.faults self.new.faults }
    {
        self.faults = self.faults.saturating_add(1);
        if self.past < u64::MAX {
            self.past += 1;
        }
    }
}

impl Volume for MemVolume {
    ghost use Rattle.rg_outside.specs.Calls.{read_of};
    ghost use Rattle.rg_outside.specs.Capacities.{IsPage};
    ghost use Rattle.rg_outside.specs.Faults.{HasCause};
    ghost use Rattle.rg_outside.specs.Made.{Made, MadeRead, MadeWrite, MadeSync};
    ghost use Rattle.rg_outside.specs.Moments.{IfTold};
    ghost use Rattle.rg_mem.specs.Shown.{capacities_of, told_of, seen_of, own_capacities};
    ghost use Rattle.rg_mem.specs.Shown.{next_read};
    ghost use Rattle.rg_mem.specs.Failed.{own_faults};
    ghost use Rattle.rg_mem.specs.Whole.{own_pages};
    ghost use Rattle.rg_mem.specs.Shown.{next_write, next_sync, fails, write_fails, KeepsAs};

    ghost seen = { seen_of };

    fn capacity(&self, set: Set) -> u32 {
        match set {
            Set::Log => self.log.len() as u32,
            Set::First => self.first.len() as u32,
            Set::Second => self.second.len() as u32,
        }
    }

    fn read(&mut self, set: Set, page: u32, into: &mut Page) -> Result<(), Failed>
        requires { IsPage (capacities_of self.old) set page }
        ensures call { Made (told_of self.old) (next_read self.old) (told_of self.new) }
        ensures made { MadeRead result (told_of self.old) (told_of self.new) }
        ensures content { OnOk result
            (IfTold (told_of self.new) (λ t. into.new ≡ read_of t.first t.calls set page)) }
        ensures kept { OnErr result (into.new ≡ into.old) }
        ensures capacities { capacities_of self.new ≡ capacities_of self.old }
        ensures keeps { KeepsAs self.old self.new }
        ensures count { self.new.faults
            ≡ (if is_err result then count_after self.old.faults else self.old.faults) }
        ensures cause { HasCause self.old.faults self.new.faults result }
        ensures exact { is_err result ≡ fails self.old }
    {
        if !self.has_room() {
            self.refuse();
            return Err(Failed);
        }
        if self.fault().is_some() {
            self.note(Noted::FailedRead);
            return Err(Failed);
        }
        *into = *self.content(set, page);
        self.note(Noted::Read);
        Ok(())
    }

    fn write(&mut self, set: Set, page: u32, from: &Page) -> Result<(), Failed>
        requires { IsPage (capacities_of self.old) set page }
        ensures call { Made (told_of self.old) (next_write self.old set page from.now)
            (told_of self.new) }
        ensures made { MadeWrite result (told_of self.old) set page from.now (told_of self.new) }
        ensures capacities { capacities_of self.new ≡ capacities_of self.old }
        ensures keeps { KeepsAs self.old self.new }
        ensures count { self.new.faults
            ≡ (if is_err result then count_after self.old.faults else self.old.faults) }
        ensures cause { HasCause self.old.faults self.new.faults result }
        ensures exact { is_err result ≡ write_fails self.old }
    {
        if !self.has_room() || self.writes.len() >= self.writes.capacity() {
            self.refuse();
            return Err(Failed);
        }
        let fault = self.fault();
        self.note_write(set, page, from, fault);
        if fault.is_some() {
            return Err(Failed);
        }
        Ok(())
    }

    fn sync(&mut self) -> Result<(), Failed>
        ensures call { Made (told_of self.old) (next_sync self.old) (told_of self.new) }
        ensures made { MadeSync result (told_of self.old) (told_of self.new) }
        ensures capacities { capacities_of self.new ≡ capacities_of self.old }
        ensures keeps { KeepsAs self.old self.new }
        ensures count { self.new.faults
            ≡ (if is_err result then count_after self.old.faults else self.old.faults) }
        ensures cause { HasCause self.old.faults self.new.faults result }
        ensures exact { is_err result ≡ fails self.old }
    {
        if !self.has_room() {
            self.refuse();
            return Err(Failed);
        }
        if self.fault().is_some() {
            self.note(Noted::FailedSync);
            return Err(Failed);
        }
        self.note(Noted::Synced);
        Ok(())
    }

    ghost told_capacities = { own_capacities };

    ghost told_faults = { own_faults };

    ghost whole_pages = { own_pages };
}

fn zero_pages(alloc: Global, count: u32) -> Result<Vec<Page>, NoMemory>
    ensures len { IfOk result (λ pages. length pages.items ≡ count) }
    ensures whole { IfOk result (λ pages. All (λ page. length page ≡ 4096) pages.items) }
    ensures zero { IfOk result
        (λ pages. (n : ℕ) → n < count → slice_index_or pages.items n [] ≡ zero_page) }
{
    let mut pages = Vec::new(alloc);
    for _ in 0..count {
        pages.push([0; 4096])?;
    }
    Ok(pages)
}

// The pick with this number, or 0 past the picks.
fn pick_at(picks: &[u64], n: usize) -> u64
    ensures { result ≡ pick_at picks.now n }
{
    match picks.get(n) {
        Some(pick) => *pick,
        None => 0,
    }
}

fn failing_at(failing: &[Failing], number: u64) -> Option<Failing>
    ensures { result ≡ find (λ f. f.call == number) failing.now }
{
    failing.iter().copied().find(|f| f.call == number)
}

fn noted_write(set: Set, page: u32, at: usize, fault: Option<Failing>) -> Noted
    ensures { result ≡ noted_write set page at fault }
{
    match fault {
        None => Noted::Wrote { set, page, at },
        Some(failing) => Noted::FailedWrite {
            set,
            page,
            at,
            reads: failing.written,
        },
    }
}
