// Summaries of all pages, in the order of the pages.
//
// 1. For each 256 pages there is a number, and the ceiling of none of them is above it. So pages
//    that cannot take an area are passed over, 256 at a time.
// 2. Room for a page more is made first. Adding the page then takes no memory.
ghost use Rattle.std.specs.Prelude.{◌≡◌, ◌≤◌, ◌<◌, ◌+◌, ◌*◌, ◌^◌, ℕ, [], ◌++◌, ◌∷◌, ◌↔◌, IsSome};
ghost use Rattle.std.specs.Prelude.{IfSome, IfNone, OnOk, OnErr, length, slice_index_or, vec_len};
ghost use Rattle.std.specs.Prelude.{vec_capacity};
ghost use Rattle.rg_home.specs.Slots.{placed, Fits};
ghost use Rattle.rg_home.specs.Pages.{page_at, wrote};
ghost use Rattle.rg_home.specs.Plan.{admits, first_page};
ghost use Rattle.rg_page.specs.Ceiling.{ceiling};
ghost use Rattle.rg_page.specs.Bare.{numbers_of};
ghost use Rattle.rg_space.specs.Summarized.{HasRoom};
ghost use Rattle.rg_space.specs.Tops.{Bounds, Raised};

use rg_base::no_memory::NoMemory;
use rg_base::place::Place;
use rg_base::tran::Tran;
use rg_page::areas::push_within;
use rg_page::header::Header;
use rg_page::summary::Summary;
use std::alloc::Global;
use std::marker::Model;

const BLOCK: usize = 256;

/// The summaries of all pages. It finds the first page that admits an area without reading one. It
/// is seen as the headers of each page, and how many pages more it has room for.
#[derive(Drop)]
pub struct Summaries {
    pages: Vec<Summary>,
    tops: Vec<u16>,
    spare: Vec<Summary>,
}

impl Model for Summaries {
    ghost use Rattle.std.specs.Prelude.{length};
    ghost use Rattle.rg_space.specs.Summarized.{Summarized};

    ghost Value = { Summarized };

    ghost use Rattle.rg_space.specs.Tops.{AreSummaries};

    ghost view = { λ x. record { pages = x.pages.items; room = length x.spare.items } };

    ghost invariant = { λ x. AreSummaries x.pages x.tops x.spare };
}

impl Summaries {
    pub fn new(alloc: Global) -> Summaries
        ensures { result ≡ record { pages = []; room = 0 } }
    {
        Summaries {
            pages: Vec::new(alloc),
            tops: Vec::new(alloc),
            spare: Vec::new(alloc),
        }
    }

    pub fn len(&self) -> u32
        ensures { result ≡ length self.now.pages }
    {
        self.pages.len() as u32
    }

    /// How many pages more there is room for.
    pub fn room(&self) -> usize
        ensures { result ≡ self.now.room }
    {
        self.spare.len()
    }

    /// The summary of the page of this number, from 1, if there is one.
    pub fn page(&self, number: u32) -> Option<&Summary>
        ensures page { IfSome result (λ page. page.now ≡ page_at self.now.pages number) }
        ensures some { IsSome result ↔ ((1 ≤ number) × (number ≤ length self.now.pages)) }
        ensures none { IfNone result (page_at self.now.pages number ≡ []) }
        ensures few { length self.now.pages < 2 ^ 32 }
    {
        let pages = self.pages.as_slice();
        if number == 0 {
            return None;
        }
        pages.get(number as usize - 1)
    }

    /// The number of the first page, from 0, that admits a new area, else the number of pages.
    pub fn first(&self, live: &[Tran], b: u16) -> u32
        requires some { 1 ≤ b }
        requires size { b ≤ 826 }
        ensures { result ≡ first_page (numbers_of live.now) b self.now.pages }
    {
        let count = self.pages.len();
        let mut i = 0;
        while i < count {
            let block = i / BLOCK;
            if self.tops[block] < b + 18 {
                i = (block + 1) * BLOCK;
            } else if self.pages[i].admits(live, b) {
                return i as u32;
            } else {
                i += 1;
            }
        }
        count as u32
    }

    /// Makes room for one page more.
    pub fn reserve(&mut self, alloc: Global) -> Result<(), NoMemory>
        requires { length self.old.pages + self.old.room + 1 < 2 ^ 32 }
        ensures ok { OnOk result (self.new ≡ record self.old { room = self.old.room + 1 }) }
        ensures err { OnErr result (self.new ≡ self.old) }
    {
        let more = self.spare.len() + 1;
        self.pages.reserve(more)?;
        self.tops.reserve(more)?;
        let summary = Summary::new(alloc)?;
        self.spare.push(summary)?;
        Ok(())
    }

    /// Gives up the room for one page.
    pub fn give_back(&mut self)
        requires { 1 ≤ self.old.room }
        ensures pages { self.new.pages ≡ self.old.pages }
        ensures room { self.new.room + 1 ≡ self.old.room }
    {
        self.spare.pop();
    }

    /// Adds an empty page at the end, in the room for it. It takes no memory.
    pub fn add(&mut self)
        requires { 1 ≤ self.old.room }
        ensures pages { self.new.pages ≡ self.old.pages ++ [] ∷ [] }
        ensures room { self.new.room + 1 ≡ self.old.room }
    {
        match self.spare.pop() {
            None => unreachable!(),
            Some(summary) => {
                append(&mut self.pages, &mut self.tops, summary);
            }
        }
    }

    /// Adds a page of this summary at the end.
    pub fn push(&mut self, alloc: Global, summary: Summary) -> Result<(), NoMemory>
        requires { length self.old.pages + self.old.room + 1 < 2 ^ 32 }
        ensures added { OnOk result (self.new ≡ record self.old {
          pages = self.old.pages ++ summary ∷ [];
        }) }
        ensures err { OnErr result (self.new.pages ≡ self.old.pages) }
    {
        self.reserve(alloc)?;
        self.spare.pop();
        append(&mut self.pages, &mut self.tops, summary);
        Ok(())
    }

    /// A slot of a page was set, if the page is there and still fits. It takes no memory.
    pub fn note(&mut self, place: Place, header: Header)
        ensures pages { HasRoom self.old.pages place header
            → self.new.pages ≡ wrote self.old.pages place header }
        ensures count { length self.new.pages ≡ length self.old.pages }
        ensures room { self.new.room ≡ self.old.room }
    {
        let fits = match self.page(place.page) {
            None => false,
            Some(summary) => summary.fits(place.slot, &header),
        };
        if fits {
            self.set(place, header);
        }
    }

    /// A slot of a page was set. It takes no memory.
    pub fn set(&mut self, place: Place, header: Header)
        requires low { 1 ≤ place.page }
        requires high { place.page ≤ length self.old.pages }
        requires fits { Fits (placed (page_at self.old.pages place.page) place.slot header) }
        ensures pages { self.new.pages ≡ wrote self.old.pages place header }
        ensures count { length self.new.pages ≡ length self.old.pages }
        ensures room { self.new.room ≡ self.old.room }
    {
        let at = place.page as usize - 1;
        let block = at / BLOCK;
        let page = &mut self.pages[at];
        let before = page.ceiling();
        page.set(place.slot, header);
        let after = page.ceiling();
        raise(&mut self.tops, block, after);
        if after >= before {
            return;
        }
        if before < self.tops[block] {
            return;
        }
        self.tops[block] = greatest(&self.pages, block * BLOCK, (block + 1) * BLOCK);
    }
}

// Adds a page of this summary, where there is room for it and for one block more.
fn append(pages: &mut Vec<Summary>, tops: &mut Vec<u16>, summary: Summary)
    requires room { vec_len pages.old < vec_capacity pages.old }
    requires tops_room { vec_len tops.old < vec_capacity tops.old }
    requires blocks { length pages.old.items ≤ 256 * length tops.old.items }
    requires bounds { Bounds pages.old.items tops.old.items }
    ensures items { pages.new.items ≡ pages.old.items ++ summary ∷ [] }
    ensures blocks { length pages.new.items ≤ 256 * length tops.new.items }
    ensures bounds { Bounds pages.new.items tops.new.items }
    ensures tops { length tops.new.items ≤ length tops.old.items + 1 }
    ensures capacity { vec_capacity pages.old ≤ vec_capacity pages.new }
    ensures tops_capacity { vec_capacity tops.old ≤ vec_capacity tops.new }
{
    let block = pages.len() / BLOCK;
    cover(tops, block);
    raise(tops, block, summary.ceiling());
    push_within(pages, summary);
}

// Sees that there is a top for this block, which is the last one or the next.
fn cover(tops: &mut Vec<u16>, block: usize)
    requires next { block ≤ vec_len tops.old }
    requires room { vec_len tops.old < vec_capacity tops.old }
    ensures there { block < length tops.new.items }
    ensures raised { Raised tops.old.items tops.new.items }
    ensures more { length tops.old.items ≤ length tops.new.items }
    ensures most { length tops.new.items ≤ length tops.old.items + 1 }
    ensures capacity { vec_capacity tops.old ≤ vec_capacity tops.new }
{
    if block == tops.len() {
        push_within(tops, 0);
    }
}

fn raise(tops: &mut Vec<u16>, block: usize, most: u16)
    requires { block < vec_len tops.old }
    ensures count { length tops.new.items ≡ length tops.old.items }
    ensures raised { Raised tops.old.items tops.new.items }
    ensures reaches { most ≤ slice_index_or tops.new.items block 0 }
    ensures capacity { vec_capacity tops.new ≡ vec_capacity tops.old }
{
    if tops[block] < most {
        tops[block] = most;
    }
}

fn greatest(pages: &[Summary], from: usize, to: usize) -> u16
    ensures { (k : ℕ) → from ≤ k → k < to → k < length pages.now
        → ceiling (slice_index_or pages.now k []) ≤ result }
{
    let mut top = 0;
    let mut i = from;
    while i < to && i < pages.len() {
        let most = pages[i].ceiling();
        if top < most {
            top = most;
        }
        i += 1;
    }
    top
}
