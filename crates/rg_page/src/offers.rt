// What a page offers a write, as its summary tells.
//
// 1. An area goes to the lowest Free slot, else to a new one.
// 2. A page is purged only where it would not do as it stands. Then all dead areas go whose owners
//    have ended, one part each, in the order of their slots.
ghost use Rattle.std.specs.Prelude.{◌≡◌, ◌≤◌, ◌<◌, ◌+◌, IfOk, length};
ghost use Rattle.std.specs.List.{list_any};
ghost use Rattle.rg_home.specs.Plan.{purged, takes, first_free, purge_from, area_on, fitting};
ghost use Rattle.rg_home.specs.Slots.{slot_at, is_free};
ghost use Rattle.rg_page.specs.Bare.{numbers_of};

use crate::summary::Summary;
use rg_base::no_memory::NoMemory;
use rg_base::part::{Part, SlotOp};
use rg_base::place::Place;
use rg_base::tran::Tran;
use rg_home::plan::{Area, Fitting};
use std::alloc::Global;

impl Summary {
    /// Where a new area of `b` bytes lies on this page, which is page `number` and admits it, and
    /// whether the page has to be purged first.
    pub fn area(&self, number: u32, live: &[Tran], b: u16) -> Area
        requires { b ≤ 826 }
        ensures { result ≡ area_on (numbers_of live.now) b number self.now }
    {
        if self.takes(b) {
            return Area {
                place: Place {
                    page: number,
                    slot: self.first_free(),
                },
                purges: false,
            };
        }
        Area {
            place: Place {
                page: number,
                slot: self.first_purged(live),
            },
            purges: true,
        }
    }

    /// How an area of this page, of this capacity, takes a row of `b` bytes, if it does.
    pub fn fitting(&self, live: &[Tran], capacity: u16, b: u16) -> Option<Fitting>
        ensures { result ≡ fitting (numbers_of live.now) b capacity self.now }
    {
        if b <= capacity {
            return Some(Fitting {
                capacity,
                purges: false,
            });
        }
        let growth = b - capacity;
        if growth > self.room(live) {
            return None;
        }
        Some(Fitting {
            capacity: b,
            purges: self.free() < growth,
        })
    }

    /// The parts that purge this page, which is page `number`.
    pub fn purge(&self, alloc: Global, number: u32, live: &[Tran]) -> Result<Vec<Part>, NoMemory>
        ensures { IfOk result (λ parts. parts.items
            ≡ purge_from (numbers_of live.now) number 0 self.now) }
    {
        let mut parts = Vec::new(alloc);
        for i in 0..self.len() {
            if self.header(i).is_ended(live) {
                parts.push(Part {
                    page: number,
                    slot: i,
                    op: SlotOp::Free,
                })?;
            }
        }
        Ok(parts)
    }

    fn has_gap(&self) -> bool
        ensures { result ≡ list_any is_free self.now }
    {
        for i in 0..self.len() {
            if self.header(i).is_free() {
                return true;
            }
        }
        false
    }

    // Whether the page takes a new area as it stands.
    fn takes(&self, b: u16) -> bool
        requires { b ≤ 826 }
        ensures { result ≡ takes b self.now }
    {
        if self.has_gap() {
            b <= self.free()
        } else {
            b + 18 <= self.free()
        }
    }

    fn first_free(&self) -> u16
        ensures { result ≡ first_free self.now }
    {
        let count = self.len();
        for i in 0..count {
            if self.header(i).is_free() {
                return i;
            }
        }
        count
    }

    // The first Free slot once the page is purged.
    fn first_purged(&self, live: &[Tran]) -> u16
        ensures { result ≡ first_free (purged (numbers_of live.now) self.now) }
    {
        let count = self.len();
        for i in 0..count {
            if self.header(i).goes(live) {
                return i;
            }
        }
        count
    }
}
