// The packer of a new copy.
//
// 1. Rows are placed in order, page by page. What stands on a page is that of `packed_rows`.
// 2. A page is filled by one call. NoSpace is found first, and changes nothing.
// 3. Out of memory leaves a packer spent: it fills no more pages.
// 4. The space of the new copy is made once every row is placed, by the call that says so.
ghost use Rattle.std.specs.Prelude.{◌≡◌, ◌≤◌, ◌<◌, ◌+◌, ◌==◌, IfOk, IfErr, OnOk, OnErr, length};
ghost use Rattle.std.specs.Prelude.{filter, map, true, false};
ghost use Rattle.std.specs.List.Sorted.{IsPermutation};
ghost use Rattle.rg_base.specs.declared.place.Place.{Place as ThePlace};
ghost use Rattle.rg_feed.specs.Fold.Fold.{row_in};
ghost use Rattle.rg_feed.specs.Fold.Lawful.{AreApart};
ghost use Rattle.rg_home.specs.Able.{Proper};
ghost use Rattle.rg_home.specs.Rows.{row_at};
ghost use Rattle.rg_home.specs.Owners.{AllBelow};
ghost use Rattle.rg_model.specs.Layout.{are_rising};
ghost use Rattle.rg_model.specs.Packed.{page_count, spots_from};
ghost use Rattle.rg_page.specs.Content.{slots_of};
ghost use Rattle.rg_reload.specs.Moved.{AreOneToOne, AreTargets, new_homes, packed_rows, pairs_of};
ghost use Rattle.rg_reload.specs.Moved.{row_through, rows_in, moved_spots, target_in};
ghost use Rattle.rg_reload.specs.Order.{IsInOrder};
ghost use Rattle.rg_reload.specs.Reloading.{Fills, GoesOn, Stops, IsCopy, space_slots};
ghost use Rattle.rg_reload.specs.Pages.{slot_with};
ghost use Rattle.rg_space.specs.Space.{frames_of};

use crate::fault::ReloadFault;
use crate::order::{drop_rows, sort_rows};
use crate::pad::{add_empty, count_pages};
use crate::page::{add_pairs, count_taken, page_with};
use crate::pairs::Pairs;
use rg_base::copy::TableCopy;
use rg_base::homes::Homes;
use rg_base::no_memory::NoMemory;
use rg_base::options::Options;
use rg_base::place::Place;
use rg_base::row::Row;
use rg_page::list::ListFrames;
use rg_space::space::Space;
use std::alloc::Global;
use std::marker::Model;
use std::mem;

/// A page that was filled: its number, and how many rows it took.
#[derive(Clone, Copy, Debug, PartialEq, Eq)]
pub struct Filled {
    pub page: u32,
    pub rows: u16,
}

/// What a packer has made: pages, or their space; nothing once it was out of memory.
#[derive(Drop)]
enum NewCopy {
    Filling(ListFrames),
    Whole(Space<ListFrames>),
    Spent,
}

/// Packs rows into a new copy, in order of clus, key and old place.
#[derive(Drop)]
pub struct Packer {
    alloc: Global,
    copy: TableCopy,
    capacity: u32,
    options: Options,
    rows: Vec<(Place, Row)>,
    count: usize,
    filled: u32,
    pairs: Vec<(Place, Place)>,
    made: NewCopy,
}

impl Model for Packer {
    ghost use Rattle.rg_reload.specs.Reloading.{Reloading, IsReloading, reloading_at};

    ghost Value = { Reloading };

    ghost view = { λ p. reloading_at p.copy p.capacity p.options p.rows.items p.count p.filled
        p.made };

    ghost invariant = { λ p. IsReloading (reloading_at p.copy p.capacity p.options p.rows.items
        p.count p.filled p.made) p.pairs p.made };
}

impl Packer {
    /// A packer of these rows, with the places of their homes in the old copy. The new copy may
    /// have `capacity` pages.
    pub fn new(
        alloc: Global,
        copy: TableCopy,
        rows: Homes,
        options: &Options,
        capacity: u32,
    ) -> Result<Packer, NoMemory>
        requires { AreApart rows }
        ensures rows { IfOk result (λ packer. IsPermutation rows packer.rows) }
        ensures order { IfOk result (λ packer. IsInOrder packer.rows) }
        ensures start { IfOk result (λ packer. packer ≡ record {
          copy = copy;
          capacity = capacity;
          options = options.now;
          rows = packer.rows;
          count = 0;
          filled = 0;
          whole = false;
          spent = false;
        }) }
    {
        let mut rows = rows.into_vec();
        sort_rows(&mut rows);
        let pairs = Vec::with_capacity(alloc, rows.len())?;
        Ok(Packer {
            alloc,
            copy,
            capacity,
            options: *options,
            rows,
            count: 0,
            filled: 0,
            pairs,
            made: NewCopy::Filling(ListFrames::new(alloc, copy)),
        })
    }

    // How many pages there are once one more is filled.
    fn next_count(&self) -> u64
        ensures { result ≡ page_count self.now.options.freepage (self.now.filled + 1) }
    {
        count_pages(self.options.freepage, self.filled as u64 + 1)
    }

    /// Fills the next page. None says that every row is placed; from then on `finish` may be
    /// called.
    pub fn next_page(&mut self) -> Result<Option<Filled>, ReloadFault>
        ensures goes { IfOk result (λ filled. GoesOn self.old filled self.new) }
        ensures stops { IfErr result (λ fault. Stops self.old fault self.new) }
        ensures spent { self.old.spent ≡ true → OnOk result ⊥ }
    {
        if self.count == self.rows.len() {
            self.close()?;
            return Ok(None);
        }
        if self.next_count() > self.capacity as u64 {
            return Err(ReloadFault::NoSpace {
                pages: self.capacity,
            });
        }
        Ok(Some(self.fill()?))
    }

    // Makes the space, unless it is there.
    fn close(&mut self) -> Result<(), NoMemory>
        requires { self.old.count ≡ length self.old.rows }
        ensures ok { OnOk result (self.new ≡ record self.old { whole = true }) }
        ensures err { OnErr result (self.new ≡ record self.old { spent = true }) }
        ensures spent { self.old.spent ≡ true → OnOk result ⊥ }
    {
        match mem::replace(&mut self.made, NewCopy::Spent) {
            NewCopy::Filling(frames) => {
                let mut frames = frames;
                let count = count_pages(self.options.freepage, self.filled as u64);
                add_empty(self.alloc, &mut frames, self.copy, count as u32)?;
                match Space::new(self.alloc, frames, self.capacity) {
                    Ok(space) => self.made = NewCopy::Whole(space),
                    // In memory nothing else is refused.
                    Err(_) => return Err(NoMemory),
                }
                Ok(())
            }
            NewCopy::Whole(space) => {
                self.made = NewCopy::Whole(space);
                Ok(())
            }
            NewCopy::Spent => Err(NoMemory),
        }
    }

    // Fills the next page, within the capacity.
    fn fill(&mut self) -> Result<Filled, NoMemory>
        requires rest { self.old.count < length self.old.rows }
        requires within { page_count self.old.options.freepage (self.old.filled + 1)
            ≤ self.old.capacity }
        ensures ok { IfOk result (λ filled. Fills self.old filled self.new) }
        ensures err { OnErr result (self.new ≡ record self.old { spent = true }) }
        ensures spent { self.old.spent ≡ true → OnOk result ⊥ }
    {
        let NewCopy::Filling(frames) = mem::replace(&mut self.made, NewCopy::Spent) else {
            return Err(NoMemory);
        };
        let mut frames = frames;
        let before = count_pages(self.options.freepage, self.filled as u64) as u32;
        add_empty(self.alloc, &mut frames, self.copy, before)?;
        let (_, left) = self.rows.split_at(self.count);
        let count = count_taken(&self.options, left);
        let (taken, _) = left.split_at(count);
        let number = before + 1;
        let page = page_with(self.alloc, self.copy, number, taken)?;
        let rows = page.slot_count();
        frames.push(page)?;
        add_pairs(&mut self.pairs, number, taken);
        self.count += count;
        self.filled += 1;
        self.made = NewCopy::Filling(frames);
        Ok(Filled { page: number, rows })
    }

    /// The space of the new copy, and the old and the new place of each row.
    pub fn finish(self) -> (Space<ListFrames>, Pairs)
        requires { self.whole ≡ true }
        ensures space { IsCopy self.copy self.capacity
            (page_count self.options.freepage self.filled) (packed_rows self.options self.rows)
            result.0 }
        // The pages and their spots are those of packed rows.
        ensures spots { moved_spots (packed_rows self.options self.rows)
            ≡ spots_from self.options 0 0 0 (rows_in self.rows) }
        ensures pages { length (frames_of result.0).pages.items
            ≡ page_count self.options.freepage (length (filter (λ spot. spot.place.slot == 0)
            (spots_from self.options 0 0 0 (rows_in self.rows)))) }
        ensures pairs { result.1 ≡ pairs_of (packed_rows self.options self.rows) }
        ensures one_to_one { AreOneToOne result.1 }
        ensures homes { AreTargets result.1 (row_at (space_slots result.0)) }
        ensures rising { are_rising (map (λ pair. pair.1) result.1) ≡ true }
        // Each row lies at home, in an area as long as it is, and nothing else is there.
        ensures slots { (place : ThePlace) → space_slots result.0 place
            ≡ slot_with (row_in (new_homes (packed_rows self.options self.rows)) place) }
        ensures proper { Proper (slots_of (frames_of result.0).pages.items) }
        // No area is dead.
        ensures below { AllBelow 0 (space_slots result.0) }
        // The old place of each row leads to the row.
        ensures rows { (place : ThePlace) → row_through (row_at (space_slots result.0))
            (target_in result.1 place) ≡ row_in self.rows place }
    {
        let Packer {
            rows,
            pairs,
            made,
            ..
        } = self;
        drop_rows(rows);
        match made {
            NewCopy::Whole(space) => (space, Pairs::new(pairs)),
            _ => unreachable!(),
        }
    }
}
