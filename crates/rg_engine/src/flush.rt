// The write of a page.
//
// 1. A page is clean where it was read as it is, or was written so by a call that succeeded. Its
//    mark is then its position.
// 2. The least page that is not clean is written. The log is forced first, where the page's
//    position is not forced yet: no page is on the volume before the records that made it.
// 3. A mark is set once the page was written, and never where a call failed.
ghost use Rattle.std.specs.Prelude.{◌≡◌, ◌≤◌, ℕ, OnErr, OnOk, length};
ghost use Rattle.rg_log.specs.Kept.{log_pages};
ghost use Rattle.rg_outside.specs.Faults.{Rose};
ghost use Rattle.rg_page.specs.Content.{Content, content_at};
ghost use Rattle.rg_laws_crash.specs.PageVersions.Versions.{Spells};
ghost use Rattle.rg_engine.specs.Engine.{HasPages, seen_in};
ghost use Rattle.rg_engine.specs.Flushed.{Flushes, ForcesLog};
ghost use Rattle.rg_engine.specs.OnVolume.{IsLeastDirty, IsNextDirty, IsOnVolume, is_clean};
ghost use Rattle.rg_engine.specs.OnVolume.{mark_at};
ghost use Rattle.rg_engine.specs.Volume.{HasCalls};
ghost use Rattle.rg_engine.specs.Wrote.{SameEngine};

use crate::engine::Engine;
use rg_base::copy::TableCopy;
use rg_base::no_memory::NoMemory;
use rg_base::note::note;
use rg_base::position::Position;
use rg_log::fault::Device;
use rg_outside::volume::Volume;
use rg_record::buffer::PAGE_SIZE;
use rg_stmt::event::Event;

// The mark of a page, if it has one.
fn mark_of(marks: &[Option<Position>], number: u32) -> Option<Position>
    requires { 1 ≤ number }
    ensures { result ≡ mark_at marks.now number }
{
    let index = number as usize - 1;
    if index < marks.len() {
        return marks[index];
    }
    None
}

// Whether a page of this position is clean.
fn is_clean(mark: Option<Position>, position: Position) -> bool
    ensures { (x : Content) → x.position ≡ position.0 → result ≡ is_clean mark x }
{
    match mark {
        Some(mark) => mark.0 == position.0,
        None => false,
    }
}

// Room for the mark of a page.
fn make_room(marks: &mut Vec<Option<Position>>, number: u32) -> Result<(), NoMemory>
    ensures room { OnOk result (number ≤ length marks.new.items) }
    ensures same { (p : ℕ) → 1 ≤ p → mark_at marks.new.items p ≡ mark_at marks.old.items p }
{
    while marks.len() < number as usize {
        marks.push(None)?;
    }
    Ok(())
}

// Sets the mark of a page, for which there is room, or takes it away.
fn set_mark(marks: &mut Vec<Option<Position>>, number: u32, mark: Option<Position>)
    requires low { 1 ≤ number }
    requires room { number ≤ length marks.old.items }
    ensures here { mark_at marks.new.items number ≡ mark }
    ensures others { (p : ℕ) → 1 ≤ p → (p ≡ number → ⊥)
        → mark_at marks.new.items p ≡ mark_at marks.old.items p }
    ensures room { length marks.new.items ≡ length marks.old.items }
{
    marks[number as usize - 1] = mark;
}

impl Engine {
    // The position of a page.
    fn position_of(&mut self, number: u32) -> Position
        requires low { 1 ≤ number }
        requires high { number ≤ length (seen_in self.old).pages }
        requires pages { HasPages self.old }
        ensures same { SameEngine self.old self.new }
        ensures position { result.0 ≡ (content_at (seen_in self.old).pages number).position }
    {
        match self.space.page(number) {
            Ok(page) => page.position(),
            Err(_) => unreachable!(),
        }
    }

    // Spells a page, and answers its position.
    fn spell(&mut self, number: u32, into: &mut [u8; PAGE_SIZE]) -> Position
        requires low { 1 ≤ number }
        requires high { number ≤ length (seen_in self.old).pages }
        requires pages { HasPages self.old }
        ensures same { SameEngine self.old self.new }
        ensures position { result.0 ≡ (content_at (seen_in self.old).pages number).position }
        ensures spells { Spells into.new (content_at (seen_in self.old).pages number) }
    {
        match self.space.page(number) {
            Ok(page) => {
                page.write_into(into);
                page.position()
            }
            Err(_) => unreachable!(),
        }
    }

    // The least page that is not clean.
    fn next_dirty(&mut self, marks: &[Option<Position>]) -> Option<u32>
        requires pages { HasPages self.old }
        ensures same { SameEngine self.old self.new }
        ensures next { IsNextDirty (seen_in self.old).pages marks.now result }
    {
        let count = self.space.count();
        for before in 0..count {
            let number = before + 1;
            let position = self.position_of(number);
            if !is_clean(mark_of(marks, number), position) {
                return Some(number);
            }
        }
        None
    }

    /// Forces the log, where it is not forced up to this position.
    pub fn force_to<V: Volume>(&mut self, volume: &mut V, position: Position) -> Result<(), Device>
        requires high { position.0 ≤ length self.old.log.records }
        requires pages { self.old.log.pages ≡ log_pages (V.seen volume.old).capacities }
        ensures forces { ForcesLog (V.seen volume.old) (V.seen volume.new) self.old self.new }
        ensures ok { OnOk result (position.0 ≤ self.new.log.forced) }
        ensures cause { OnErr result (Rose (V.seen volume.old).faults (V.seen volume.new).faults) }
    {
        if position.0 <= self.log.forced().0 {
            return Ok(());
        }
        let forced = self.log.force(volume);
        // That no more is forced than there is: a caller needs it where the call failed, too.
        note(&self.log.forced());
        forced
    }

    // Writes a page that is not clean, which has room for its mark. The page has no mark until it
    // is written: what a write that failed leaves of it is not known.
    fn write_page<V: Volume>(
        &mut self,
        marks: &mut Vec<Option<Position>>,
        volume: &mut V,
        copy: TableCopy,
        number: u32,
    ) -> Event
        requires pages { HasPages self.old }
        requires set { self.old.log.pages ≡ log_pages (V.seen volume.old).capacities }
        requires counted { HasCalls (V.seen volume.old) 0 }
        requires is_on { IsOnVolume copy self.old.log self.old.space marks.old.items
            (V.seen volume.old) }
        requires dirty { IsLeastDirty (seen_in self.old).pages marks.old.items number }
        requires room { number ≤ length marks.old.items }
        ensures { Flushes copy marks.old.items marks.new.items
            (V.seen volume.old) (V.seen volume.new) self.old result self.new }
    {
        let mut bytes = [0; PAGE_SIZE];
        let position = self.spell(number, &mut bytes);
        match self.force_to(volume, position) {
            Ok(()) => {}
            Err(_) => return Event::FlushDevice,
        }
        set_mark(marks, number, None);
        match volume.write(copy.set(), number, &bytes) {
            Ok(()) => {}
            Err(_) => return Event::FlushDevice,
        }
        set_mark(marks, number, Some(position));
        Event::Flush { page: number }
    }

    /// Writes the least page that is not clean, if there is one, to the set of the copy.
    pub fn flush<V: Volume>(
        &mut self,
        marks: &mut Vec<Option<Position>>,
        volume: &mut V,
        copy: TableCopy,
    ) -> Event
        requires pages { HasPages self.old }
        requires set { self.old.log.pages ≡ log_pages (V.seen volume.old).capacities }
        requires counted { HasCalls (V.seen volume.old) 0 }
        requires is_on { IsOnVolume copy self.old.log self.old.space marks.old.items
            (V.seen volume.old) }
        ensures { Flushes copy marks.old.items marks.new.items
            (V.seen volume.old) (V.seen volume.new) self.old result self.new }
    {
        let Some(number) = self.next_dirty(marks.as_slice()) else {
            // That no more is forced than there is: what is clean reads as all records make it.
            note(&self.log.forced());
            return Event::Clean;
        };
        match make_room(marks, number) {
            Ok(()) => self.write_page(marks, volume, copy, number),
            Err(_) => Event::FlushNoMemory,
        }
    }
}
