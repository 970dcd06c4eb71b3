// The pages of a space in memory, as they go to a volume.
//
// 1. A page is stamped before it is spelled: its bytes have the position that it is given.
// 2. A stamp changes no slot, so the summaries agree with the pages as before.
// 3. A page in memory is always at hand. So a spelling takes no memory and is never refused.
ghost use Rattle.std.specs.Prelude.{◌≡◌, ◌≤◌, length};
ghost use Rattle.rg_page.specs.Content.{content_at};
ghost use Rattle.rg_page.specs.Bytes.Content.{FitsPage};
ghost use Rattle.rg_page.specs.Bytes.PageBytes.{page_bytes};
ghost use Rattle.rg_shadow.specs.Planned.{HasPages, SameSpace, Stamps, pages_in};

use rg_base::position::Position;
use rg_page::list::ListFrames;
use rg_record::buffer::PAGE_SIZE;
use rg_space::space::Space;

// Gives a page a position.
fn stamp(space: &mut Space<ListFrames>, number: u32, at: Position)
    requires has { HasPages space.old }
    requires low { 1 ≤ number }
    requires high { number ≤ length (pages_in space.old) }
    ensures has { HasPages space.new }
    ensures stamps { Stamps number at.0 space.old space.new }
{
    space.frames().stamp(number, at);
}

// Writes the bytes of a page.
fn write_page(space: &mut Space<ListFrames>, number: u32, into: &mut [u8; PAGE_SIZE])
    requires has { HasPages space.old }
    requires low { 1 ≤ number }
    requires high { number ≤ length (pages_in space.old) }
    ensures has { HasPages space.new }
    ensures same { SameSpace space.old space.new }
    ensures bytes { into.new ≡ page_bytes (content_at (pages_in space.new) number) }
    ensures fits { FitsPage (content_at (pages_in space.new) number) }
{
    match space.page(number) {
        Ok(page) => page.write_into(into),
        Err(_) => unreachable!(),
    }
}

/// Gives a page a position, and writes its bytes.
pub fn spell(space: &mut Space<ListFrames>, number: u32, at: Position, into: &mut [u8; PAGE_SIZE])
    requires has { HasPages space.old }
    requires low { 1 ≤ number }
    requires high { number ≤ length (pages_in space.old) }
    ensures has { HasPages space.new }
    ensures stamps { Stamps number at.0 space.old space.new }
    ensures bytes { into.new ≡ page_bytes (content_at (pages_in space.new) number) }
    ensures fits { FitsPage (content_at (pages_in space.new) number) }
{
    stamp(space, number, at);
    write_page(space, number, into);
}
