// Empty pages, and the number of all pages.
//
// 1. Where FREEPAGE is n above 0, an empty page follows each n filled ones. It is added where the
//    next page is filled, or at the end.
ghost use Rattle.std.specs.Prelude.{◌≡◌, ◌≤◌, ◌^◌, [], List, length, OnOk};
ghost use Rattle.rg_model.specs.Packed.{page_count};
ghost use Rattle.rg_reload.specs.Moved.{Moved};
ghost use Rattle.rg_reload.specs.Pages.{HasRows};

use rg_base::copy::TableCopy;
use rg_base::no_memory::NoMemory;
use rg_page::frames::Frames;
use rg_page::list::ListFrames;
use rg_page::page::Page;
use std::alloc::Global;

/// How many pages there are where `filled` are filled, the empty ones included.
pub fn count_pages(freepage: u8, filled: u64) -> u64
    requires { filled ≤ 2 ^ 32 }
    ensures { result ≡ page_count freepage filled }
{
    if freepage == 0 {
        filled
    } else {
        filled + filled / freepage as u64
    }
}

/// Adds empty pages of this copy until there are `count` pages.
pub fn add_empty(
    alloc: Global,
    frames: &mut ListFrames,
    copy: TableCopy,
    count: u32,
) -> Result<(), NoMemory>
    requires copy { frames.old.copy ≡ copy }
    requires reserved { frames.old.reserved.items ≡ [] }
    requires few { length frames.old.pages.items ≤ count }
    ensures count { OnOk result (length frames.new.pages.items ≡ count) }
    ensures rows { (rows : List Moved) → HasRows frames.old.pages.items rows
        → HasRows frames.new.pages.items rows }
    ensures copy_same { frames.new.copy ≡ copy }
    ensures reserved { frames.new.reserved.items ≡ [] }
{
    while frames.count() < count {
        let page = Page::new(alloc, copy, frames.count() + 1)?;
        frames.push(page)?;
    }
    Ok(())
}
