// Rows, read and compared.
ghost use Rattle.std.specs.Prelude.{◌≡◌, ◌≤◌, ◌↔◌, true, IsTrue, IfOk, IfErr};
ghost use Rattle.rg_home.specs.Rows.{row_at};
ghost use Rattle.rg_space.specs.Took.{slot_in, HasRisen};
ghost use Rattle.rg_check.specs.PageTests.Looked.{Looked};

use rg_base::place::Place;
use rg_base::row::Row;
use rg_page::frames::Frames;
use rg_space::fault::SpaceFault;
use rg_space::read::home_of;
use std::alloc::Global;

/// The rows have the same values and the same text.
pub fn is_same(a: &Row, b: &Row) -> bool
    ensures { IsTrue result ↔ (a.now ≡ b.now) }
{
    a.key == b.key && a.clus == b.clus && a.cat == b.cat && a.text.as_slice() == b.text.as_slice()
}

/// The row whose home is at this place, if there is one. All other pages are let go first.
pub fn row_of<F: Frames>(
    alloc: Global,
    frames: &mut F,
    home: Place,
) -> Result<Option<Row>, SpaceFault>
    requires idle { 2 ≤ (F.seen frames.old).idle }
    ensures row { IfOk result (λ row. row ≡ row_at (slot_in (F.seen frames.new)) home) }
    ensures looked { Looked (F.seen frames.old) (F.seen frames.new) }
    ensures cause { IfErr result (λ fault. HasRisen fault (F.seen frames.old) (F.seen frames.new)) }
    ensures gave { F.gave (F.seen frames.old).pages
        (F.seen frames.old).forced frames.old frames.new }
{
    frames.let_go();
    let seen = home_of(frames, alloc, home)?;
    Ok(seen.row)
}
