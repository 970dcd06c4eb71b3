// A slot is looked at once, and what it says of a row is kept, so no page stays lent. A slot past
// the last one is Free.
ghost use Rattle.std.specs.Prelude.{◌≡◌, IfOk};
ghost use Rattle.rg_home.specs.Plan.{pointed_to};
ghost use Rattle.rg_home.specs.Slots.{slot_at};
ghost use Rattle.rg_space.specs.Glimpse.{IsGlimpse, IsValuesGlimpse};

use rg_base::no_memory::NoMemory;
use rg_base::place::Place;
use rg_base::row::Row;
use rg_base::row_bytes::{read_spelled, read_values};
use rg_base::values::Values;
use rg_page::page::Page;
use rg_page::slot::Slot;
use std::alloc::Global;

/// What a slot says of a row: the place that it points to, the row that lies there at home, and the
/// row that lies there in an Over area.
#[derive(Debug, Drop)]
pub struct Glimpse {
    pub other: Option<Place>,
    pub row: Option<Row>,
    pub moved: Option<Row>,
}

/// What slot i of a page says of a row. It takes memory for the row's text.
pub fn look_at(alloc: Global, page: &Page, i: u16) -> Result<Glimpse, NoMemory>
    ensures { IfOk result (λ seen. IsGlimpse seen (slot_at page.now.slots i)) }
{
    if i >= page.slot_count() {
        return Ok(Glimpse {
            other: None,
            row: None,
            moved: None,
        });
    }
    match page.slot(i) {
        Slot::Row { bytes, .. } => {
            let row = read_spelled(alloc, bytes)?;
            Ok(Glimpse {
                other: None,
                row: Some(row),
                moved: None,
            })
        }
        Slot::Over { bytes, .. } => {
            let row = read_spelled(alloc, bytes)?;
            Ok(Glimpse {
                other: None,
                row: None,
                moved: Some(row),
            })
        }
        Slot::Pointer { other, .. } => Ok(Glimpse {
            other: Some(other),
            row: None,
            moved: None,
        }),
        _ => Ok(Glimpse {
            other: None,
            row: None,
            moved: None,
        }),
    }
}

/// The same without the texts of rows.
#[derive(Clone, Copy, Debug)]
pub struct ValuesGlimpse {
    pub other: Option<Place>,
    pub values: Option<Values>,
    pub moved: Option<Values>,
}

/// What slot i of a page says of a row, without its text. It takes no memory.
pub fn look_at_values(page: &Page, i: u16) -> ValuesGlimpse
    ensures { IsValuesGlimpse result (slot_at page.now.slots i) }
{
    let mut seen = ValuesGlimpse {
        other: None,
        values: None,
        moved: None,
    };
    if i >= page.slot_count() {
        return seen;
    }
    match page.slot(i) {
        Slot::Row { bytes, .. } => seen.values = Some(read_values(bytes)),
        Slot::Over { bytes, .. } => seen.moved = Some(read_values(bytes)),
        Slot::Pointer { other, .. } => seen.other = Some(other),
        _ => {}
    }
    seen
}

/// The place that slot i of a page points to, if it is a Pointer.
pub fn pointer_at(page: &Page, i: u16) -> Option<Place>
    ensures { result ≡ pointed_to (slot_at page.now.slots i) }
{
    if i >= page.slot_count() {
        return None;
    }
    match page.slot(i) {
        Slot::Pointer { other, .. } => Some(other),
        _ => None,
    }
}
