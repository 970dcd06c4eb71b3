// Slots without the bytes of their rows, read through frames. This takes no memory, and no page
// stays lent.
ghost use Rattle.std.specs.Prelude.{◌≡◌, ◌≤◌, true, length, IfOk, IfErr, OnOk};
ghost use Rattle.rg_home.specs.Pages.{page_at};
ghost use Rattle.rg_base.specs.Place.{same_place};
ghost use Rattle.rg_home.specs.Slots.{slot_at};
ghost use Rattle.rg_page.specs.Content.{slots_of};
ghost use Rattle.rg_space.specs.Took.{Took, slot_in, IsRisen};
ghost use Rattle.rg_check.specs.PageTests.Breach.{is_home, has_row, capacity_in};
ghost use Rattle.rg_check.specs.PageTests.Looked.{Looked};
ghost use Rattle.rg_check.specs.PageTests.Outline.{outline_of};
ghost use Rattle.rg_check.specs.PageTests.Ties.{is_over_of, is_pointer_to, is_area_of};

use rg_base::place::Place;
use rg_base::tran::Tran;
use rg_page::frames::Frames;
use rg_page::page::Page;
use rg_page::slot::Slot;
use rg_space::fault::SpaceFault;
use rg_space::read::is_there;

/// What lies in a slot, without the bytes of its row. `capacity` is the bytes of its area, `other`
/// the Over area that a pointer names, `home` the home that an Over area names, and `owner` the
/// transaction that deleted or left a dead home.
#[derive(Clone, Copy, Debug)]
pub enum Outline {
    Free,
    Row {
        capacity: u16,
    },
    Pointer {
        capacity: u16,
        other: Place,
    },
    Over {
        capacity: u16,
        home: Place,
    },
    DeadRow {
        capacity: u16,
    },
    DeadPointer {
        capacity: u16,
        other: Place,
        owner: Tran,
    },
    DeadOver {
        capacity: u16,
        home: Place,
    },
}

/// The two places are one.
pub fn same_place(a: Place, b: Place) -> bool
    ensures { result ≡ same_place a b }
{
    a.page == b.page && a.slot == b.slot
}

impl Outline {
    /// A home, which may be dead.
    pub fn is_home(self) -> bool
        ensures { result ≡ is_home self }
    {
        match self {
            Outline::Row { .. }
            | Outline::Pointer { .. }
            | Outline::DeadRow { .. }
            | Outline::DeadPointer { .. } => true,
            Outline::Free | Outline::Over { .. } | Outline::DeadOver { .. } => false,
        }
    }

    /// A home that has a row, there or in an Over area.
    pub fn has_row(self) -> bool
        ensures { result ≡ has_row self }
    {
        match self {
            Outline::Row { .. } | Outline::Pointer { .. } => true,
            Outline::Free
            | Outline::Over { .. }
            | Outline::DeadRow { .. }
            | Outline::DeadPointer { .. }
            | Outline::DeadOver { .. } => false,
        }
    }

    /// The bytes of its area.
    pub fn capacity(self) -> u16
        ensures { result ≡ capacity_in self }
    {
        match self {
            Outline::Free => 0,
            Outline::Row { capacity }
            | Outline::Pointer { capacity, .. }
            | Outline::Over { capacity, .. }
            | Outline::DeadRow { capacity }
            | Outline::DeadPointer { capacity, .. }
            | Outline::DeadOver { capacity, .. } => capacity,
        }
    }

    /// An Over area that names this home.
    pub fn is_over_of(self, place: Place) -> bool
        ensures { result ≡ is_over_of place self }
    {
        match self {
            Outline::Over { home, .. } => same_place(home, place),
            _ => false,
        }
    }

    /// A Pointer that names this Over area.
    pub fn is_pointer_to(self, place: Place) -> bool
        ensures { result ≡ is_pointer_to place self }
    {
        match self {
            Outline::Pointer { other, .. } => same_place(other, place),
            _ => false,
        }
    }

    /// An Over area that names this home, or a dead one.
    pub fn is_area_of(self, place: Place) -> bool
        ensures { result ≡ is_area_of place self }
    {
        match self {
            Outline::Over { home, .. } | Outline::DeadOver { home, .. } => same_place(home, place),
            _ => false,
        }
    }
}

// The outline of slot i of a page. A slot past the last one is Free.
fn outline_at(page: &Page, i: u16) -> Outline
    ensures { result ≡ outline_of (slot_at page.now.slots i) }
{
    if i >= page.slot_count() {
        return Outline::Free;
    }
    match page.slot(i) {
        Slot::Free => Outline::Free,
        Slot::Row { capacity, .. } => Outline::Row { capacity },
        Slot::Pointer { capacity, other } => Outline::Pointer { capacity, other },
        Slot::Over {
            capacity,
            other,
            ..
        } => Outline::Over {
            capacity,
            home: other,
        },
        Slot::DeadRow { capacity, .. } => Outline::DeadRow { capacity },
        Slot::DeadPointer {
            capacity,
            other,
            owner,
        } => Outline::DeadPointer {
            capacity,
            other,
            owner,
        },
        Slot::DeadOver {
            capacity,
            other,
            ..
        } => Outline::DeadOver {
            capacity,
            home: other,
        },
    }
}

/// The outline of the slot at any place, which is Free where there is none. Its page is held from
/// then on.
pub fn outline_of<F: Frames>(frames: &mut F, place: Place) -> Result<Outline, SpaceFault>
    requires spare { 1 ≤ (F.seen frames.old).spare }
    ensures outline { IfOk result (λ outline. outline
        ≡ outline_of (slot_in (F.seen frames.new) place)) }
    ensures took { Took 1 (F.seen frames.old) (F.seen frames.new) }
    ensures reserved { (F.seen frames.new).reserved ≡ (F.seen frames.old).reserved }
    ensures device { IfErr result (λ fault. IsRisen fault (F.seen frames.old) (F.seen frames.new)) }
    ensures gave { F.gave (F.seen frames.old).pages
        (F.seen frames.old).forced frames.old frames.new }
{
    if !is_there(frames, place.page) {
        return Ok(Outline::Free);
    }
    match frames.with_page(place.page) {
        Ok(page) => Ok(outline_at(page, place.slot)),
        Err(_) => Err(SpaceFault::Device),
    }
}

// How many slots a page has; none where it is not there.
fn slots_on<F: Frames>(frames: &mut F, number: u32) -> Result<u16, SpaceFault>
    requires spare { 1 ≤ (F.seen frames.old).spare }
    ensures count { IfOk result (λ count. count
        ≡ length (page_at (slots_of (F.seen frames.new).pages) number)) }
    ensures looked { Looked (F.seen frames.old) (F.seen frames.new) }
    ensures device { IfErr result (λ fault. IsRisen fault (F.seen frames.old) (F.seen frames.new)) }
    ensures gave { F.gave (F.seen frames.old).pages
        (F.seen frames.old).forced frames.old frames.new }
{
    if !is_there(frames, number) {
        return Ok(0);
    }
    match frames.with_page(number) {
        Ok(page) => Ok(page.slot_count()),
        Err(_) => Err(SpaceFault::Device),
    }
}

/// How many slots a page has, where all other pages are let go first; none where it is not there.
pub fn slot_count_of<F: Frames>(frames: &mut F, number: u32) -> Result<u16, SpaceFault>
    requires idle { 1 ≤ (F.seen frames.old).idle }
    ensures count { IfOk result (λ count. count
        ≡ length (page_at (slots_of (F.seen frames.new).pages) number)) }
    ensures looked { Looked (F.seen frames.old) (F.seen frames.new) }
    ensures device { IfErr result (λ fault. IsRisen fault (F.seen frames.old) (F.seen frames.new)) }
    ensures gave { F.gave (F.seen frames.old).pages
        (F.seen frames.old).forced frames.old frames.new }
{
    frames.let_go();
    slots_on(frames, number)
}
