use rg_base::place::Place;
use rg_base::tran::Tran;

/// What lies in a slot, as its page lends it. `capacity` is the bytes of the slot's area; `bytes`
/// are those of the row in it; `other` is the Over area that a pointer names, or the home that an
/// Over area names; `owner` is the transaction that deleted or left a dead area.
#[derive(Clone, Copy, Debug)]
pub enum Slot<'a> {
    Free,
    Row {
        capacity: u16,
        bytes: &'a [u8],
    },
    Pointer {
        capacity: u16,
        other: Place,
    },
    Over {
        capacity: u16,
        bytes: &'a [u8],
        other: Place,
    },
    DeadRow {
        capacity: u16,
        owner: Tran,
    },
    DeadPointer {
        capacity: u16,
        other: Place,
        owner: Tran,
    },
    DeadOver {
        capacity: u16,
        other: Place,
        owner: Tran,
    },
}
