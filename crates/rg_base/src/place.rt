/// A place in a copy of the table: a page, numbered from 1, and a slot of it, numbered from 0. It
/// is printed `page.slot`.
#[derive(Clone, Copy, Debug, PartialEq, Eq)]
pub struct Place {
    pub page: u32,
    pub slot: u16,
}
