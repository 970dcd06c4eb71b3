/// An application's session, by its number, from 1 to 99. A session is there from the beginning.
#[derive(Clone, Copy, Debug, PartialEq, Eq)]
pub struct Session(pub u8);

/// A class of claims. A session that reads holds `Reader`; one that writes holds `Writer`, which
/// includes it.
#[derive(Clone, Copy, Debug, PartialEq, Eq)]
pub enum Class {
    Reader,
    Writer,
}
