// What a utility has made of the new copy.
//
// 1. What is made is made of the items that were received. Whoever has received more since has
//    received changes alone, or nothing is made.
// 2. A new copy that is written is kept by the desk. Else the desk keeps none.
// 3. The numbers of the utility say which of these is made, and how far.
use crate::draft::{Draft, Packing};
use rg_base::options::Options;

/// What a utility has made of the new copy so far.
#[derive(Drop)]
pub enum Made {
    Nothing,
    /// Its pages are being filled.
    Packing(Packing),
    /// It is loaded.
    Drafted(Draft),
    /// It is written, and was packed by these options. The desk keeps it.
    Written(Options),
}
