// What goes from hand to hand while a deck is played.
//
// 1. The volume and the operator that a run was handed are handed back, however it ended.
// 2. Each layer says in its own words how the run ended. What it is handed from below it hands on
//    with that end in the place of the other.
ghost use Rattle.std.specs.Prelude.{◌≡◌};

use rg_stmt::event::Entry;

/// A run that has ended: the volume and the operator that it was handed, its trace, and how it
/// ended. `end` is a cause where an opening was refused, and for the layers above what became of
/// the deck, what was told of it, and the status.
#[derive(Drop)]
pub struct Run<V, O, E> {
    pub volume: V,
    pub operator: O,
    pub trace: Vec<Entry>,
    pub end: E,
}

impl<V, O, E: Drop> Run<V, O, E> {
    /// The same run with another end.
    pub fn ended<F>(self, end: F) -> Run<V, O, F>
        ensures volume { result.volume ≡ self.volume }
        ensures operator { result.operator ≡ self.operator }
        ensures trace { result.trace ≡ self.trace }
        ensures end { result.end ≡ end }
    {
        let Run {
            volume,
            operator,
            trace,
            end: _,
        } = self;
        Run {
            volume,
            operator,
            trace,
            end,
        }
    }
}
