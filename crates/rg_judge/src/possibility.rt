// One of the states that a trace allows.
ghost use Rattle.std.specs.Prelude.{◌≡◌};
ghost use Rattle.rg_judge.specs.StateOf.{state_of};
ghost use Rattle.std.specs.Option.{option_map};
ghost use Rattle.rg_model.specs.Said.{if_allowed};

use crate::table::locked_rows::LockedRows;
use crate::turn::progress::Progress;
use rg_base::copy::TableCopy;
use rg_base::session::Session;
use rg_claim::claims::Claims;

/// A state that the entries so far allow. There is more than one where an opening found a table
/// that a refused COMMIT leaves open.
#[derive(Drop)]
pub struct Possibility {
    pub rows: LockedRows,
    pub claims: Claims,
    pub utility: Option<Progress>,
    pub copy: TableCopy,
    pub down: bool,
    pub doubt: Option<Session>,
    pub copydoubt: bool,
}

/// The state, where it is allowed.
pub fn if_allowed(allowed: bool, st: Possibility) -> Option<Possibility>
    ensures { option_map state_of result ≡ if_allowed allowed (state_of st) }
{
    if allowed { Some(st) } else { None }
}
