// The numbers of a utility that starts.
//
// 1. It has copied, taken and failed nothing, and no drain is asked for it.
// 2. It is to copy as many pages as the table has then. Pages that come later are left to the log.
ghost use Rattle.std.specs.Prelude.{◌≡◌, ℕ, true};
ghost use Rattle.rg_base.specs.declared.options.DrainState.TheVariants as drains;
ghost use Rattle.rg_model.specs.Utility.{new_utility};
ghost use Rattle.rg_rules.specs.Stage.Bounded.{Bounded};
ghost use Rattle.rg_rules.specs.Stage.NumbersOf.{numbers_of};

use rg_base::options::{DrainState, Options};
use rg_feed::fold::item::Stage;

/// The stage of a utility that starts over a table of so many pages. It runs by no REORG line.
pub fn started(options: Options, pages: u32) -> Stage
    ensures numbers { numbers_of result ≡ new_utility options pages }
    ensures bounded { (all entries : ℕ) → Bounded all entries result }
    ensures drain { result.drain ≡ drains.Free }
    ensures running { result.running ≡ true }
    ensures lines { result.lines ≡ 0 }
{
    Stage {
        running: true,
        lines: 0,
        options,
        pages,
        copied: 0,
        unloaded: 0,
        reloaded: 0,
        filled: 0,
        sorted: 0,
        built: 0,
        iteration: 0,
        target: 0,
        done: 0,
        size: 0,
        drain: DrainState::Free,
        asked: 0,
        gave_up: None,
        message: None,
        failed: 0,
        shadow: 0,
        last: false,
        written: false,
        switched: false,
    }
}
