// The steps that copy the rows and index them, before the first iteration.
// (1) UNLOAD copies the next page; a page has 225 slots at most.
// (2) RELOAD fills the next page with one row at least.
// (3) SORT and BUILD are made of KEY, then of CLUS, then of CAT. BUILD CAT begins iteration 1.
ghost use Rattle.std.specs.Prelude.{◌≡◌, IfOk};
ghost use Rattle.std.specs.Option.{option_map};
ghost use Rattle.rg_judge.specs.Turn.UtilityOf.{utility_of};
ghost use Rattle.rg_judge.specs.Turn.TurnOf.{turn_seen};
ghost use Rattle.rg_model.specs.Turn.{build_next, build_turn, nth_which, reload_turn, sort_turn};
ghost use Rattle.rg_model.specs.Turn.{unload_turn};

use crate::turn::named::same_which;
use crate::turn::progress::Progress;
use crate::turn::turn::{Turn, begin_iteration, stop_early, stop_space, turn_if};
use rg_base::no_memory::NoMemory;
use rg_base::options::DrainState;
use rg_base::which::Which;
use rg_rules::tally::pages::page_at;
use rg_rules::tally::sums::sum;
use rg_stmt::event::Event;

// KEY, then CLUS, then CAT.
fn nth_which(n: u64) -> Which
    ensures { result ≡ nth_which n }
{
    if n == 0 {
        return Which::Key;
    }
    if n == 1 { Which::Clus } else { Which::Cat }
}

/// A step that copies a page.
pub fn unload<'a>(
    u: Progress,
    drain: DrainState,
    event: &'a Event,
) -> Result<Option<Turn<'a>>, NoMemory>
    ensures { IfOk result (λ turn. option_map turn_seen turn
        ≡ unload_turn (utility_of u) drain event.now) }
{
    match event {
        Event::Unload { page, rows } => {
            let next = sum(u.copied, 1)?;
            let unloaded = sum(u.unloaded, u64::from(*rows))?;
            Ok(turn_if(
                u64::from(*page) == next && *rows <= 225,
                Turn::Runs(
                    Progress {
                        copied: u64::from(*page),
                        unloaded,
                        ..u
                    },
                    drain,
                ),
            ))
        }
        _ => Ok(stop_early(event)),
    }
}

/// A step that fills a page.
pub fn reload<'a>(
    u: Progress,
    drain: DrainState,
    event: &'a Event,
) -> Result<Option<Turn<'a>>, NoMemory>
    ensures { IfOk result (λ turn. option_map turn_seen turn
        ≡ reload_turn (utility_of u) drain event.now) }
{
    match event {
        Event::Reload { page, rows } => {
            let filled = sum(u.filled, 1)?;
            let place = page_at(u.options.freepage, filled)?;
            let reloaded = sum(u.reloaded, u64::from(*rows))?;
            let left = u.unloaded.saturating_sub(u.reloaded);
            Ok(turn_if(
                u64::from(*page) == place && (1 <= *rows && u64::from(*rows) <= left),
                Turn::Runs(
                    Progress {
                        filled,
                        reloaded,
                        ..u
                    },
                    drain,
                ),
            ))
        }
        _ => Ok(stop_space(event)),
    }
}

/// A step that sorts the list of an index.
pub fn sort<'a>(
    u: Progress,
    drain: DrainState,
    event: &'a Event,
) -> Result<Option<Turn<'a>>, NoMemory>
    ensures { IfOk result (λ turn. option_map turn_seen turn
        ≡ sort_turn (utility_of u) drain event.now) }
{
    match event {
        Event::Sort(which) => {
            let sorted = sum(u.sorted, 1)?;
            Ok(turn_if(
                same_which(*which, nth_which(u.sorted)),
                Turn::Runs(Progress { sorted, ..u }, drain),
            ))
        }
        _ => Ok(stop_early(event)),
    }
}

// One index more is built.
fn build_next(all: u64, u: Progress) -> Result<Progress, NoMemory>
    ensures { IfOk result (λ v. utility_of v ≡ build_next all (utility_of u)) }
{
    if u.built == 2 {
        return begin_iteration(all, Progress { built: 3, ..u });
    }
    Ok(Progress {
        built: sum(u.built, 1)?,
        ..u
    })
}

/// A step that builds an index.
pub fn build<'a>(
    all: u64,
    u: Progress,
    drain: DrainState,
    event: &'a Event,
) -> Result<Option<Turn<'a>>, NoMemory>
    ensures { IfOk result (λ turn. option_map turn_seen turn
        ≡ build_turn all (utility_of u) drain event.now) }
{
    match event {
        Event::Build(which) => {
            let next = build_next(all, u)?;
            Ok(turn_if(
                same_which(*which, nth_which(u.built)),
                Turn::Runs(next, drain),
            ))
        }
        _ => Ok(stop_early(event)),
    }
}
