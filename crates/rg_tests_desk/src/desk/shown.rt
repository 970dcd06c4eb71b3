ghost use Rattle.std.specs.Prelude.{◌≤◌};
ghost use Rattle.rg_base.specs.Session.{IsSession};

use rg_base::change::Change;
use rg_base::no_memory::NoMemory;
use rg_base::session::Session;
use rg_base::set::Set;
use rg_desk::desk::reply_to;
use rg_engine::engine::Engine;
use rg_engine::found::Found;
use rg_feed::ends::feed;
use rg_feed::hand_over::hand_over;
use rg_feed::inlet::FeedIn;
use rg_feed::outlet::FeedOut;
use rg_log::log::Log;
use rg_mem::volume::MemVolume;
use rg_outside::volume::Volume;
use rg_stmt::stmt::{Reply, Stmt};
use std::alloc::Global;
use std::marker::Model;

/// An engine that shows a state of a trace, over a volume, and a feed to a utility, if one runs.
#[derive(Drop)]
pub struct ShownEngine {
    engine: Engine,
    down: bool,
    volume: MemVolume,
    pub runs: bool,
    outlet: FeedOut,
    inlet: FeedIn,
}

impl Model for ShownEngine {
    ghost use Rattle.std.specs.Prelude.{◌≡◌, ℕ, false};
    ghost use Rattle.rg_log.specs.Kept.{log_pages};
    ghost use Rattle.rg_mem.specs.Shown.{capacities_of};
    ghost use Rattle.rg_engine.specs.Shows.{IsShown};

    ghost Value = { ℕ };

    ghost view = { λ e. e.engine.top };

    ghost invariant = { λ e. (e.down ≡ false → IsShown e.engine)
        × (e.engine.log.pages ≡ log_pages (capacities_of e.volume))
        × (e.outlet.ring ≡ e.inlet.ring) };
}

impl ShownEngine {
    pub fn new(alloc: Global, capacity: u32, log_pages: u32) -> Result<ShownEngine, NoMemory>
        requires { log_pages ≤ 65536 }
    {
        let volume = MemVolume::new(alloc, log_pages, 0, 0, 64, 64, &[], None)?;
        let pages = volume.capacity(Set::Log).min(65_536);
        let found = Found::empty(alloc, capacity, Log::empty(alloc, pages))?;
        let engine = Engine::new(alloc, found.log, found.space, found.indexes, found.top)?;
        let (outlet, inlet) = feed(alloc)?;
        Ok(ShownEngine {
            engine,
            down: false,
            volume,
            runs: false,
            outlet,
            inlet,
        })
    }

    /// The next change that was sent.
    pub fn next_change(&mut self) -> Result<Option<Change>, NoMemory> {
        hand_over(&mut self.outlet, &mut self.inlet)?;
        Ok(self.inlet.next_change())
    }

    /// Answers a statement.
    pub fn say(&mut self, session: Session, stmt: &Stmt) -> Reply
        requires { IsSession session }
    {
        reply_to(
            &mut self.engine,
            &mut self.down,
            &mut self.volume,
            session,
            stmt,
            self.runs,
            &mut self.outlet,
        )
    }
}
