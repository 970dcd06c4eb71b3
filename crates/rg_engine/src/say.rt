// The answer to any statement.
//
// 1. A drain comes first: a statement is DRAINED if and only if a drain covers a class that it
//    needs and that its session does not hold.
// 2. A statement that is answered with number 0 registers its classes, and no other does.
// 3. While a utility runs, the changes of a statement that is answered OK are sent to it. What that
//    takes is taken before the statement is answered, and after the drain has let it through.
ghost use Rattle.std.specs.Prelude.{◌≡◌, ◌++◌, false, drop, length};
ghost use Rattle.std.specs.FinMap as map;
ghost use Rattle.rg_base.specs.Session.{IsSession};
ghost use Rattle.rg_model.specs.Claims.{claims_with, classes_needed, is_kept_out};
ghost use Rattle.rg_model.specs.Plain.{is_done};
ghost use Rattle.rg_log.specs.Kept.{log_pages};
ghost use Rattle.rg_laws_utility.specs.RecordChanges.Changed.{changes_in};
ghost use Rattle.rg_engine.specs.Answers.{Answers, Asks, classes_in, forces};
ghost use Rattle.rg_engine.specs.Shows.{IsShown};
ghost use Rattle.rg_engine.specs.Steps.{IfUp, Steps, is_commit};
ghost use Rattle.rg_feed.specs.Ends.{sent_items};
ghost use Rattle.rg_engine.specs.ChangeFeed.Sending.{AddsChanges, items_made};

use crate::engine::Engine;
use crate::send::{is_ok, send_since};
use rg_base::session::{Class, Session};
use rg_feed::outlet::FeedOut;
use rg_model::plain::parts::is_done;
use rg_outside::volume::Volume;
use rg_stmt::stmt::{Reply, Stmt};

// The class that a statement takes. The ends of a unit take none.
fn class_of(stmt: &Stmt) -> Option<Class>
    ensures { classes_in result ≡ classes_needed stmt.now }
{
    match stmt {
        Stmt::Insert(_) | Stmt::Update(_) | Stmt::Delete(_) => Some(Class::Writer),
        Stmt::Select(_) | Stmt::Scan { .. } | Stmt::Find(_) => Some(Class::Reader),
        Stmt::Commit | Stmt::Rollback => None,
    }
}

// Whether a statement may call the volume.
fn is_commit(stmt: &Stmt) -> bool
    ensures { result ≡ is_commit stmt.now }
{
    matches!(stmt, Stmt::Commit)
}

impl Engine {
    // A drain covers a class that the session does not hold.
    fn is_drained(&self, session: Session, class: Option<Class>) -> bool
        requires session { IsSession session }
        ensures { result ≡ is_kept_out self.now.claims.drain
            (map.get self.now.claims.claims session.0) (classes_in class) }
    {
        match class {
            Some(class) => self.claims.admits(session, class).is_err(),
            None => false,
        }
    }

    // The session has the class from now on, to the end of its unit.
    fn register(&mut self, session: Session, class: Option<Class>)
        requires session { IsSession session }
        requires admitted { is_kept_out self.old.claims.drain
            (map.get self.old.claims.claims session.0) (classes_in class) ≡ false }
        ensures { self.new ≡ record self.old {
          claims = record self.old.claims {
            claims = claims_with self.old.claims.claims session (classes_in class);
          };
        } }
    {
        let Some(class) = class else {
            return;
        };
        match self.claims.claim(session, class) {
            Ok(()) => {}
            Err(_) => unreachable!(),
        }
    }

    // The answer to a statement that calls no volume and that no drain keeps out. Its claim is not
    // registered yet.
    fn answer(&mut self, session: Session, stmt: &Stmt) -> Reply
        requires other { is_commit stmt.now ≡ false }
        requires session { IsSession session }
        requires shown { IsShown self.old }
        ensures { Steps self.old session stmt.now result self.new }
    {
        match stmt {
            Stmt::Insert(row) => self.insert(session, row),
            Stmt::Update(row) => self.update(session, row),
            Stmt::Delete(key) => self.delete(session, *key),
            Stmt::Select(key) => self.select(session, *key),
            Stmt::Scan { lo, hi } => self.scan(session, *lo, *hi),
            Stmt::Find(cat) => self.find(session, *cat),
            Stmt::Commit => unreachable!(),
            Stmt::Rollback => self.rollback(session),
        }
    }

    // The answer to any statement that no drain keeps out. Its claim is not registered yet.
    fn answer_over<V: Volume>(&mut self, volume: &mut V, session: Session, stmt: &Stmt) -> Reply
        requires session { IsSession session }
        requires shown { IsShown self.old }
        requires pages { self.old.log.pages ≡ log_pages (V.seen volume.old).capacities }
        ensures steps { Steps self.old session stmt.now result self.new }
        ensures asks { Asks (forces self.old.units session stmt.now) result
            self.old.log self.new.log
            (V.seen volume.old) (V.seen volume.new) }
    {
        if is_commit(stmt) {
            return self.commit(volume, session);
        }
        self.answer(session, stmt)
    }

    /// Answers a statement of a session, and sends its changes where a utility runs.
    pub fn say<V: Volume>(
        &mut self,
        volume: &mut V,
        session: Session,
        stmt: &Stmt,
        runs: bool,
        outlet: &mut FeedOut,
    ) -> Reply
        requires session { IsSession session }
        requires shown { IsShown self.old }
        requires pages { self.old.log.pages ≡ log_pages (V.seen volume.old).capacities }
        ensures answers { Answers self.old session stmt.now result self.new }
        ensures asks { Asks (forces self.old.units session stmt.now) result
            self.old.log self.new.log
            (V.seen volume.old) (V.seen volume.new) }
        ensures ring { outlet.new.ring ≡ outlet.old.ring }
        ensures adds { AddsChanges (sent_items outlet.old) (sent_items outlet.new) }
        ensures sent { IfUp result (sent_items outlet.new
            ≡ sent_items outlet.old
            ++ items_made runs (changes_in
            (drop (length self.old.log.records) self.new.log.records))) }
    {
        let class = class_of(stmt);
        if self.is_drained(session, class) {
            return Reply::Drained;
        }
        let Ok(rows) = self.make_ready(session, stmt, runs, outlet) else {
            return Reply::NoMemory;
        };
        let first = self.log.records().len();
        let reply = self.answer_over(volume, session, stmt);
        if is_ok(&reply) {
            self.register(session, class);
            send_since(&self.log, first, runs, rows, outlet);
            return reply;
        }
        if is_done(&reply) {
            self.register(session, class);
            return reply;
        }
        reply
    }
}
