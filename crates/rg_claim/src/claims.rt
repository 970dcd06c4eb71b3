// The claims of sessions and the drain.
//
// 1. A claim lasts from the statement that takes it to the end of the session's unit. It rises from
//    Reader to Writer, and never falls before the unit's end.
// 2. While a drain is asked or granted, no session takes a class that it covers, unless the session
//    holds it already. Sessions that hold such a class go on.
// 3. A drain is granted only where no session holds a class that it covers. So while it is granted,
//    no session does.
// 4. The room for all sessions is taken at the beginning. No later call takes memory.
ghost use Rattle.std.specs.Prelude.{◌≡◌, ◌+◌, ◌↔◌, filter, length};
ghost use Rattle.std.specs.Prelude.{IfOk, IfSome, IfErr, OnOk, OnErr, IsTrue, is_err};
ghost use Rattle.std.specs.FinMap as map;
ghost use Rattle.std.specs.Result.{result_err};
ghost use Rattle.rg_base.specs.Session.{IsSession};
ghost use Rattle.rg_claim.specs.ClaimState.{no_claims};
ghost use Rattle.rg_claim.specs.Classes.{classes_of};
ghost use Rattle.rg_claim.specs.Drains.{GrantIsKept, IsGrantOf, drain_granted};
ghost use Rattle.rg_claim.specs.Sessions.{HasSessions};
ghost use Rattle.rg_claim.specs.Slots.{entries_from};
ghost use Rattle.rg_model.specs.Claims.{claims_with, first_session, is_holder, is_kept_out};
ghost use Rattle.rg_model.specs.Claims.{least_holder};

use crate::class::{blocks, claim_more, refuses};
use rg_base::no_memory::NoMemory;
use rg_base::options::{DrainFor, DrainState};
use rg_base::session::{Class, Session};
use std::alloc::Global;
use std::marker::Model;
use thiserror::Error;

/// The number of sessions. They are numbered from 1.
pub const SESSIONS: usize = 99;

/// Why a claim was refused: a drain covers a class that it needs and that the session doesn't hold.
#[derive(Clone, Copy, Debug, PartialEq, Eq, Error)]
#[error("a drain is asked or granted")]
pub struct Drained;

/// The claims of sessions 1 to 99, and the drain.
#[derive(Drop)]
pub struct Claims {
    // The claim of each session, the first that of session 1.
    slots: Vec<Option<Class>>,
    drain: DrainState,
}

impl Model for Claims {
    ghost use Rattle.rg_claim.specs.ClaimState.{ClaimState, claim_state_code};

    ghost Value = { ClaimState };

    ghost coded = { claim_state_code };

    ghost use Rattle.rg_claim.specs.Slots.{HasSlots, state_of};

    ghost view = { λ c. state_of c.slots.items c.drain };

    ghost invariant = { λ c. HasSlots c.slots c.drain };
}

// Where the claim of a session stands.
fn slot_of(session: Session) -> usize
    requires { IsSession session }
    ensures { result + 1 ≡ session.0 }
{
    usize::from(session.0) - 1
}

// The least session that holds a class that the drain covers.
fn find_holder(slots: &[Option<Class>], drain: DrainState) -> Option<Session>
    requires { length slots.now ≡ SESSIONS }
    ensures least { result ≡ first_session (filter (is_holder drain) (entries_from 1 slots.now)) }
    ensures session { IfSome result IsSession }
{
    for (slot, held) in slots.iter().enumerate() {
        if blocks(drain, *held) {
            return Some(Session((slot + 1) as u8));
        }
    }
    None
}

// A drain that is asked is granted.
fn grant(drain: DrainState) -> DrainState
    ensures { result ≡ drain_granted drain }
{
    match drain {
        DrainState::Asked(what) => DrainState::Granted(what),
        DrainState::Free | DrainState::Granted(_) => drain,
    }
}

impl Claims {
    /// No claims and no drain.
    pub fn new(alloc: Global) -> Result<Claims, NoMemory>
        ensures { IfOk result (λ claims. claims ≡ no_claims) }
    {
        Ok(Claims {
            slots: vec![in alloc; None; SESSIONS]?,
            drain: DrainState::Free,
        })
    }

    /// What `claim` would answer. It registers nothing.
    pub fn admits(&self, session: Session, class: Class) -> Result<(), Drained>
        requires { IsSession session }
        ensures { is_err result
            ≡ is_kept_out self.now.drain (map.get self.now.claims session.0) (classes_of class) }
    {
        if refuses(self.drain, self.slots[slot_of(session)], class) {
            return Err(Drained);
        }
        Ok(())
    }

    /// Takes a class for a session, and Reader with Writer. It is refused if and only if the drain
    /// covers one of these classes that the session doesn't hold.
    pub fn claim(&mut self, session: Session, class: Class) -> Result<(), Drained>
        requires { IsSession session }
        ensures drained { is_err result
            ≡ is_kept_out self.old.drain (map.get self.old.claims session.0) (classes_of class) }
        ensures ok { OnOk result (self.new
            ≡ record self.old { claims = claims_with self.old.claims session (classes_of class) }) }
        ensures err { OnErr result (self.new ≡ self.old) }
    {
        let slot = slot_of(session);
        let held = self.slots[slot];
        if refuses(self.drain, held, class) {
            return Err(Drained);
        }
        self.slots[slot] = Some(claim_more(held, class));
        Ok(())
    }

    /// The claim of a session.
    pub fn held(&self, session: Session) -> Option<Class>
        requires { IsSession session }
        ensures held { result ≡ map.get self.now.claims session.0 }
        ensures sessions { HasSessions self.now.claims }
    {
        self.slots[slot_of(session)]
    }

    /// Ends the claim of a session, if it has one.
    pub fn release(&mut self, session: Session)
        requires { IsSession session }
        ensures { self.new ≡ record self.old { claims = map.remove self.old.claims session.0 } }
    {
        self.slots[slot_of(session)] = None;
    }

    /// The drain that is in force.
    pub fn drain(&self) -> DrainState
        ensures drain { result ≡ self.now.drain }
        ensures grant { GrantIsKept self.now }
    {
        self.drain
    }

    /// Asks a drain, in place of one that is in force.
    pub fn ask(&mut self, what: DrainFor)
        ensures { self.new ≡ record self.old { drain = DrainState.Asked what } }
    {
        self.drain = DrainState::Asked(what);
    }

    /// Grants the drain that was asked. Where sessions hold a class that it covers, the answer is
    /// the least of them, and nothing changes. Where no drain is asked, nothing changes either.
    pub fn granted(&mut self) -> Result<(), Session>
        ensures blocked { result_err result ≡ least_holder self.old.drain self.old.claims }
        ensures ok { OnOk result (IsGrantOf self.old self.new) }
        ensures err { OnErr result (self.new ≡ self.old) }
        ensures session { IfErr result IsSession }
    {
        match find_holder(&self.slots, self.drain) {
            Some(session) => Err(session),
            None => {
                self.drain = grant(self.drain);
                Ok(())
            }
        }
    }

    /// The least session that holds a class that the drain covers; none where no drain is in force.
    pub fn holder(&self) -> Option<Session>
        ensures holder { result ≡ least_holder self.now.drain self.now.claims }
        ensures session { IfSome result IsSession }
    {
        find_holder(&self.slots, self.drain)
    }

    /// Ends the drain, if one is in force.
    pub fn undrain(&mut self)
        ensures { self.new ≡ record self.old { drain = DrainState.Free } }
    {
        self.drain = DrainState::Free;
    }
}
