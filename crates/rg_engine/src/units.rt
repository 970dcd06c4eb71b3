// The open units of sessions.
//
// 1. There is a place for each number that a session can have, taken at the beginning. So a unit
//    begins and ends without memory.
ghost use Rattle.std.specs.Prelude.{◌≡◌, ℕ, ◌∷◌, None, IfOk, length, slice_set};
ghost use Rattle.rg_page.specs.Bare.{numbers_of};
ghost use Rattle.rg_engine.specs.Units.{unit_at, trans_of, owed};

use rg_base::no_memory::NoMemory;
use rg_base::position::Position;
use rg_base::session::Session;
use rg_base::tran::Tran;
use std::alloc::Global;
use std::marker::Model;

/// The unit of a session that has written: the number of its transaction, the position of its last
/// record, and how many writes it has made.
#[derive(Clone, Copy, Debug, PartialEq, Eq)]
pub struct OpenUnit {
    pub tran: Tran,
    pub last: Position,
    pub writes: u64,
}

/// The open unit of each session, if it has one.
#[derive(Drop)]
pub struct Units {
    slots: Vec<Option<OpenUnit>>,
}

impl Model for Units {
    ghost use Rattle.std.specs.Prelude.{◌≡◌, List, Option, vec_len};
    ghost use Rattle.rg_engine.specs.declared.units.OpenUnit.{OpenUnit};

    ghost Value = { List (Option OpenUnit) };

    ghost view = { λ u. u.slots.items };

    ghost invariant = { λ u. vec_len u.slots ≡ 256 };
}

impl Units {
    /// No open units. It takes the room for all.
    pub fn new(alloc: Global) -> Result<Units, NoMemory>
        ensures none { IfOk result (λ units. (n : ℕ) → unit_at units n ≡ None) }
        ensures owed { IfOk result (λ units. owed units ≡ 0) }
        ensures places { IfOk result (λ units. length units ≡ 256) }
    {
        Ok(Units {
            slots: vec![in alloc; None; 256]?,
        })
    }

    /// The open unit of a session.
    pub fn get(&self, session: Session) -> Option<OpenUnit>
        ensures { result ≡ unit_at self.now session.0 }
    {
        self.slots[usize::from(session.0)]
    }

    /// A session has this open unit from now on, or none.
    pub fn set(&mut self, session: Session, unit: Option<OpenUnit>)
        ensures { self.new ≡ slice_set self.old session.0 unit }
    {
        self.slots[usize::from(session.0)] = unit;
    }

    /// A transaction, and those of all open units.
    pub fn with(&self, alloc: Global, tran: Tran) -> Result<Vec<Tran>, NoMemory>
        ensures { IfOk result (λ trans. numbers_of trans.items ≡ tran.0 ∷ trans_of self.now) }
    {
        let mut trans = Vec::new(alloc);
        trans.push(tran)?;
        for slot in self.slots.iter() {
            if let Some(unit) = slot {
                trans.push(unit.tran)?;
            }
        }
        Ok(trans)
    }
}
