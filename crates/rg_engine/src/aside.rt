// The bytes of the log that are set aside for the utility.
//
// 1. When a utility starts, the 28 bytes of its Switch record are reserved. So its switch is never
//    refused because the log is full.
// 2. They are given back when the utility ends without a switch.
ghost use Rattle.std.specs.Prelude.{◌≡◌, ◌≤◌, ◌+◌, IfErr, OnErr, OnOk};
ghost use Rattle.rg_log.specs.Kept.{ReserveFaultIs, left_of};
ghost use Rattle.rg_engine.specs.Aside.{PutsAside};
ghost use Rattle.rg_engine.specs.Shows.{IsShown};

use crate::bytes::SWITCH_BYTES;
use crate::engine::Engine;
use rg_log::fault::ReserveFault;

impl Engine {
    /// Reserves the bytes of the Switch record, for a utility that starts. LogFull is returned if
    /// and only if the log has fewer bytes left.
    pub fn put_aside(&mut self) -> Result<(), ReserveFault>
        requires free { self.old.set_aside ≡ 0 }
        ensures ok { OnOk result (PutsAside self.old SWITCH_BYTES self.new) }
        ensures log { OnOk result (self.new.log ≡ record self.old.log {
          reserved = self.old.log.reserved + SWITCH_BYTES;
        }) }
        ensures room { OnOk result (SWITCH_BYTES ≤ left_of self.old.log) }
        ensures err { OnErr result (self.new ≡ self.old) }
        ensures fault { IfErr result (ReserveFaultIs self.old.log SWITCH_BYTES) }
    {
        self.log.reserve(SWITCH_BYTES)?;
        self.set_aside = SWITCH_BYTES;
        Ok(())
    }

    /// Gives back what is set aside, when the utility ends without a switch.
    pub fn give_back_aside(&mut self)
        requires shown { IsShown self.old }
        ensures { PutsAside self.old 0 self.new }
    {
        self.log.give_back(self.set_aside);
        self.set_aside = 0;
    }
}
