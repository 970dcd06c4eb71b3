// The switch of an engine to a new copy.
//
// 1. The Switch record takes the bytes that were set aside. All records are forced with it. Where
//    that fails, it is open which copy is current.
// 2. Then the pages and the indexes of the new copy are the engine's, and it begins with them. No
//    drain is in force any more. It takes no memory.
ghost use Rattle.std.specs.Prelude.{◌≡◌, ◌≤◌, ◌⊎◌, OnErr, OnOk, length};
ghost use Rattle.rg_claim.specs.Drains.{GrantIsKept};
ghost use Rattle.rg_log.specs.Kept.{log_pages};
ghost use Rattle.rg_outside.specs.Faults.{Rose};
ghost use Rattle.rg_base.specs.Copies.{IsCopy};
ghost use Rattle.rg_engine.specs.Turned.{IsShade, LogsSwitch, Takes, Turns};
ghost use Rattle.rg_shadow.specs.declared.drafts.IndexStage.TheVariants.{Built};

use crate::engine::Engine;
use crate::records::{append, next_position};
use rg_base::copy::TableCopy;
use rg_base::note::note;
use rg_base::position::Position;
use rg_base::tran::Tran;
use rg_btree::indexes::indexes::Indexes;
use rg_log::fault::Device;
use rg_outside::volume::Volume;
use rg_page::list::ListFrames;
use rg_record::record::{Kind, Record};
use rg_shadow::shadow::Shadow;
use rg_space::space::Space;
use std::mem;

/// The copy that was current before a switch. Whoever has it drops it.
#[derive(Drop)]
pub struct Old {
    space: Space<ListFrames>,
    indexes: Indexes,
}

/// Turns an engine to a new copy: the Switch record is appended and forced, and then the engine has
/// the pages and the indexes of the copy. Where the force fails it keeps what it has, and it is
/// open which copy is current. It takes no memory.
pub fn turn<V: Volume>(
    engine: &mut Engine,
    volume: &mut V,
    copy: TableCopy,
    shadow: Shadow,
) -> Result<Old, Device>
    requires copy { IsCopy copy }
    requires room { 28 ≤ engine.old.log.reserved }
    requires set { engine.old.log.pages ≡ log_pages (V.seen volume.old).capacities }
    requires keys { shadow.keys ≡ Built }
    requires cluses { shadow.cluses ≡ Built }
    requires cats { shadow.cats ≡ Built }
    ensures shade { IsShade shadow }
    ensures grant { GrantIsKept engine.old.claims }
    ensures ok { OnOk result (Turns copy shadow
        (V.seen volume.old) (V.seen volume.new) engine.old engine.new) }
    ensures err { OnErr result (LogsSwitch copy (length shadow.pages)
        (V.seen volume.old) (V.seen volume.new) engine.old engine.new) }
    ensures cause { OnErr result (Rose (V.seen volume.old).faults (V.seen volume.new).faults) }
{
    // That no session holds a claim that a granted drain covers: nobody has a lock then.
    note(&engine.claims.drain());
    let count = shadow.count();
    match engine.log_switch(volume, copy, count) {
        Ok(()) => Ok(engine.take_copy(shadow)),
        Err(fault) => Err(fault),
    }
}

impl Engine {
    /// Appends the record of a switch to this copy, out of the bytes that are set aside, and forces
    /// all records.
    pub fn log_switch<V: Volume>(
        &mut self,
        volume: &mut V,
        copy: TableCopy,
        pages: u32,
    ) -> Result<(), Device>
        requires copy { IsCopy copy }
        requires room { 28 ≤ self.old.log.reserved }
        requires set { self.old.log.pages ≡ log_pages (V.seen volume.old).capacities }
        ensures logs { LogsSwitch copy pages
            (V.seen volume.old) (V.seen volume.new) self.old self.new }
        ensures ok { OnOk result (self.new.log.forced ≡ length self.new.log.records) }
        ensures cause { OnErr result (Rose (V.seen volume.old).faults (V.seen volume.new).faults) }
    {
        let entry = Record {
            position: next_position(&self.log),
            tran: Tran(0),
            back: Position(0),
            kind: Kind::Switch {
                copy: copy.number(),
                pages,
            },
        };
        append(&mut self.log, entry);
        self.set_aside = 0;
        let forced = self.log.force(volume);
        // That the records fit their set: what a crash leaves of them is sound by it.
        note(&self.log.records());
        forced
    }

    /// The pages and the indexes of this copy are the engine's from now on, which begins with them.
    /// No drain is in force. What it had before is handed back.
    pub fn take_copy(&mut self, shadow: Shadow) -> Old
        requires keys { shadow.keys ≡ Built }
        requires cluses { shadow.cluses ≡ Built }
        requires cats { shadow.cats ≡ Built }
        ensures { Takes self.old shadow self.new }
    {
        let (space, indexes) = shadow.into_parts();
        self.claims.undrain();
        self.opened = self.log.records().len();
        Old {
            space: mem::replace(&mut self.space, space),
            indexes: mem::replace(&mut self.indexes, indexes),
        }
    }
}
