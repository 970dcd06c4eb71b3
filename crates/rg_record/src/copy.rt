// A copy of a record is equal to it, and takes memory.
ghost use Rattle.std.specs.Prelude.{◌≡◌, IfOk};

use crate::record::{Kind, Record};
use rg_base::no_memory::NoMemory;
use rg_base::part::Parts;
use rg_base::row::copy_row;
use std::alloc::Global;

fn copy_parts(alloc: Global, parts: &Parts) -> Result<Parts, NoMemory>
    ensures { IfOk result (λ copy. copy ≡ parts.now) }
{
    Ok(Parts::new(parts.as_slice().to_vec(alloc)?))
}

fn copy_kind(alloc: Global, kind: &Kind) -> Result<Kind, NoMemory>
    ensures { IfOk result (λ copy. copy ≡ kind.now) }
{
    match kind {
        Kind::Change {
            home,
            before,
            after,
            parts,
        } => Ok(Kind::Change {
            home: *home,
            before: copy_row(alloc, before.as_ref())?,
            after: copy_row(alloc, after.as_ref())?,
            parts: copy_parts(alloc, parts)?,
        }),
        Kind::Undo {
            next,
            home,
            after,
            parts,
        } => Ok(Kind::Undo {
            next: *next,
            home: *home,
            after: copy_row(alloc, after.as_ref())?,
            parts: copy_parts(alloc, parts)?,
        }),
        Kind::Commit => Ok(Kind::Commit),
        Kind::RolledBack => Ok(Kind::RolledBack),
        Kind::Purge { parts } => Ok(Kind::Purge {
            parts: copy_parts(alloc, parts)?,
        }),
        Kind::Switch { copy, pages } => Ok(Kind::Switch {
            copy: *copy,
            pages: *pages,
        }),
    }
}

impl Record {
    /// An equal record. It takes memory for its rows and parts.
    pub fn copy(&self, alloc: Global) -> Result<Record, NoMemory>
        ensures { IfOk result (λ copy. copy ≡ self.now) }
    {
        Ok(Record {
            position: self.position,
            tran: self.tran,
            back: self.back,
            kind: copy_kind(alloc, &self.kind)?,
        })
    }
}
