//! An operation that a server leads.
ghost use Rattle.std.specs.Prelude.{◌≡◌, IfOk};
ghost use Rattle.fs_client.specs.Led.{lead_of};

use fs_ident::{FileId, Kind, Memory, Twin, copy_three, copy_two};
use fs_msg::{Entry, Lead};
use std::alloc::Global;

/// A delete or a rename that a server was asked to lead and that has not ended yet.
#[derive(Debug, Drop)]
pub struct Led {
    /// The number that it is to have, the reply as far as leases tell it, and the leases that decided that.
    pub entry: Entry,
    /// The file that moves or goes.
    pub file: FileId,
    pub kind: Kind,
}

/// What its server is asked.
pub(crate) fn lead(alloc: Global, led: &Led) -> Result<Lead, Memory>
    ensures { IfOk result (λ lead. lead ≡ lead_of led.now) }
{
    let entry = &led.entry;
    let (op, file, uses) = copy_three(alloc, &entry.op, &led.file, &entry.uses)?;
    Ok(Lead {
        n: entry.n,
        op,
        file,
        kind: led.kind,
        uses,
    })
}

impl Twin for Led {
    fn copy(&self, alloc: Global) -> Result<Led, Memory> {
        let (entry, file) = copy_two(alloc, &self.entry, &self.file)?;
        Ok(Led {
            entry,
            file,
            kind: self.kind,
        })
    }

    fn discard(self) {
        drop(self);
    }
}
