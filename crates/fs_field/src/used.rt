//! Which leases an operation was decided by.
use crate::field::Field;
use crate::lease_kind::LeaseKind;
use fs_ident::{FileId, LeaseNo, List, Memory, Twin};
use std::alloc::Global;

/// A lease that an operation used, as it was then.
#[derive(Debug, Drop)]
pub struct Use {
    pub field: Field,
    pub kind: LeaseKind,
    pub no: LeaseNo,
    pub until: u64,
}

/// What a led operation asks of the server of one file.
#[derive(Debug, Drop)]
pub struct Part {
    pub file: FileId,
    /// The leases on fields of this file.
    pub uses: List<Use>,
    /// The file over which no path may be given out meanwhile.
    pub freeze: Option<FileId>,
}

impl Twin for Use {
    fn copy(&self, alloc: Global) -> Result<Use, Memory> {
        Ok(Use {
            field: self.field.copy(alloc)?,
            kind: self.kind,
            no: self.no,
            until: self.until,
        })
    }

    fn discard(self) {
        drop(self);
    }
}

impl Twin for Part {
    fn copy(&self, alloc: Global) -> Result<Part, Memory> {
        Ok(Part {
            file: self.file.copy(alloc)?,
            uses: self.uses.copy(alloc)?,
            freeze: self.freeze.copy(alloc)?,
        })
    }

    fn discard(self) {}
}
