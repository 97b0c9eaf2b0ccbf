//! Questions for leases, and their answers.
use crate::field::Field;
use crate::lease_kind::LeaseKind;
use fs_ident::{FileId, LeaseNo, Memory, Twin, TxnNo};
use std::alloc::Global;
use thiserror::Error;

/// Something that an operation cannot be answered without.
#[derive(Debug, Drop, PartialEq, Eq)]
pub enum Need {
    /// A lease on the field, of this kind or a stronger one.
    Lease(Field, LeaseKind),
    /// An identifier below the directory that no file has had.
    Fresh(FileId),
}

/// The answer to a question for a lease.
#[derive(Clone, Copy, Debug, PartialEq, Eq)]
pub enum Asked {
    /// The row is made; `value` is the truth told of an other value.
    Granted { value: Option<bool> },
    /// This row of another session stands against it.
    Wait { blocker: LeaseNo },
    /// A row on the field is kept by this transaction.
    Locked { txn: TxnNo },
}

/// There is no row with this number.
#[derive(Clone, Copy, Debug, PartialEq, Eq, Error)]
#[error("there is no row with the number {no}")]
pub struct Unknown {
    pub no: LeaseNo,
}

impl Twin for Need {
    fn copy(&self, alloc: Global) -> Result<Need, Memory> {
        match self {
            Need::Lease(field, kind) => Ok(Need::Lease(field.copy(alloc)?, *kind)),
            Need::Fresh(dir) => Ok(Need::Fresh(dir.copy(alloc)?)),
        }
    }

    fn discard(self) {
        drop(self);
    }
}

impl Twin for Asked {
    fn copy(&self, _: Global) -> Result<Asked, Memory> {
        Ok(*self)
    }

    fn discard(self) {}
}
