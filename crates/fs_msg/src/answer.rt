//! What servers send to clients.
use crate::end::End;
use fs_field::{Field, LeaseKind, Value};
use fs_ident::{FileId, LeaseNo, List, Memory, Twin, copy_three, copy_two};
use fs_record::LedEnd;
use std::alloc::Global;

/// A lease that a server gives, with what its field says.
#[derive(Debug, Drop)]
pub struct Grant {
    pub no: LeaseNo,
    pub field: Field,
    pub kind: LeaseKind,
    /// The reading from which on the lease is over.
    pub until: u64,
    pub value: Value,
}

/// The answer to a request, or a request of the server.
#[derive(Debug, Drop)]
pub enum Answer {
    /// The leases that an Ask got, and the fresh identifier.
    Granted {
        grants: List<Grant>,
        fresh: Option<FileId>,
        end: End,
    },
    /// The new ends of leases; none for a lease that the server no longer has.
    Renewed {
        rows: List<(LeaseNo, Option<u64>)>,
        end: End,
    },
    /// How many leases were given back.
    Released {
        count: u64,
        end: End,
    },
    /// How many entries were admitted.
    Shipped {
        count: u64,
        end: End,
    },
    /// How the operation that the server led ended.
    Led {
        end: LedEnd,
    },
    /// Asks the client to give a lease back.
    Recall {
        no: LeaseNo,
    },
}

impl Twin for Grant {
    fn copy(&self, alloc: Global) -> Result<Grant, Memory> {
        let (field, value) = copy_two(alloc, &self.field, &self.value)?;
        Ok(Grant {
            no: self.no,
            field,
            kind: self.kind,
            until: self.until,
            value,
        })
    }

    fn discard(self) {
        drop(self);
    }
}

impl Twin for Answer {
    fn copy(&self, alloc: Global) -> Result<Answer, Memory> {
        match self {
            Answer::Granted { grants, fresh, end } => {
                let (grants, fresh, end) = copy_three(alloc, grants, fresh, end)?;
                Ok(Answer::Granted { grants, fresh, end })
            }
            Answer::Renewed { rows, end } => {
                let (rows, end) = copy_two(alloc, rows, end)?;
                Ok(Answer::Renewed { rows, end })
            }
            Answer::Released { count, end } => Ok(Answer::Released {
                count: *count,
                end: end.copy(alloc)?,
            }),
            Answer::Shipped { count, end } => Ok(Answer::Shipped {
                count: *count,
                end: end.copy(alloc)?,
            }),
            Answer::Led { end } => Ok(Answer::Led {
                end: end.copy(alloc)?,
            }),
            Answer::Recall { no } => Ok(Answer::Recall { no: *no }),
        }
    }

    fn discard(self) {
        drop(self);
    }
}
