//! How far a server got with a request.
use fs_ident::{FileId, LeaseNo, Memory, Twin, TxnNo};
use std::alloc::Global;

/// Why an answer goes no further, or that it answers all.
#[derive(Debug, Drop)]
pub enum End {
    /// All is answered.
    All,
    /// The next lease conflicts with one that is given out.
    Wait {
        blocker: LeaseNo,
    },
    /// The next field is locked by a transaction.
    Locked {
        txn: TxnNo,
    },
    /// The next file is with another server.
    Moved {
        prefix: FileId,
        to: u8,
    },
    /// The directory has no number left for a new child.
    NoIds {
        dir: FileId,
    },
    /// A lease of the entry of that number has ended: its end, and the moment at which it was missed.
    Ended {
        n: u64,
        lease: LeaseNo,
        until: u64,
        now: u64,
    },
}

impl Twin for End {
    fn copy(&self, alloc: Global) -> Result<End, Memory> {
        match self {
            End::All => Ok(End::All),
            End::Wait { blocker } => Ok(End::Wait { blocker: *blocker }),
            End::Locked { txn } => Ok(End::Locked { txn: *txn }),
            End::Moved { prefix, to } => Ok(End::Moved {
                prefix: prefix.copy(alloc)?,
                to: *to,
            }),
            End::NoIds { dir } => Ok(End::NoIds {
                dir: dir.copy(alloc)?,
            }),
            End::Ended {
                n,
                lease,
                until,
                now,
            } => Ok(End::Ended {
                n: *n,
                lease: *lease,
                until: *until,
                now: *now,
            }),
        }
    }

    fn discard(self) {
        drop(self);
    }
}
