//! How an operation that a server led for a session ends.
use fs_ident::{FileId, LeaseNo, Memory, PathNo, Twin, TxnNo};
use fs_model::Reply;
use std::alloc::Global;

/// Why a question between servers, or an operation that is led, has to be asked again.
#[derive(Debug, Drop)]
pub enum Why {
    /// Another server has the file.
    Moved { prefix: FileId, to: u8 },
    /// The path of this file is not known, and is asked for.
    Wanted { file: FileId },
    /// The transaction keeps this file where it is.
    Frozen { file: FileId, txn: TxnNo },
    /// A path over the file is given out.
    PathsOut { no: PathNo },
    /// The path of the destination is no longer what it was.
    Changed,
    /// The directory has no such child.
    NoChild,
}

/// The end of an operation that was led.
#[derive(Debug, Drop)]
pub enum LedEnd {
    /// It is admitted, with this reply.
    Done {
        reply: Reply,
    },
    /// It is refused: a lease that it used has no row any more. `until` is the reading at which the lease ended, and `now` the
    /// server's reading.
    Ended {
        lease: LeaseNo,
        until: u64,
        now: u64,
    },
    /// It is neither admitted nor refused, and may be asked for again.
    Again {
        why: Why,
    },
}

impl Twin for Why {
    fn copy(&self, alloc: Global) -> Result<Why, Memory> {
        match self {
            Why::Moved { prefix, to } => Ok(Why::Moved {
                prefix: prefix.copy(alloc)?,
                to: *to,
            }),
            Why::Wanted { file } => Ok(Why::Wanted {
                file: file.copy(alloc)?,
            }),
            Why::Frozen { file, txn } => Ok(Why::Frozen {
                file: file.copy(alloc)?,
                txn: *txn,
            }),
            Why::PathsOut { no } => Ok(Why::PathsOut { no: *no }),
            Why::Changed => Ok(Why::Changed),
            Why::NoChild => Ok(Why::NoChild),
        }
    }

    fn discard(self) {
        drop(self);
    }
}

impl Twin for LedEnd {
    fn copy(&self, alloc: Global) -> Result<LedEnd, Memory> {
        match self {
            LedEnd::Done { reply } => Ok(LedEnd::Done {
                reply: reply.copy(alloc)?,
            }),
            LedEnd::Ended { lease, until, now } => Ok(LedEnd::Ended {
                lease: *lease,
                until: *until,
                now: *now,
            }),
            LedEnd::Again { why } => Ok(LedEnd::Again {
                why: why.copy(alloc)?,
            }),
        }
    }

    fn discard(self) {
        drop(self);
    }
}
