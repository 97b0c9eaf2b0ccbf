//! The answer of a server to a part of a led operation.
use fs_ident::{FileId, LeaseNo, Memory, PathNo, Twin};
use std::alloc::Global;

/// Whether a part is ready.
#[derive(Debug, Drop)]
pub enum Vote {
    /// Its rows are locked.
    Yes,
    /// A lease has no row any more.
    Ended {
        lease: LeaseNo,
        until: u64,
        now: u64,
    },
    /// Another server has the file.
    Moved {
        prefix: FileId,
        to: u8,
    },
    /// A path over the file is given out.
    PathsOut {
        no: PathNo,
    },
}

impl Twin for Vote {
    fn copy(&self, alloc: Global) -> Result<Vote, Memory> {
        match self {
            Vote::Yes => Ok(Vote::Yes),
            Vote::Ended { lease, until, now } => Ok(Vote::Ended {
                lease: *lease,
                until: *until,
                now: *now,
            }),
            Vote::Moved { prefix, to } => Ok(Vote::Moved {
                prefix: prefix.copy(alloc)?,
                to: *to,
            }),
            Vote::PathsOut { no } => Ok(Vote::PathsOut { no: *no }),
        }
    }

    fn discard(self) {}
}
