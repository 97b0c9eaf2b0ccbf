//! What a client notes of a turn or of an answer.
use crate::end::End;
use fs_ident::{LeaseNo, Memory, Twin};
use fs_model::Reply;
use fs_record::Why;
use std::alloc::Global;

/// What a client notes of a turn or of an answer.
#[derive(Debug, Drop)]
pub enum ClientNote {
    /// It hands in so many entries.
    Ships {
        count: u64,
        to: u8,
    },
    /// It gives so many leases back.
    Releases {
        count: u64,
        to: u8,
    },
    /// It asks for later ends of so many leases.
    Renews {
        count: u64,
        to: u8,
    },
    /// There was nothing to do, or an exchange stands.
    Idle,
    /// So many leases were given, and why no more.
    Granted {
        count: u64,
        end: End,
    },
    /// So many pairs of its renewal were answered.
    Renewed {
        count: u64,
        end: End,
    },
    /// So many pairs of its release were answered.
    Released {
        count: u64,
        end: End,
    },
    /// So many of its entries were admitted.
    Shipped {
        count: u64,
        end: End,
    },
    /// The lease is asked back.
    Recall {
        no: LeaseNo,
    },
    /// Its operation of that number was led, and is admitted with this reply.
    Led {
        n: u64,
        reply: Reply,
    },
    /// What was to be led may be asked for again.
    LedAgain {
        why: Why,
    },
    /// What was to be led is refused: the lease ended at the first reading, and the server's was the second.
    LedEnded {
        lease: LeaseNo,
        until: u64,
        now: u64,
    },
    /// No honest server sends such an answer.
    Strange,
}

impl Twin for ClientNote {
    fn copy(&self, alloc: Global) -> Result<ClientNote, Memory> {
        match self {
            ClientNote::Ships { count, to } => Ok(ClientNote::Ships {
                count: *count,
                to: *to,
            }),
            ClientNote::Releases { count, to } => Ok(ClientNote::Releases {
                count: *count,
                to: *to,
            }),
            ClientNote::Renews { count, to } => Ok(ClientNote::Renews {
                count: *count,
                to: *to,
            }),
            ClientNote::Idle => Ok(ClientNote::Idle),
            ClientNote::Granted { count, end } => Ok(ClientNote::Granted {
                count: *count,
                end: end.copy(alloc)?,
            }),
            ClientNote::Renewed { count, end } => Ok(ClientNote::Renewed {
                count: *count,
                end: end.copy(alloc)?,
            }),
            ClientNote::Released { count, end } => Ok(ClientNote::Released {
                count: *count,
                end: end.copy(alloc)?,
            }),
            ClientNote::Shipped { count, end } => Ok(ClientNote::Shipped {
                count: *count,
                end: end.copy(alloc)?,
            }),
            ClientNote::Recall { no } => Ok(ClientNote::Recall { no: *no }),
            ClientNote::Led { n, reply } => Ok(ClientNote::Led {
                n: *n,
                reply: reply.copy(alloc)?,
            }),
            ClientNote::LedAgain { why } => Ok(ClientNote::LedAgain {
                why: why.copy(alloc)?,
            }),
            ClientNote::LedEnded { lease, until, now } => Ok(ClientNote::LedEnded {
                lease: *lease,
                until: *until,
                now: *now,
            }),
            ClientNote::Strange => Ok(ClientNote::Strange),
        }
    }

    fn discard(self) {
        drop(self);
    }
}
