//! What an event changes at a client.
use crate::exchange::Exchange;
use crate::led::Led;
use fs_field::Effect;
use fs_ident::{FileId, LeaseNo, List, Memory, Twin, copy_two};
use fs_msg::Entry;
use fs_view::NewLease;
use std::alloc::Global;

/// What an event changes, beside the reading and the leases that are over at it.
#[derive(Debug, Drop)]
pub enum Change {
    /// Nothing.
    Nothing,
    /// A read is admitted at once.
    Read,
    /// One entry more, with what it will do.
    Reply {
        entry: Entry,
        effects: List<Effect>,
    },
    /// A question stands.
    Ask {
        exchange: Exchange,
    },
    /// These leases go back.
    Leave {
        to: u8,
        numbers: List<LeaseNo>,
    },
    /// These leases come, and the directory has no number left.
    Grant {
        leases: List<NewLease>,
        full: Option<FileId>,
    },
    /// These leases have other ends, or none any more.
    Renew {
        ends: List<(LeaseNo, Option<u64>)>,
    },
    /// The server has these leases back.
    Release {
        numbers: List<LeaseNo>,
    },
    /// So many entries are known to be admitted; the refused entry, if there is one.
    Admit {
        count: u64,
        over: Option<u64>,
    },
    /// The server is asked to lead an operation.
    Lead {
        to: u8,
        led: Led,
    },
    /// What was led is admitted, with what it did.
    LedDone {
        effects: List<Effect>,
    },
    /// What was led is not admitted.
    LedFreed,
    /// The server asked for a lease.
    Recall {
        no: LeaseNo,
    },
}

impl Twin for Change {
    fn copy(&self, alloc: Global) -> Result<Change, Memory> {
        match self {
            Change::Nothing => Ok(Change::Nothing),
            Change::Read => Ok(Change::Read),
            Change::Reply { entry, effects } => {
                let (entry, effects) = copy_two(alloc, entry, effects)?;
                Ok(Change::Reply { entry, effects })
            }
            Change::Ask { exchange } => Ok(Change::Ask {
                exchange: exchange.copy(alloc)?,
            }),
            Change::Leave { to, numbers } => Ok(Change::Leave {
                to: *to,
                numbers: numbers.copy(alloc)?,
            }),
            Change::Grant { leases, full } => {
                let (leases, full) = copy_two(alloc, leases, full)?;
                Ok(Change::Grant { leases, full })
            }
            Change::Renew { ends } => Ok(Change::Renew {
                ends: ends.copy(alloc)?,
            }),
            Change::Release { numbers } => Ok(Change::Release {
                numbers: numbers.copy(alloc)?,
            }),
            Change::Admit { count, over } => Ok(Change::Admit {
                count: *count,
                over: *over,
            }),
            Change::Lead { to, led } => Ok(Change::Lead {
                to: *to,
                led: led.copy(alloc)?,
            }),
            Change::LedDone { effects } => Ok(Change::LedDone {
                effects: effects.copy(alloc)?,
            }),
            Change::LedFreed => Ok(Change::LedFreed),
            Change::Recall { no } => Ok(Change::Recall { no: *no }),
        }
    }

    fn discard(self) {
        drop(self);
    }
}
