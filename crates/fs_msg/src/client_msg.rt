//! What clients send to servers.
use crate::entry::Entry;
use crate::lead::Lead;
use fs_field::{Field, LeaseKind};
use fs_ident::{FileId, LeaseNo, List, Memory, Twin, copy_two};
use std::alloc::Global;

/// A request of a client.
#[derive(Debug, Drop)]
pub enum ClientMsg {
    /// Asks for leases, and for a fresh identifier below a directory.
    Ask {
        items: List<(Field, LeaseKind)>,
        fresh: Option<FileId>,
    },
    /// Asks for later ends of leases, each with the file that it is on.
    Renew {
        pairs: List<(FileId, LeaseNo)>,
    },
    /// Gives leases back, each with the file that it is on.
    Release {
        pairs: List<(FileId, LeaseNo)>,
    },
    /// Hands in entries of the log, in order.
    Ship {
        entries: List<Entry>,
    },
    /// Asks the server to lead an operation.
    Lead {
        lead: Lead,
    },
}

impl Twin for ClientMsg {
    fn copy(&self, alloc: Global) -> Result<ClientMsg, Memory> {
        match self {
            ClientMsg::Ask { items, fresh } => {
                let (items, fresh) = copy_two(alloc, items, fresh)?;
                Ok(ClientMsg::Ask { items, fresh })
            }
            ClientMsg::Renew { pairs } => Ok(ClientMsg::Renew {
                pairs: pairs.copy(alloc)?,
            }),
            ClientMsg::Release { pairs } => Ok(ClientMsg::Release {
                pairs: pairs.copy(alloc)?,
            }),
            ClientMsg::Ship { entries } => Ok(ClientMsg::Ship {
                entries: entries.copy(alloc)?,
            }),
            ClientMsg::Lead { lead } => Ok(ClientMsg::Lead {
                lead: lead.copy(alloc)?,
            }),
        }
    }

    fn discard(self) {
        drop(self);
    }
}
