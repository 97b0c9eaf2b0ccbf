//! A question that was sent and has no answer yet.
use fs_field::{Field, LeaseKind};
use fs_ident::{FileId, LeaseNo, List, Memory, Twin, copy_two};
use std::alloc::Global;

/// A question that was sent to a server and has no answer yet.
#[derive(Debug, Drop)]
pub enum Exchange {
    /// Leases on these fields were asked for, and an identifier below the directory.
    Asks {
        to: u8,
        items: List<(Field, LeaseKind)>,
        fresh: Option<FileId>,
    },
    /// Later ends of these leases were asked for.
    Renews {
        to: u8,
        numbers: List<LeaseNo>,
    },
    /// These leases were given back.
    Releases {
        to: u8,
        numbers: List<LeaseNo>,
    },
    /// So many entries of the log were handed in.
    Ships {
        to: u8,
        count: u64,
    },
    /// An operation is led.
    Leads {
        to: u8,
    },
}

impl Twin for Exchange {
    fn copy(&self, alloc: Global) -> Result<Exchange, Memory> {
        match self {
            Exchange::Asks { to, items, fresh } => {
                let (items, fresh) = copy_two(alloc, items, fresh)?;
                Ok(Exchange::Asks {
                    to: *to,
                    items,
                    fresh,
                })
            }
            Exchange::Renews { to, numbers } => Ok(Exchange::Renews {
                to: *to,
                numbers: numbers.copy(alloc)?,
            }),
            Exchange::Releases { to, numbers } => Ok(Exchange::Releases {
                to: *to,
                numbers: numbers.copy(alloc)?,
            }),
            Exchange::Ships { to, count } => Ok(Exchange::Ships {
                to: *to,
                count: *count,
            }),
            Exchange::Leads { to } => Ok(Exchange::Leads { to: *to }),
        }
    }

    fn discard(self) {
        drop(self);
    }
}
