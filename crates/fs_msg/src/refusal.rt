//! Why a server keeps what it was to hand over.
use fs_ident::{FileId, Memory, PathNo, Twin, TxnNo};
use std::alloc::Global;

/// Why a server keeps what it was to hand over.
#[derive(Debug, Drop)]
pub enum Refusal {
    /// From the prefix on, the files are with another server.
    NotMine { prefix: FileId, to: u8 },
    /// There is no such file.
    NoFile,
    /// It is to go to the server that has it.
    Same,
    /// A transaction keeps a row of it.
    Busy { txn: TxnNo },
    /// A path lease stands on it.
    Paths { no: PathNo },
}

impl Twin for Refusal {
    fn copy(&self, alloc: Global) -> Result<Refusal, Memory> {
        match self {
            Refusal::NotMine { prefix, to } => Ok(Refusal::NotMine {
                prefix: prefix.copy(alloc)?,
                to: *to,
            }),
            Refusal::NoFile => Ok(Refusal::NoFile),
            Refusal::Same => Ok(Refusal::Same),
            Refusal::Busy { txn } => Ok(Refusal::Busy { txn: *txn }),
            Refusal::Paths { no } => Ok(Refusal::Paths { no: *no }),
        }
    }

    fn discard(self) {}
}
