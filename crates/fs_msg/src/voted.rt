//! What the server of a part answers its leader.
use fs_field::Vote;
use fs_ident::{Memory, Twin, TxnNo};
use std::alloc::Global;

/// Whether a part is ready.
#[derive(Debug, Drop)]
pub struct Voted {
    pub txn: TxnNo,
    /// The place of the part among those of the transaction.
    pub number: u8,
    pub vote: Vote,
}

impl Twin for Voted {
    fn copy(&self, alloc: Global) -> Result<Voted, Memory> {
        Ok(Voted {
            txn: self.txn,
            number: self.number,
            vote: self.vote.copy(alloc)?,
        })
    }

    fn discard(self) {
        drop(self);
    }
}
