//! What the server of a part tells its leader last.
use fs_ident::{Memory, Twin, TxnNo};
use std::alloc::Global;

/// A part did what was decided.
#[derive(Debug, Drop)]
pub struct Done {
    pub txn: TxnNo,
    /// The place of the part among those of the transaction.
    pub number: u8,
}

impl Twin for Done {
    fn copy(&self, _: Global) -> Result<Done, Memory> {
        Ok(Done {
            txn: self.txn,
            number: self.number,
        })
    }

    fn discard(self) {
        drop(self);
    }
}
