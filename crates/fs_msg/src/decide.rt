//! What a leader tells the server of a part in the end.
use fs_field::Effect;
use fs_ident::{List, Memory, Twin, TxnNo};
use std::alloc::Global;

/// What a part that was ready does now: its effects in order, or none where the operation is given up.
#[derive(Debug, Drop)]
pub struct Decide {
    pub txn: TxnNo,
    /// The place of the part among those of the transaction.
    pub number: u8,
    pub effects: List<Effect>,
}

impl Twin for Decide {
    fn copy(&self, alloc: Global) -> Result<Decide, Memory> {
        Ok(Decide {
            txn: self.txn,
            number: self.number,
            effects: self.effects.copy(alloc)?,
        })
    }

    fn discard(self) {
        drop(self);
    }
}
