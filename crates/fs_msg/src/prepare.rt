//! What a leader asks of the server of a part.
use fs_field::Part;
use fs_ident::{Memory, Session, Twin, TxnNo};
use std::alloc::Global;

/// A part that a server is to make ready.
#[derive(Debug, Drop)]
pub struct Prepare {
    pub txn: TxnNo,
    /// The place of the part among those of the transaction.
    pub number: u8,
    /// The session whose operation it is.
    pub session: Session,
    pub part: Part,
}

impl Twin for Prepare {
    fn copy(&self, alloc: Global) -> Result<Prepare, Memory> {
        Ok(Prepare {
            txn: self.txn,
            number: self.number,
            session: self.session,
            part: self.part.copy(alloc)?,
        })
    }

    fn discard(self) {
        drop(self);
    }
}
