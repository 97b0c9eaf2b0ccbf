//! What a server keeps of a lease that it gave.
use crate::field::Field;
use crate::lease_kind::LeaseKind;
use fs_ident::{LeaseNo, Memory, Session, Twin, TxnNo};
use std::alloc::Global;

/// A lease that was given.
#[derive(Debug, Drop)]
pub struct Row {
    pub no: LeaseNo,
    pub session: Session,
    pub field: Field,
    pub kind: LeaseKind,
    /// The reading from which on the session no longer uses it.
    pub until: u64,
    /// The truth that was told of an other value; none on every other field.
    pub promise: Option<bool>,
    /// The transaction that keeps the row.
    pub lock: Option<TxnNo>,
}

impl Twin for Row {
    fn copy(&self, alloc: Global) -> Result<Row, Memory> {
        Ok(Row {
            no: self.no,
            session: self.session,
            field: self.field.copy(alloc)?,
            kind: self.kind,
            until: self.until,
            promise: self.promise,
            lock: self.lock,
        })
    }

    fn discard(self) {
        drop(self);
    }
}
