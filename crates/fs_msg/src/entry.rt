//! Entries of a client's log.
use fs_field::Use;
use fs_ident::{List, Memory, Twin, copy_three};
use fs_model::{Op, Reply};
use std::alloc::Global;

/// An operation that a client decided by its leases and has not seen admitted yet.
#[derive(Debug, Drop)]
pub struct Entry {
    /// The number of the operation in its session.
    pub n: u64,
    pub op: Op,
    pub reply: Reply,
    /// The leases that decided the reply.
    pub uses: List<Use>,
}

impl Twin for Entry {
    fn copy(&self, alloc: Global) -> Result<Entry, Memory> {
        let (op, reply, uses) = copy_three(alloc, &self.op, &self.reply, &self.uses)?;
        Ok(Entry {
            n: self.n,
            op,
            reply,
            uses,
        })
    }

    fn discard(self) {
        drop(self);
    }
}
