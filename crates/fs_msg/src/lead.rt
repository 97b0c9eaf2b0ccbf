//! What a client asks of the server that leads an operation.
use fs_field::Use;
use fs_ident::{FileId, Kind, List, Memory, Twin, copy_three};
use fs_model::Op;
use std::alloc::Global;

/// An operation that a server is to lead, with what decided it.
#[derive(Debug, Drop)]
pub struct Lead {
    /// The number of the operation in its session.
    pub n: u64,
    pub op: Op,
    /// The file that is moved or deleted.
    pub file: FileId,
    pub kind: Kind,
    /// The leases that decided the reply.
    pub uses: List<Use>,
}

impl Twin for Lead {
    fn copy(&self, alloc: Global) -> Result<Lead, Memory> {
        let (op, file, uses) = copy_three(alloc, &self.op, &self.file, &self.uses)?;
        Ok(Lead {
            n: self.n,
            op,
            file,
            kind: self.kind,
            uses,
        })
    }

    fn discard(self) {
        drop(self);
    }
}
