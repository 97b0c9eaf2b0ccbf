//! Items of the journal.
use fs_ident::{Memory, Peer, Twin, copy_two};
use fs_model::{Op, Reply};
use std::alloc::Global;

/// An admitted operation: who asked for it, under which number, and the reply.
#[derive(Debug, Drop)]
pub struct Item {
    pub by: Peer,
    pub n: u64,
    pub op: Op,
    pub reply: Reply,
}

impl Twin for Item {
    fn copy(&self, alloc: Global) -> Result<Item, Memory> {
        let (op, reply) = copy_two(alloc, &self.op, &self.reply)?;
        Ok(Item {
            by: self.by,
            n: self.n,
            op,
            reply,
        })
    }

    fn discard(self) {
        drop(self);
    }
}
