//! What a packet gives.
use fs_frag::Joined;
use fs_ident::{List, Memory, Twin};
use std::alloc::Global;

/// What a packet of another actor gave.
#[derive(Debug, Drop)]
pub struct Heard {
    /// How many segments it gave.
    pub fresh: u64,
    /// What these segments completed, in order.
    pub joined: List<Joined>,
}

impl Twin for Heard {
    fn copy(&self, alloc: Global) -> Result<Heard, Memory> {
        Ok(Heard {
            fresh: self.fresh,
            joined: self.joined.copy(alloc)?,
        })
    }

    fn discard(self) {}
}
