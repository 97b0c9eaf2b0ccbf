//! What goes from one actor to another.
use fs_ident::{List, Memory, Peer, Twin};
use std::alloc::Global;

/// The bytes of a packet that one actor sent to another.
#[derive(Debug, Drop)]
pub struct Sent {
    pub from: Peer,
    pub to: Peer,
    pub bytes: List<u8>,
}

impl Twin for Sent {
    fn copy(&self, alloc: Global) -> Result<Sent, Memory> {
        Ok(Sent {
            from: self.from,
            to: self.to,
            bytes: self.bytes.copy(alloc)?,
        })
    }

    fn discard(self) {}
}
