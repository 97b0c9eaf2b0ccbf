//! What is on its way between servers.
use fs_ident::{Memory, Twin};
use fs_msg::PeerMsg;
use std::alloc::Global;

/// A message on its way from one server to another, by their numbers.
#[derive(Debug, Drop)]
pub struct InFlight {
    pub from: u8,
    pub to: u8,
    pub message: PeerMsg,
}

impl Twin for InFlight {
    fn copy(&self, alloc: Global) -> Result<InFlight, Memory> {
        Ok(InFlight {
            from: self.from,
            to: self.to,
            message: self.message.copy(alloc)?,
        })
    }

    fn discard(self) {
        drop(self);
    }
}
