//! What comes of an event at a server.
use fs_ident::{List, Memory, Peer, Twin, copy_three};
use fs_msg::{Item, Msg, ServerNote};
use std::alloc::Global;

/// What comes of an event at a server.
#[derive(Debug, Drop)]
pub struct ServerOut {
    pub note: ServerNote,
    /// The messages, in the order in which they are sent.
    pub send: List<(Peer, Msg)>,
    /// The operations that are admitted, in order.
    pub admitted: List<Item>,
}

impl Twin for ServerOut {
    fn copy(&self, alloc: Global) -> Result<ServerOut, Memory> {
        let (note, send, admitted) = copy_three(alloc, &self.note, &self.send, &self.admitted)?;
        Ok(ServerOut {
            note,
            send,
            admitted,
        })
    }

    fn discard(self) {
        drop(self);
    }
}
