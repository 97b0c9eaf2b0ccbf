//! The messages between actors.
use crate::answer::Answer;
use crate::client_msg::ClientMsg;
use crate::peer_msg::PeerMsg;
use fs_ident::{Memory, Twin};
use std::alloc::Global;

/// What one actor sends to another.
#[derive(Debug, Drop)]
pub enum Msg {
    Client(ClientMsg),
    Answer(Answer),
    Peer(PeerMsg),
}

impl Twin for Msg {
    fn copy(&self, alloc: Global) -> Result<Msg, Memory> {
        match self {
            Msg::Client(m) => Ok(Msg::Client(m.copy(alloc)?)),
            Msg::Answer(a) => Ok(Msg::Answer(a.copy(alloc)?)),
            Msg::Peer(m) => Ok(Msg::Peer(m.copy(alloc)?)),
        }
    }

    fn discard(self) {
        drop(self);
    }
}
