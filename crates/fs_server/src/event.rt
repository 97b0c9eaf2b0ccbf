//! What happens to a server.
use fs_field::Field;
use fs_ident::{FileId, Memory, Session, Twin};
use fs_msg::{ClientMsg, PeerMsg};
use std::alloc::Global;

/// What happens to a server.
#[derive(Debug, Drop)]
pub enum ServerEvent {
    /// A message of the session comes.
    FromClient(Session, ClientMsg),
    /// A message of the server of this number comes.
    FromPeer(u8, PeerMsg),
    /// It is the server's turn.
    Turn,
    /// The leases on the field are asked back.
    Recall(Field),
    /// What the server manages below the prefix is to go to another server.
    Move { prefix: FileId, to: u8 },
}

impl Twin for ServerEvent {
    fn copy(&self, alloc: Global) -> Result<ServerEvent, Memory> {
        match self {
            ServerEvent::FromClient(by, m) => Ok(ServerEvent::FromClient(*by, m.copy(alloc)?)),
            ServerEvent::FromPeer(from, m) => Ok(ServerEvent::FromPeer(*from, m.copy(alloc)?)),
            ServerEvent::Turn => Ok(ServerEvent::Turn),
            ServerEvent::Recall(field) => Ok(ServerEvent::Recall(field.copy(alloc)?)),
            ServerEvent::Move { prefix, to } => Ok(ServerEvent::Move {
                prefix: prefix.copy(alloc)?,
                to: *to,
            }),
        }
    }

    fn discard(self) {
        drop(self);
    }
}
