//! What a client makes of an operation that its user asks for.
use crate::client_msg::ClientMsg;
use crate::item::Item;
use fs_field::Need;
use fs_ident::{FileId, List, Memory, Twin, copy_three};
use fs_model::Reply;
use std::alloc::Global;

/// What an operation has to wait for.
#[derive(Clone, Copy, Debug, PartialEq, Eq)]
pub enum Busy {
    /// A question that was sent has no answer yet.
    Exchange,
    /// Entries of the log are not admitted yet.
    Log,
    /// A led operation has not ended yet.
    Led,
}

/// What a client makes of an operation that its user asks for.
#[derive(Debug, Drop)]
pub enum Act {
    /// It is answered, and is an entry of the log now.
    Replied { n: u64, reply: Reply },
    /// It is answered and admitted at once.
    ReadNow { n: u64, reply: Reply },
    /// These are missing; they are asked for.
    Asked { needs: List<Need>, to: u8 },
    /// The server is to lead it, under that number.
    Leading { n: u64, to: u8 },
    /// It has to wait.
    Busy { what: Busy },
    /// The directory has no number left for a new child.
    NoIds { dir: FileId },
    /// The session ended when its entry of that number was refused.
    Over { n: u64 },
}

/// What comes of an event at a client: what it notes, what it sends to which server, and what it admits.
#[derive(Debug, Drop)]
pub struct ClientOut<N: Drop> {
    pub note: N,
    pub send: Option<(u8, ClientMsg)>,
    pub admitted: Option<Item>,
}

impl Twin for Act {
    fn copy(&self, alloc: Global) -> Result<Act, Memory> {
        match self {
            Act::Replied { n, reply } => Ok(Act::Replied {
                n: *n,
                reply: reply.copy(alloc)?,
            }),
            Act::ReadNow { n, reply } => Ok(Act::ReadNow {
                n: *n,
                reply: reply.copy(alloc)?,
            }),
            Act::Asked { needs, to } => Ok(Act::Asked {
                needs: needs.copy(alloc)?,
                to: *to,
            }),
            Act::Leading { n, to } => Ok(Act::Leading { n: *n, to: *to }),
            Act::Busy { what } => Ok(Act::Busy { what: *what }),
            Act::NoIds { dir } => Ok(Act::NoIds {
                dir: dir.copy(alloc)?,
            }),
            Act::Over { n } => Ok(Act::Over { n: *n }),
        }
    }

    fn discard(self) {
        drop(self);
    }
}

impl<N: Twin + Drop> Twin for ClientOut<N> {
    fn copy(&self, alloc: Global) -> Result<ClientOut<N>, Memory> {
        let (note, send, admitted) = copy_three(alloc, &self.note, &self.send, &self.admitted)?;
        Ok(ClientOut {
            note,
            send,
            admitted,
        })
    }

    fn discard(self) {
        drop(self);
    }
}
