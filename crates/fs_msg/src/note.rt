//! Notes: what an event came to.
use crate::act::Act;
use crate::client_note::ClientNote;
use crate::server_note::ServerNote;
use fs_ident::{Memory, Twin};
use fs_model::Reply;
use std::alloc::Global;

/// What an event came to.
#[derive(Debug, Drop)]
pub enum Note {
    /// What a server notes.
    Server(ServerNote),
    /// What a client notes of a turn or of an answer.
    Client(ClientNote),
    /// What a client makes of an operation.
    Act(Act),
    /// The session began.
    Joined,
    /// The namespace answered the session's operation of that number.
    Answered { n: u64, reply: Reply },
    /// Nothing was done.
    Nothing,
    /// The packet gave nothing new.
    None,
    /// The packet gave a part of a message that is not whole yet.
    Part,
    /// What came is no packet, or no message.
    Strange,
}

impl Twin for Note {
    fn copy(&self, alloc: Global) -> Result<Note, Memory> {
        match self {
            Note::Server(note) => Ok(Note::Server(note.copy(alloc)?)),
            Note::Client(note) => Ok(Note::Client(note.copy(alloc)?)),
            Note::Act(act) => Ok(Note::Act(act.copy(alloc)?)),
            Note::Joined => Ok(Note::Joined),
            Note::Answered { n, reply } => Ok(Note::Answered {
                n: *n,
                reply: reply.copy(alloc)?,
            }),
            Note::Nothing => Ok(Note::Nothing),
            Note::None => Ok(Note::None),
            Note::Part => Ok(Note::Part),
            Note::Strange => Ok(Note::Strange),
        }
    }

    fn discard(self) {
        drop(self);
    }
}
