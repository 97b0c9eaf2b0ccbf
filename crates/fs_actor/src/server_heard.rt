//! What came of the messages that a server heard so far.
ghost use Rattle.std.specs.Prelude.{◌≡◌, ◌∷◌, [], ◌++◌, OnOk};
ghost use Rattle.fs_msg.specs.declared.note.Note.TheVariants as note;

use crate::lists::append;
use fs_ident::{List, Memory, Peer, Twin};
use fs_msg::{Item, Msg, Note};
use fs_server::ServerOut;
use std::alloc::Global;

/// What came of the messages that a server heard so far, each in order: what is noted, what it sends to whom, and what it
/// admits.
#[derive(Debug, Drop)]
pub struct ServerHeard {
    pub notes: List<Note>,
    pub send: List<(Peer, Msg)>,
    pub admitted: List<Item>,
}

impl ServerHeard {
    /// No message was heard.
    pub fn new(alloc: Global) -> ServerHeard
        ensures notes { result.notes ≡ [] }
        ensures send { result.send ≡ [] }
        ensures admitted { result.admitted ≡ [] }
    {
        ServerHeard {
            notes: List::new(alloc),
            send: List::new(alloc),
            admitted: List::new(alloc),
        }
    }

    /// What came of one more message.
    pub(crate) fn add(&mut self, alloc: Global, out: &ServerOut) -> Result<(), Memory>
        ensures notes { OnOk result (self.new.notes ≡
            self.old.notes ++ note.Server out.now.note ∷ []) }
        ensures send { OnOk result (self.new.send ≡ self.old.send ++ out.now.send) }
        ensures admitted { OnOk result (self.new.admitted ≡
            self.old.admitted ++ out.now.admitted) }
    {
        let ServerOut {
            note,
            send,
            admitted,
        } = out.copy(alloc)?;
        append(&mut self.send, send)?;
        append(&mut self.admitted, admitted)?;
        self.notes.push(Note::Server(note))
    }
}
