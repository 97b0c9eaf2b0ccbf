//! What came of the messages that a client heard so far.
ghost use Rattle.std.specs.Prelude.{◌≡◌, ◌∷◌, [], ◌++◌, OnOk};
ghost use Rattle.fs_actor.specs.Finished.{finished};
ghost use Rattle.fs_actor.specs.Listed.{listed};

use crate::finished::finished;
use crate::lists::{add, append};
use fs_client::ClientCore;
use fs_ident::{List, Memory, Session, Twin};
use fs_msg::{ClientMsg, ClientOut, Item, Note};
use std::alloc::Global;

/// What came of the messages that a client heard so far, each in order: what is noted, what it sends to which server, what it
/// admits at once, and what it finishes.
#[derive(Debug, Drop)]
pub struct ClientHeard {
    pub notes: List<Note>,
    pub send: List<(u8, ClientMsg)>,
    pub admitted: List<Item>,
    pub finished: List<Item>,
}

impl ClientHeard {
    /// No message was heard.
    pub fn new(alloc: Global) -> ClientHeard
        ensures notes { result.notes ≡ [] }
        ensures send { result.send ≡ [] }
        ensures admitted { result.admitted ≡ [] }
        ensures finished { result.finished ≡ [] }
    {
        ClientHeard {
            notes: List::new(alloc),
            send: List::new(alloc),
            admitted: List::new(alloc),
            finished: List::new(alloc),
        }
    }

    /// What came of one more message, of a session whose client was as it is now.
    pub(crate) fn add(
        &mut self,
        alloc: Global,
        s: Session,
        client: &ClientCore,
        out: &ClientOut<Note>,
    ) -> Result<(), Memory>
        ensures notes { OnOk result (self.new.notes ≡ self.old.notes ++ out.now.note ∷ []) }
        ensures send { OnOk result (self.new.send ≡ self.old.send ++ listed out.now.send) }
        ensures admitted { OnOk result (self.new.admitted ≡
            self.old.admitted ++ listed out.now.admitted) }
        ensures finished { OnOk result (self.new.finished ≡
            self.old.finished ++ finished s client.now out.now.admitted out.now.note) }
    {
        let ClientOut {
            note,
            send,
            admitted,
        } = out.copy(alloc)?;
        let read = admitted.copy(alloc)?;
        append(&mut self.finished, finished(alloc, s, client, read, &note)?)?;
        add(&mut self.send, send)?;
        add(&mut self.admitted, admitted)?;
        self.notes.push(note)
    }
}
