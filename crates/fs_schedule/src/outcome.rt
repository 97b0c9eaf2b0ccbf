//! What came of an event.
use fs_ident::{List, Memory, Peer, Twin};
use fs_msg::Note;
use std::alloc::Global;

/// The actor of an event, what it notes, and the numbers of the packets that it sent.
#[derive(Debug, Drop)]
pub struct Outcome {
    pub who: Option<Peer>,
    pub notes: List<Note>,
    pub sent: List<u64>,
}

impl Twin for Outcome {
    fn copy(&self, alloc: Global) -> Result<Outcome, Memory> {
        let notes = self.notes.copy(alloc)?;
        let sent = self.sent.copy(alloc)?;
        Ok(Outcome {
            who: self.who,
            notes,
            sent,
        })
    }

    fn discard(self) {}
}
