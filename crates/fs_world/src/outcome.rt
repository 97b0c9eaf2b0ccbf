//! What an event comes to that sends nothing.
ghost use Rattle.std.specs.Prelude.{◌≡◌, IfOk};
ghost use Rattle.fs_world.specs.Direct.{outcome_of};

use fs_ident::{List, Memory, Peer};
use fs_msg::Note;
use fs_schedule::Outcome;
use std::alloc::Global;

/// An outcome of one note, in which nothing is sent.
pub(crate) fn outcome(alloc: Global, who: Option<Peer>, note: Note) -> Result<Outcome, Memory>
    ensures { IfOk result (λ o. o ≡ outcome_of who note) }
{
    let mut notes = List::new(alloc);
    notes.push(note)?;
    Ok(Outcome {
        who,
        notes,
        sent: List::new(alloc),
    })
}
