//! What clients plan, with their notes among those of actors.
ghost use Rattle.std.specs.Prelude.{◌≡◌};
ghost use Rattle.fs_actor.specs.Actor.{act_noted, client_noted};

use fs_client::Plan;
use fs_msg::{Act, ClientNote, ClientOut, Note};

/// The plan of an operation.
pub fn act_noted(plan: Plan<Act>) -> Plan<Note>
    ensures { result ≡ act_noted plan }
{
    let Plan { ready, out } = plan;
    let ClientOut {
        note,
        send,
        admitted,
    } = out;
    let out = ClientOut {
        note: Note::Act(note),
        send,
        admitted,
    };
    Plan { ready, out }
}

/// The plan of a turn or an answer.
pub fn client_noted(plan: Plan<ClientNote>) -> Plan<Note>
    ensures { result ≡ client_noted plan }
{
    let Plan { ready, out } = plan;
    let ClientOut {
        note,
        send,
        admitted,
    } = out;
    let out = ClientOut {
        note: Note::Client(note),
        send,
        admitted,
    };
    Plan { ready, out }
}
