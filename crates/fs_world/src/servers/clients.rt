//! A session's events: its user's operation, its turn, and a packet of a server.
ghost use Rattle.std.specs.Prelude.{◌≡◌, ◌≤◌, true, IfOk, OnOk, OnErr};
ghost use Rattle.fs_ident.specs.declared.limits.TheConstants.{LATEST};
ghost use Rattle.fs_model.specs.Asking.{may_ask};
ghost use Rattle.fs_msg.specs.declared.answer.Answer.{Answer as TheAnswer};
ghost use Rattle.fs_client.specs.Acts.{act_plan};
ghost use Rattle.fs_client.specs.Answers.{answer_plan};
ghost use Rattle.fs_client.specs.Turns.{turn_plan};
ghost use Rattle.fs_world.specs.Calls.{Spends, session_found, session_left};
ghost use Rattle.fs_world.specs.Linked.{FitsUp};
ghost use Rattle.fs_world.specs.Served.{client_acts, client_receive_packet, client_turns};

use crate::servers::client_receive::client_hears;
use crate::servers::commit_and_send::commit_and_send;
use crate::servers::packets::Packets;
use crate::servers::session_state::SessionState;
use fs_actor::{act_noted, client_noted, heard_in};
use fs_ident::{List, Peer, Session};
use fs_model::Op;
use fs_msg::{CoreError, Item};
use fs_schedule::Outcome;
use fs_window::{Packet, Undo};
use std::alloc::Global;

/// The session's user asks for an operation. After an error all is as it was.
pub(crate) fn acts(
    alloc: Global,
    now: u64,
    s: Session,
    op: &Op,
    state: &mut SessionState,
    journal: &mut List<Item>,
    packets: &mut Packets,
) -> Result<Outcome, CoreError>
    requires reading { now ≤ LATEST }
    requires asked { may_ask op.now ≡ true }
    ensures done { IfOk result (λ outcome. session_left outcome state.new journal.new packets.new ≡
        client_acts now s op.now state.old journal.old packets.old) }
    ensures fits { OnOk result (FitsUp (act_plan state.old.client now op.now).out.send) }
    ensures spends { Spends result
        (client_acts now s op.now state.old journal.old packets.old).spent }
    ensures err { OnErr result (session_found state.new journal.new packets.new ≡
        session_found state.old journal.old packets.old) }
{
    let plan = act_noted(state.client.plan_act(alloc, now, op)?);
    commit_and_send(alloc, s, false, None, plan, state, journal, packets)
}

/// The session's client takes its turn. After an error all is as it was.
pub(crate) fn turns(
    alloc: Global,
    now: u64,
    s: Session,
    state: &mut SessionState,
    journal: &mut List<Item>,
    packets: &mut Packets,
) -> Result<Outcome, CoreError>
    requires reading { now ≤ LATEST }
    ensures done { IfOk result (λ outcome. session_left outcome state.new journal.new packets.new ≡
        client_turns now s state.old journal.old packets.old) }
    ensures fits { OnOk result (FitsUp (turn_plan state.old.client now).out.send) }
    ensures spends { Spends result
        (client_turns now s state.old journal.old packets.old).spent }
    ensures err { OnErr result (session_found state.new journal.new packets.new ≡
        session_found state.old journal.old packets.old) }
{
    let plan = client_noted(state.client.plan_turn(alloc, now)?);
    commit_and_send(alloc, s, true, None, plan, state, journal, packets)
}

/// A packet of the server of number `k` comes to the session. After an error all is as it was.
pub(crate) fn receive_packet(
    alloc: Global,
    now: u64,
    s: Session,
    k: u8,
    p: &Packet,
    state: &mut SessionState,
    journal: &mut List<Item>,
    packets: &mut Packets,
) -> Result<Outcome, CoreError>
    requires reading { now ≤ LATEST }
    ensures done { IfOk result (λ outcome. session_left outcome state.new journal.new packets.new ≡
        client_receive_packet now s k p.now state.old journal.old packets.old) }
    ensures fits { (a : TheAnswer) →
        OnOk result (FitsUp (answer_plan state.old.client now k a).out.send) }
    ensures spends { Spends result
        (client_receive_packet now s k p.now state.old journal.old packets.old).spent }
    ensures err { OnErr result (session_found state.new journal.new packets.new ≡
        session_found state.old journal.old packets.old) }
{
    let server = Peer::Server(k);
    let mut undo = Undo::new(alloc);
    let heard = state.post.accept_with_undo(alloc, server, p, &mut undo)?;
    let from = heard_in(server, p);
    match client_hears(
        alloc, now, s, k, from, &heard, state, journal, packets, &mut undo,
    ) {
        Ok(outcome) => Ok(outcome),
        Err(e) => {
            state.post.undo(undo);
            Err(e)
        }
    }
}
