//! A server's events.
ghost use Rattle.std.specs.Prelude.{◌≡◌, ◌≤◌, ◌++◌, true, None, IfOk, OnOk, OnErr, IsErrOf};
ghost use Rattle.fs_actor.specs.Actor.{is_full_down};
ghost use Rattle.fs_ident.specs.declared.limits.TheConstants.{LATEST};
ghost use Rattle.fs_msg.specs.declared.core_error.Counter.{Counter as TheCounter};
ghost use Rattle.fs_msg.specs.declared.core_error.Counter.TheVariants.{Segments};
ghost use Rattle.fs_msg.specs.declared.core_error.CoreError.TheVariants as errors;
ghost use Rattle.fs_serial.specs.Cluster.{in_flight_from};
ghost use Rattle.fs_server.specs.Plan.{CanCommit, committed};
ghost use Rattle.fs_server.specs.Step.{CanBeTold, step};
ghost use Rattle.fs_window.specs.Undo.{undone};
ghost use Rattle.fs_world.specs.Calls.{Spends, server_does, server_goes, server_left, with_plan};
ghost use Rattle.fs_world.specs.Linked.{FitsDown};
ghost use Rattle.fs_world.specs.Planned.{stepped_by};
ghost use Rattle.fs_world.specs.Served.{core_step, server_found, with_downs};

use crate::servers::answers_in_flight::{push_downs, undo_downs};
use crate::servers::in_flight::push_in_flight;
use crate::servers::packets::Packets;
use crate::servers::pushes::push_all;
use crate::servers::send_due::send_due;
use crate::servers::session_states::SessionStates;
use fs_actor::append;
use fs_ident::{List, Memory, Peer};
use fs_msg::{CoreError, Item, Msg, Note, ServerNote};
use fs_schedule::Outcome;
use fs_serial::InFlight;
use fs_server::{Plan, ServerCore, ServerEvent};
use fs_window::{Post, Undo};
use std::alloc::Global;
use std::mem;

/// An event of the server of number `k` at the reading, in milliseconds. After an error all is as it was.
pub(crate) fn core_step(
    alloc: Global,
    k: u8,
    turn: bool,
    heard: Option<Peer>,
    now: u64,
    event: &ServerEvent,
    core: &mut ServerCore,
    post: &mut Post,
    sessions: &mut SessionStates,
    in_flight: &mut List<InFlight>,
    journal: &mut List<Item>,
    packets: &mut Packets,
) -> Result<Outcome, CoreError>
    requires reading { now ≤ LATEST }
    requires told { CanBeTold event.now }
    ensures done { IfOk result (λ outcome.
        server_left outcome core.new post.new sessions.new in_flight.new journal.new packets.new ≡
        core_step k turn heard now event.now
        (server_found core.old post.old sessions.old in_flight.old journal.old packets.old)) }
    ensures fits { OnOk result (FitsDown (step core.old now event.now).out.send) }
    ensures spends { Spends result (core_step k turn heard now event.now
        (server_found core.old post.old sessions.old in_flight.old journal.old packets.old)).spent }
    ensures err { OnErr result (
        server_found core.new post.new sessions.new in_flight.new journal.new packets.new ≡
        server_found core.old post.old sessions.old in_flight.old journal.old packets.old) }
{
    let plan = core.plan(alloc, now, event)?;
    let mut undo = Undo::new(alloc);
    match carry_out(
        alloc, k, turn, heard, plan, &mut undo, core, post, sessions, in_flight, journal, packets,
    ) {
        Ok(outcome) => Ok(outcome),
        Err(e) => {
            post.undo(undo);
            Err(e)
        }
    }
}

/// Does what the server planned. Where that fails only its links have changed, as `undo` keeps.
fn carry_out(
    alloc: Global,
    k: u8,
    turn: bool,
    heard: Option<Peer>,
    plan: Plan,
    undo: &mut Undo,
    core: &mut ServerCore,
    post: &mut Post,
    sessions: &mut SessionStates,
    in_flight: &mut List<InFlight>,
    journal: &mut List<Item>,
    packets: &mut Packets,
) -> Result<Outcome, CoreError>
    requires { CanCommit plan core.old }
    ensures done { IfOk result (λ outcome.
        server_left outcome core.new post.new sessions.new in_flight.new journal.new packets.new ≡
        server_does k turn heard None (stepped_by plan core.old)
        (server_found core.old post.old sessions.old in_flight.old journal.old packets.old)) }
    ensures fits { OnOk result (FitsDown plan.out.send) }
    ensures spent { (counter : TheCounter) → IsErrOf result (errors.Spent counter) →
        (counter ≡ Segments) × (is_full_down plan.out.send post.old ≡ true) }
    ensures undo { OnErr result (undone undo.new post.new ≡ undone undo.old post.old) }
    ensures err { OnErr result (
        server_found core.new post.old sessions.new in_flight.new journal.new packets.new ≡
        server_found core.old post.old sessions.old in_flight.old journal.old packets.old) }
{
    let mut plan = plan;
    push_all(alloc, post, plan.out.send.as_slice(), undo)?;
    let note = mem::replace(&mut plan.out.note, ServerNote::Idle);
    let note = Note::Server(note);
    Ok(send(
        alloc, k, turn, heard, note, plan, core, post, sessions, in_flight, journal, packets,
    )?)
}

/// Sends what is due on the server's links, and does the rest of the plan: all of it, or nothing when out of memory.
fn send(
    alloc: Global,
    k: u8,
    turn: bool,
    heard: Option<Peer>,
    note: Note,
    plan: Plan,
    core: &mut ServerCore,
    post: &mut Post,
    sessions: &mut SessionStates,
    in_flight: &mut List<InFlight>,
    journal: &mut List<Item>,
    packets: &mut Packets,
) -> Result<Outcome, Memory>
    requires { CanCommit plan core.old }
    ensures done { IfOk result (λ outcome.
        server_left outcome core.new post.new sessions.new in_flight.new journal.new packets.new ≡
        server_goes k turn heard note None (with_plan k plan
        (server_found core.old post.old sessions.old in_flight.old journal.old packets.old))) }
    ensures err { OnErr result (
        server_found core.new post.new sessions.new in_flight.new journal.new packets.new ≡
        server_found core.old post.old sessions.old in_flight.old journal.old packets.old) }
{
    let before = packets.sent().len();
    let outcome = send_due(alloc, Peer::Server(k), turn, heard, note, post, packets)?;
    match admit(alloc, k, plan, core, sessions, in_flight, journal) {
        Ok(()) => {
            post.mark_sent();
            Ok(outcome)
        }
        Err(e) => {
            packets.cut_back(before);
            Err(e)
        }
    }
}

/// What the server admitted joins the journal, its messages are on their way, and it changes as planned: all of it, or
/// nothing.
fn admit(
    alloc: Global,
    k: u8,
    plan: Plan,
    core: &mut ServerCore,
    sessions: &mut SessionStates,
    in_flight: &mut List<InFlight>,
    journal: &mut List<Item>,
) -> Result<(), Memory>
    requires { CanCommit plan core.old }
    ensures server { OnOk result (core.new ≡ committed plan core.old) }
    ensures sessions { OnOk result (sessions.new ≡ with_downs k plan.out.send sessions.old) }
    ensures in_flight { OnOk result
        (in_flight.new ≡ in_flight.old ++ in_flight_from k plan.out.send) }
    ensures journal { OnOk result (journal.new ≡ journal.old ++ plan.out.admitted) }
    ensures err_server { OnErr result (core.new ≡ core.old) }
    ensures err_sessions { OnErr result (sessions.new ≡ sessions.old) }
    ensures err_flying { OnErr result (in_flight.new ≡ in_flight.old) }
    ensures err_journal { OnErr result (journal.new ≡ journal.old) }
{
    let mut plan = plan;
    let admitted = mem::replace(&mut plan.out.admitted, List::new(alloc));
    let send = mem::replace(&mut plan.out.send, List::new(alloc));
    let (items, messages) = (journal.len(), in_flight.len());
    spread(
        alloc,
        k,
        send.as_slice(),
        admitted,
        sessions,
        in_flight,
        journal,
    )?;
    match core.commit(alloc, plan) {
        Ok(()) => Ok(()),
        Err(e) => {
            undo_downs(k, sessions, send.as_slice());
            in_flight.truncate(messages);
            journal.truncate(items);
            Err(e)
        }
    }
}

/// What a server admitted joins the journal, and its messages are on their way: all of it, or nothing.
pub(crate) fn spread(
    alloc: Global,
    k: u8,
    send: &[(Peer, Msg)],
    admitted: List<Item>,
    sessions: &mut SessionStates,
    in_flight: &mut List<InFlight>,
    journal: &mut List<Item>,
) -> Result<(), Memory>
    ensures sessions { OnOk result (sessions.new ≡ with_downs k send.now sessions.old) }
    ensures in_flight { OnOk result (in_flight.new ≡ in_flight.old ++ in_flight_from k send.now) }
    ensures journal { OnOk result (journal.new ≡ journal.old ++ admitted) }
    ensures err_sessions { OnErr result (sessions.new ≡ sessions.old) }
    ensures err_flying { OnErr result (in_flight.new ≡ in_flight.old) }
    ensures err_journal { OnErr result (journal.new ≡ journal.old) }
{
    let (items, messages) = (journal.len(), in_flight.len());
    append(journal, admitted)?;
    if let Err(e) = push_in_flight(alloc, k, in_flight, send) {
        journal.truncate(items);
        return Err(e);
    }
    match push_downs(alloc, k, sessions, send) {
        Ok(()) => Ok(()),
        Err(e) => {
            in_flight.truncate(messages);
            journal.truncate(items);
            Err(e)
        }
    }
}
