//! A packet that comes to a server.
ghost use Rattle.std.specs.Prelude.{◌≡◌, ◌≤◌, ◌<◌, ◌++◌, IfOk, IsErrOf, OnOk, OnErr, Some, [], false, length};
ghost use Rattle.fs_actor.specs.Hearing.{event_heard};
ghost use Rattle.fs_actor.specs.Several.{server_begins, server_hears_each, server_replies};
ghost use Rattle.fs_ident.specs.declared.actor.Peer.TheVariants.{Server};
ghost use Rattle.fs_ident.specs.declared.limits.TheConstants.{LATEST};
ghost use Rattle.fs_msg.specs.declared.core_error.Counter.{Counter as TheCounter};
ghost use Rattle.fs_msg.specs.declared.core_error.CoreError.TheVariants as errors;
ghost use Rattle.fs_serial.specs.Cluster.{in_flight_from};
ghost use Rattle.fs_window.specs.Peers.{same_peer};
ghost use Rattle.fs_window.specs.Post.{post_accepted, post_due};
ghost use Rattle.fs_window.specs.Undo.{undone};
ghost use Rattle.fs_world.specs.Calls.{IsServerRun, Spends, server_heard, server_hears, server_hears_one, server_left};
ghost use Rattle.fs_world.specs.Linked.{FitsDown};
ghost use Rattle.fs_world.specs.Packets.{numbers_from, with_sent};
ghost use Rattle.fs_world.specs.Planned.{IsAnswered};
ghost use Rattle.fs_world.specs.Served.{server_found, server_receive_packet, with_downs};

use crate::servers::packets::Packets;
use crate::servers::pushes::have_room;
use crate::servers::removals::remove_joined;
use crate::servers::send_due::{send_due, send_noted};
use crate::servers::server_events::{core_step, spread};
use crate::servers::session_states::SessionStates;
use fs_actor::{ServerHeard, event_heard, heard_in, server_hears_each, unheard_note};
use fs_ident::{List, Memory, Peer, Twin};
use fs_msg::{CoreError, Item};
use fs_schedule::Outcome;
use fs_serial::InFlight;
use fs_server::ServerCore;
use fs_window::{Heard, Joined, Packet, Post, Undo};
use std::alloc::Global;
use std::mem;

/// A packet of another actor comes to the server of number `k`, at the reading in milliseconds. After an error all is as it
/// was.
pub(crate) fn server_receive_packet(
    alloc: Global,
    now: u64,
    k: u8,
    from: Peer,
    p: &Packet,
    core: &mut ServerCore,
    post: &mut Post,
    sessions: &mut SessionStates,
    in_flight: &mut List<InFlight>,
    journal: &mut List<Item>,
    packets: &mut Packets,
) -> Result<Outcome, CoreError>
    requires reading { now ≤ LATEST }
    requires apart { same_peer from (Server k) ≡ false }
    ensures done { IfOk result (λ outcome.
        server_left outcome core.new post.new sessions.new in_flight.new journal.new packets.new ≡
        server_receive_packet now k from p.now
        (server_found core.old post.old sessions.old in_flight.old journal.old packets.old)) }
    ensures fits { OnOk result (IsAnswered now from
        (post_accepted post.old from p.now).heard.joined
        (server_found core.old (post_accepted post.old from p.now).links
        sessions.old in_flight.old journal.old packets.old)) }
    ensures spends { Spends result (server_receive_packet now k from p.now
        (server_found core.old post.old sessions.old in_flight.old journal.old packets.old)).spent }
    ensures err { OnErr result (
        server_found core.new post.new sessions.new in_flight.new journal.new packets.new ≡
        server_found core.old post.old sessions.old in_flight.old journal.old packets.old) }
{
    let mut undo = Undo::new(alloc);
    let heard = post.accept_with_undo(alloc, from, p, &mut undo)?;
    let replied = heard_in(from, p);
    match server_hears(
        alloc, now, k, from, replied, &heard, core, post, sessions, in_flight, journal, packets,
        &mut undo,
    ) {
        Ok(outcome) => Ok(outcome),
        Err(e) => {
            post.undo(undo);
            Err(e)
        }
    }
}

/// What the actor's packet gave is read: the server hears all that was joined, and this is on its way no more. After an error
/// the links are as `undo` keeps, and all else is as it was.
fn server_hears(
    alloc: Global,
    now: u64,
    k: u8,
    from: Peer,
    replied: Option<Peer>,
    heard: &Heard,
    core: &mut ServerCore,
    post: &mut Post,
    sessions: &mut SessionStates,
    in_flight: &mut List<InFlight>,
    journal: &mut List<Item>,
    packets: &mut Packets,
    undo: &mut Undo,
) -> Result<Outcome, CoreError>
    requires reading { now ≤ LATEST }
    requires apart { same_peer from (Server k) ≡ false }
    ensures done { IfOk result (λ outcome.
        server_left outcome core.new post.new sessions.new in_flight.new journal.new packets.new ≡
        server_hears now k from replied heard.now
        (server_found core.old post.old sessions.old in_flight.old journal.old packets.old)) }
    ensures fits { OnOk result (IsAnswered now from heard.now.joined
        (server_found core.old post.old sessions.old in_flight.old journal.old packets.old)) }
    ensures spends { Spends result (server_hears now k from replied heard.now
        (server_found core.old post.old sessions.old in_flight.old journal.old packets.old)).spent }
    ensures err { OnErr result (
        server_found core.new post.old sessions.new in_flight.new journal.new packets.new ≡
        server_found core.old post.old sessions.old in_flight.old journal.old packets.old) }
    ensures undo { OnErr result (undone undo.new post.new ≡ undone undo.old post.old) }
{
    let outcome = hears_all(
        alloc, now, k, from, replied, heard, core, post, sessions, in_flight, journal, packets,
        undo,
    )?;
    remove_joined(sessions, in_flight, k, from, heard.joined.as_slice());
    Ok(outcome)
}

/// It was one message at most, or several.
fn hears_all(
    alloc: Global,
    now: u64,
    k: u8,
    from: Peer,
    replied: Option<Peer>,
    heard: &Heard,
    core: &mut ServerCore,
    post: &mut Post,
    sessions: &mut SessionStates,
    in_flight: &mut List<InFlight>,
    journal: &mut List<Item>,
    packets: &mut Packets,
    undo: &mut Undo,
) -> Result<Outcome, CoreError>
    requires reading { now ≤ LATEST }
    ensures done { IfOk result (λ outcome.
        server_left outcome core.new post.new sessions.new in_flight.new journal.new packets.new ≡
        server_heard now k from replied heard.now
        (server_found core.old post.old sessions.old in_flight.old journal.old packets.old)) }
    ensures fits { OnOk result (IsAnswered now from heard.now.joined
        (server_found core.old post.old sessions.old in_flight.old journal.old packets.old)) }
    ensures spends { Spends result (server_heard now k from replied heard.now
        (server_found core.old post.old sessions.old in_flight.old journal.old packets.old)).spent }
    ensures err { OnErr result (
        server_found core.new post.old sessions.new in_flight.new journal.new packets.new ≡
        server_found core.old post.old sessions.old in_flight.old journal.old packets.old) }
    ensures undo { OnErr result (undone undo.new post.new ≡ undone undo.old post.old) }
{
    if heard.joined.len() <= 1 {
        hears_one(
            alloc, now, k, from, replied, heard, core, post, sessions, in_flight, journal, packets,
        )
    } else {
        hears_several(
            alloc, now, k, from, replied, heard, core, post, sessions, in_flight, journal, packets,
            undo,
        )
    }
}

/// It brought no message for a server, or one: the server itself takes the step. After an error all is as it was.
fn hears_one(
    alloc: Global,
    now: u64,
    k: u8,
    from: Peer,
    replied: Option<Peer>,
    heard: &Heard,
    core: &mut ServerCore,
    post: &mut Post,
    sessions: &mut SessionStates,
    in_flight: &mut List<InFlight>,
    journal: &mut List<Item>,
    packets: &mut Packets,
) -> Result<Outcome, CoreError>
    requires reading { now ≤ LATEST }
    requires few { length heard.now.joined ≤ 1 }
    ensures done { IfOk result (λ outcome.
        server_left outcome core.new post.new sessions.new in_flight.new journal.new packets.new ≡
        server_hears_one now k replied heard.now (event_heard from heard.now.joined)
        (server_found core.old post.old sessions.old in_flight.old journal.old packets.old)) }
    ensures fits { OnOk result (IsAnswered now from heard.now.joined
        (server_found core.old post.old sessions.old in_flight.old journal.old packets.old)) }
    ensures spends { Spends result (server_hears_one now k replied heard.now
        (event_heard from heard.now.joined)
        (server_found core.old post.old sessions.old in_flight.old journal.old packets.old)).spent }
    ensures err { OnErr result (
        server_found core.new post.new sessions.new in_flight.new journal.new packets.new ≡
        server_found core.old post.old sessions.old in_flight.old journal.old packets.old) }
{
    match event_heard(alloc, from, heard.joined.as_slice())? {
        None => {
            let note = unheard_note(heard);
            let outcome = send_due(alloc, Peer::Server(k), false, replied, note, post, packets)?;
            post.mark_sent();
            Ok(outcome)
        }
        Some(event) => core_step(
            alloc, k, false, replied, now, &event, core, post, sessions, in_flight, journal,
            packets,
        ),
    }
}

/// It brought several: a copy of the server hears them, and stands in its place then.
fn hears_several(
    alloc: Global,
    now: u64,
    k: u8,
    from: Peer,
    replied: Option<Peer>,
    heard: &Heard,
    core: &mut ServerCore,
    post: &mut Post,
    sessions: &mut SessionStates,
    in_flight: &mut List<InFlight>,
    journal: &mut List<Item>,
    packets: &mut Packets,
    undo: &mut Undo,
) -> Result<Outcome, CoreError>
    requires reading { now ≤ LATEST }
    requires several { 1 < length heard.now.joined }
    ensures done { IfOk result (λ outcome.
        server_left outcome core.new post.new sessions.new in_flight.new journal.new packets.new ≡
        server_heard now k from replied heard.now
        (server_found core.old post.old sessions.old in_flight.old journal.old packets.old)) }
    ensures fits { OnOk result (IsAnswered now from heard.now.joined
        (server_found core.old post.old sessions.old in_flight.old journal.old packets.old)) }
    ensures spends { Spends result (server_heard now k from replied heard.now
        (server_found core.old post.old sessions.old in_flight.old journal.old packets.old)).spent }
    ensures err { OnErr result (
        server_found core.new post.old sessions.new in_flight.new journal.new packets.new ≡
        server_found core.old post.old sessions.old in_flight.old journal.old packets.old) }
    ensures undo { OnErr result (undone undo.new post.new ≡ undone undo.old post.old) }
{
    let mut after = core.copy(alloc)?;
    let joined = heard.joined.as_slice();
    match replies(
        alloc, now, k, from, replied, joined, &mut after, post, sessions, in_flight, journal,
        packets, undo,
    ) {
        Ok(outcome) => {
            mem::replace(core, after).discard();
            Ok(outcome)
        }
        Err(e) => {
            after.discard();
            Err(e)
        }
    }
}

/// The server hears each of them, what is due goes out, and what it sends is on its way.
fn replies(
    alloc: Global,
    now: u64,
    k: u8,
    from: Peer,
    replied: Option<Peer>,
    joined: &[Joined],
    core: &mut ServerCore,
    post: &mut Post,
    sessions: &mut SessionStates,
    in_flight: &mut List<InFlight>,
    journal: &mut List<Item>,
    packets: &mut Packets,
    undo: &mut Undo,
) -> Result<Outcome, CoreError>
    requires reading { now ≤ LATEST }
    ensures done { IfOk result (λ outcome. IsServerRun (server_replies replied
        (server_hears_each now from joined.now (server_begins core.old post.old []))) k
        (server_found core.old post.old sessions.old in_flight.old journal.old packets.old)
        outcome core.new post.new sessions.new in_flight.new journal.new packets.new) }
    ensures fits { OnOk result (FitsDown
        (server_hears_each now from joined.now (server_begins core.old post.old [])).send) }
    ensures spent { (counter : TheCounter) → IsErrOf result (errors.Spent counter) →
        (server_hears_each now from joined.now
        (server_begins core.old post.old [])).spent ≡ Some counter }
    ensures err_sessions { OnErr result (sessions.new ≡ sessions.old) }
    ensures err_flying { OnErr result (in_flight.new ≡ in_flight.old) }
    ensures err_journal { OnErr result (journal.new ≡ journal.old) }
    ensures err_packets { OnErr result (packets.new ≡ packets.old) }
    ensures undo { OnErr result (undone undo.new post.new ≡ undone undo.old post.old) }
{
    let mut heard = ServerHeard::new(alloc);
    server_hears_each(alloc, now, from, joined, core, post, undo, &mut heard)?;
    have_room(alloc, heard.send.as_slice())?;
    Ok(send_all(
        alloc, k, replied, heard, post, sessions, in_flight, journal, packets,
    )?)
}

/// What the server sent and admitted as it heard them stands where it is to stand, and what is due on its links goes out: all of
/// it, or nothing when out of memory.
fn send_all(
    alloc: Global,
    k: u8,
    replied: Option<Peer>,
    heard: ServerHeard,
    post: &mut Post,
    sessions: &mut SessionStates,
    in_flight: &mut List<InFlight>,
    journal: &mut List<Item>,
    packets: &mut Packets,
) -> Result<Outcome, Memory>
    ensures outcome { IfOk result (λ outcome. outcome ≡ record {
      who = Some (Server k);
      notes = heard.notes;
      sent = numbers_from (length packets.old.sent) (post_due post.old false replied).sent;
    }) }
    ensures post { OnOk result (post.new ≡ (post_due post.old false replied).links) }
    ensures packets { OnOk result (packets.new ≡
        with_sent (post_due post.old false replied).sent packets.old) }
    ensures sessions { OnOk result (sessions.new ≡ with_downs k heard.send sessions.old) }
    ensures in_flight { OnOk result (in_flight.new ≡ in_flight.old ++ in_flight_from k heard.send) }
    ensures journal { OnOk result (journal.new ≡ journal.old ++ heard.admitted) }
    ensures err_post { OnErr result (post.new ≡ post.old) }
    ensures err_sessions { OnErr result (sessions.new ≡ sessions.old) }
    ensures err_flying { OnErr result (in_flight.new ≡ in_flight.old) }
    ensures err_journal { OnErr result (journal.new ≡ journal.old) }
    ensures err_packets { OnErr result (packets.new ≡ packets.old) }
{
    let ServerHeard {
        notes,
        send,
        admitted,
    } = heard;
    let before = packets.sent().len();
    let outcome = send_noted(alloc, Peer::Server(k), false, replied, notes, post, packets)?;
    match spread(
        alloc,
        k,
        send.as_slice(),
        admitted,
        sessions,
        in_flight,
        journal,
    ) {
        Ok(()) => {
            post.mark_sent();
            Ok(outcome)
        }
        Err(e) => {
            packets.cut_back(before);
            Err(e)
        }
    }
}
