//! What a session hears in the packets of a server.
ghost use Rattle.std.specs.Prelude.{◌≡◌, ◌≤◌, ◌<◌, IfOk, IsErrOf, List as Seq, OnErr, Some, [], length};
ghost use Rattle.fs_actor.specs.Hearing.{answer_heard};
ghost use Rattle.fs_actor.specs.Several.{client_begins, client_hears_each, client_replies};
ghost use Rattle.fs_ident.specs.declared.actor.Peer.TheVariants.{Server};
ghost use Rattle.fs_ident.specs.declared.limits.TheConstants.{LATEST};
ghost use Rattle.fs_msg.specs.declared.core_error.Counter.{Counter as TheCounter};
ghost use Rattle.fs_msg.specs.declared.core_error.CoreError.TheVariants as errors;
ghost use Rattle.fs_msg.specs.declared.item.Item.{Item as TheItem};
ghost use Rattle.fs_window.specs.Undo.{undone};
ghost use Rattle.fs_world.specs.Calls.{IsRun, Spends, client_heard, client_hears, client_hears_one, client_takes, session_found, session_left};

use crate::servers::commit_and_send::commit_and_send;
use crate::servers::packets::Packets;
use crate::servers::removals::remove_each;
use crate::servers::send_due::{send_due, send_noted};
use crate::servers::session_state::SessionState;
use fs_actor::{ClientHeard, answer_heard, client_hears_each, client_noted, unheard_note};
use fs_client::ClientCore;
use fs_ident::{List, Peer, Session, Twin};
use fs_msg::{Answer, CoreError, Item};
use fs_schedule::Outcome;
use fs_window::{Heard, Joined, Post, Undo};
use std::alloc::Global;
use std::mem;

/// What a packet gave is read: the client hears all that was joined, and this is on its way no more. After an error the links
/// are as `undo` keeps, and all else is as it was.
pub(crate) fn client_hears(
    alloc: Global,
    now: u64,
    s: Session,
    k: u8,
    from: Option<Peer>,
    heard: &Heard,
    state: &mut SessionState,
    journal: &mut List<Item>,
    packets: &mut Packets,
    undo: &mut Undo,
) -> Result<Outcome, CoreError>
    requires reading { now ≤ LATEST }
    ensures done { IfOk result (λ outcome. session_left outcome state.new journal.new packets.new ≡
        client_hears now s k from heard.now state.old journal.old packets.old) }
    ensures spends { Spends result
        (client_hears now s k from heard.now state.old journal.old packets.old).spent }
    ensures err { OnErr result (
        session_found (record state.new { post = state.old.post }) journal.new packets.new ≡
        session_found state.old journal.old packets.old) }
    ensures undo { OnErr result (undone undo.new state.new.post ≡ undone undo.old state.old.post) }
{
    let outcome = hears_all(alloc, now, s, k, from, heard, state, journal, packets, undo)?;
    remove_each(&mut state.down, k, heard.joined.as_slice());
    Ok(outcome)
}

/// It was one message at most, or several.
fn hears_all(
    alloc: Global,
    now: u64,
    s: Session,
    k: u8,
    from: Option<Peer>,
    heard: &Heard,
    state: &mut SessionState,
    journal: &mut List<Item>,
    packets: &mut Packets,
    undo: &mut Undo,
) -> Result<Outcome, CoreError>
    requires reading { now ≤ LATEST }
    ensures done { IfOk result (λ outcome. session_left outcome state.new journal.new packets.new ≡
        client_heard now s k from heard.now state.old journal.old packets.old) }
    ensures spends { Spends result
        (client_heard now s k from heard.now state.old journal.old packets.old).spent }
    ensures err { OnErr result (
        session_found (record state.new { post = state.old.post }) journal.new packets.new ≡
        session_found state.old journal.old packets.old) }
    ensures undo { OnErr result (undone undo.new state.new.post ≡ undone undo.old state.old.post) }
{
    if heard.joined.len() <= 1 {
        hears_one(alloc, now, s, k, from, heard, state, journal, packets)
    } else {
        hears_several(alloc, now, s, k, from, heard, state, packets, undo)
    }
}

/// It brought no answer, or one: the client itself takes the step. After an error all is as it was.
fn hears_one(
    alloc: Global,
    now: u64,
    s: Session,
    k: u8,
    from: Option<Peer>,
    heard: &Heard,
    state: &mut SessionState,
    journal: &mut List<Item>,
    packets: &mut Packets,
) -> Result<Outcome, CoreError>
    requires reading { now ≤ LATEST }
    ensures done { IfOk result (λ outcome. session_left outcome state.new journal.new packets.new ≡
        client_hears_one now s k from heard.now (answer_heard heard.now.joined) state.old
        journal.old packets.old) }
    ensures spends { Spends result (client_hears_one now s k from heard.now
        (answer_heard heard.now.joined) state.old journal.old packets.old).spent }
    ensures err { OnErr result (session_found state.new journal.new packets.new ≡
        session_found state.old journal.old packets.old) }
{
    match answer_heard(alloc, heard.joined.as_slice())? {
        None => {
            let note = unheard_note(heard);
            let who = Peer::Client(s);
            let outcome = send_due(alloc, who, false, from, note, &state.post, packets)?;
            state.post.mark_sent();
            Ok(outcome)
        }
        Some(a) => takes(alloc, now, s, k, from, &a, state, journal, packets),
    }
}

/// An answer came. After an error all is as it was.
fn takes(
    alloc: Global,
    now: u64,
    s: Session,
    k: u8,
    from: Option<Peer>,
    a: &Answer,
    state: &mut SessionState,
    journal: &mut List<Item>,
    packets: &mut Packets,
) -> Result<Outcome, CoreError>
    requires reading { now ≤ LATEST }
    ensures done { IfOk result (λ outcome. session_left outcome state.new journal.new packets.new ≡
        client_takes now s k from a.now state.old journal.old packets.old) }
    ensures spends { Spends result
        (client_takes now s k from a.now state.old journal.old packets.old).spent }
    ensures err { OnErr result (session_found state.new journal.new packets.new ≡
        session_found state.old journal.old packets.old) }
{
    let plan = client_noted(state.client.plan_answer(alloc, now, k, a)?);
    commit_and_send(alloc, s, false, from, plan, state, journal, packets)
}

/// It brought several: a copy of the client hears them, and stands in its place then. Answers make a client send nothing and
/// admit nothing.
fn hears_several(
    alloc: Global,
    now: u64,
    s: Session,
    k: u8,
    from: Option<Peer>,
    heard: &Heard,
    state: &mut SessionState,
    packets: &mut Packets,
    undo: &mut Undo,
) -> Result<Outcome, CoreError>
    requires reading { now ≤ LATEST }
    requires several { 1 < length heard.now.joined }
    ensures done { (journal : Seq TheItem) → IfOk result (λ outcome.
        session_left outcome state.new journal packets.new ≡
        client_heard now s k from heard.now state.old journal packets.old) }
    ensures spends { (journal : Seq TheItem) → Spends result
        (client_heard now s k from heard.now state.old journal packets.old).spent }
    ensures err { OnErr result (record state.new { post = state.old.post } ≡ state.old) }
    ensures err_packets { OnErr result (packets.new ≡ packets.old) }
    ensures undo { OnErr result (undone undo.new state.new.post ≡ undone undo.old state.old.post) }
{
    let mut after = state.client.copy(alloc)?;
    let joined = heard.joined.as_slice();
    match replies(
        alloc,
        now,
        s,
        k,
        from,
        joined,
        &mut after,
        &mut state.post,
        packets,
        undo,
    ) {
        Ok(outcome) => {
            mem::replace(&mut state.client, after).discard();
            Ok(outcome)
        }
        Err(e) => {
            after.discard();
            Err(e)
        }
    }
}

/// The client hears each of them, and what is due goes out.
fn replies(
    alloc: Global,
    now: u64,
    s: Session,
    k: u8,
    from: Option<Peer>,
    joined: &[Joined],
    client: &mut ClientCore,
    post: &mut Post,
    packets: &mut Packets,
    undo: &mut Undo,
) -> Result<Outcome, CoreError>
    requires reading { now ≤ LATEST }
    ensures done { IfOk result (λ outcome. IsRun (client_replies from
        (client_hears_each s now (Server k) joined.now (client_begins client.old post.old [])))
        s packets.old outcome client.new post.new packets.new) }
    ensures spent { (counter : TheCounter) → IsErrOf result (errors.Spent counter) →
        (client_hears_each s now (Server k) joined.now
        (client_begins client.old post.old [])).spent ≡ Some counter }
    ensures err { OnErr result (packets.new ≡ packets.old) }
    ensures undo { OnErr result (undone undo.new post.new ≡ undone undo.old post.old) }
{
    let mut heard = ClientHeard::new(alloc);
    client_hears_each(
        alloc,
        now,
        s,
        Peer::Server(k),
        joined,
        client,
        post,
        undo,
        &mut heard,
    )?;
    let outcome = send_noted(
        alloc,
        Peer::Client(s),
        false,
        from,
        heard.notes,
        post,
        packets,
    )?;
    post.mark_sent();
    Ok(outcome)
}
