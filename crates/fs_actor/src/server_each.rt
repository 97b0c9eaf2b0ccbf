//! A server hears one message after another.
ghost use Rattle.std.specs.Prelude.{◌≡◌, ◌≤◌, ◌++◌, [], ◌∷◌, true, false, None, Some, IsErrOf, OnOk};
ghost use Rattle.fs_actor.specs.Actor.{is_full_down, with_pushed};
ghost use Rattle.fs_actor.specs.Events.{server_so_far};
ghost use Rattle.fs_actor.specs.Hearing.{event_of, message_in};
ghost use Rattle.fs_actor.specs.Several.{server_hears_each, server_hears_one, server_with};
ghost use Rattle.fs_ident.specs.declared.limits.TheConstants.{LATEST};
ghost use Rattle.fs_msg.specs.declared.core_error.Counter.{Counter as TheCounter};
ghost use Rattle.fs_msg.specs.declared.core_error.Counter.TheVariants.{Segments};
ghost use Rattle.fs_msg.specs.declared.core_error.CoreError.TheVariants as errors;
ghost use Rattle.fs_msg.specs.declared.note.Note.TheVariants as note;
ghost use Rattle.fs_server.specs.Plan.{CanCommit, committed};
ghost use Rattle.fs_server.specs.Step.{CanBeTold, spent_by, step};
ghost use Rattle.fs_window.specs.Undo.{undone};

use crate::hearing::event_in;
use crate::pushes::push_all;
use crate::server_heard::ServerHeard;
use fs_ident::Peer;
use fs_msg::{CoreError, Note};
use fs_server::{Plan, ServerCore, ServerEvent, ServerOut};
use fs_window::{Joined, Post, Undo};
use std::alloc::Global;

/// The server hears all that was joined of the actor, one after another, at the reading in milliseconds. What came of it stands
/// behind what was `heard` before. `Spent` where a message needs a number after that counter's last one. After an error some
/// may have been heard: its links are as `undo` keeps, so hand in a copy of a server that is still needed.
pub fn server_hears_each(
    alloc: Global,
    now: u64,
    from: Peer,
    joined: &[Joined],
    server: &mut ServerCore,
    post: &mut Post,
    undo: &mut Undo,
    heard: &mut ServerHeard,
) -> Result<(), CoreError>
    requires reading { now ≤ LATEST }
    ensures done { OnOk result (server_so_far heard.new server.new post.new ≡
        server_hears_each now from joined.now (server_so_far heard.old server.old post.old)) }
    ensures spent { (counter : TheCounter) → IsErrOf result (errors.Spent counter) →
        (server_hears_each now from joined.now
        (server_so_far heard.old server.old post.old)).spent ≡ Some counter }
    ensures undo { undone undo.new post.new ≡ undone undo.old post.old }
{
    for one in joined {
        hears_one(alloc, now, from, one, server, post, undo, heard)?;
    }
    Ok(())
}

/// The server hears one of them.
fn hears_one(
    alloc: Global,
    now: u64,
    from: Peer,
    joined: &Joined,
    server: &mut ServerCore,
    post: &mut Post,
    undo: &mut Undo,
    heard: &mut ServerHeard,
) -> Result<(), CoreError>
    requires reading { now ≤ LATEST }
    ensures done { OnOk result (server_so_far heard.new server.new post.new ≡
        server_hears_one now (event_of from (message_in joined.now))
        (server_so_far heard.old server.old post.old)) }
    ensures spent { (counter : TheCounter) → IsErrOf result (errors.Spent counter) →
        (server_hears_one now (event_of from (message_in joined.now))
        (server_so_far heard.old server.old post.old)).spent ≡ Some counter }
    ensures undo { undone undo.new post.new ≡ undone undo.old post.old }
{
    match event_in(alloc, from, joined)? {
        Some(event) => takes(alloc, now, &event, server, post, undo, heard),
        None => Ok(heard.notes.push(Note::Strange)?),
    }
}

/// The server takes a step for it.
fn takes(
    alloc: Global,
    now: u64,
    event: &ServerEvent,
    server: &mut ServerCore,
    post: &mut Post,
    undo: &mut Undo,
    heard: &mut ServerHeard,
) -> Result<(), CoreError>
    requires reading { now ≤ LATEST }
    requires told { CanBeTold event.now }
    ensures done { OnOk result (server_so_far heard.new server.new post.new ≡
        server_with (spent_by server.old now event.now) (step server.old now event.now)
        (server_so_far heard.old server.old post.old)) }
    ensures spent { (counter : TheCounter) → IsErrOf result (errors.Spent counter) →
        (server_with (spent_by server.old now event.now) (step server.old now event.now)
        (server_so_far heard.old server.old post.old)).spent ≡ Some counter }
    ensures undo { undone undo.new post.new ≡ undone undo.old post.old }
{
    let plan = server.plan(alloc, now, event)?;
    does(alloc, plan, server, post, undo, heard)
}

/// The server changes as it planned, and sends.
fn does(
    alloc: Global,
    plan: Plan,
    server: &mut ServerCore,
    post: &mut Post,
    undo: &mut Undo,
    heard: &mut ServerHeard,
) -> Result<(), CoreError>
    requires { CanCommit plan server.old }
    ensures done { OnOk result (server_so_far heard.new server.new post.new ≡
        server_with None (record { server = committed plan server.old; out = plan.out })
        (server_so_far heard.old server.old post.old)) }
    ensures spent { (counter : TheCounter) → IsErrOf result (errors.Spent counter) →
        (server_with None (record { server = committed plan server.old; out = plan.out })
        (server_so_far heard.old server.old post.old)).spent ≡ Some counter }
    ensures undo { undone undo.new post.new ≡ undone undo.old post.old }
{
    sends(alloc, &plan.out, post, undo, heard)?;
    server.commit(alloc, plan)?;
    Ok(())
}

/// What came of it is noted, and what the server sends goes onto its links.
fn sends(
    alloc: Global,
    out: &ServerOut,
    post: &mut Post,
    undo: &mut Undo,
    heard: &mut ServerHeard,
) -> Result<(), CoreError>
    ensures notes { OnOk result (heard.new.notes ≡
        heard.old.notes ++ note.Server out.now.note ∷ []) }
    ensures send { OnOk result (heard.new.send ≡ heard.old.send ++ out.now.send) }
    ensures admitted { OnOk result (heard.new.admitted ≡ heard.old.admitted ++ out.now.admitted) }
    ensures ok { OnOk result (post.new ≡ with_pushed out.now.send post.old) }
    ensures room { OnOk result (is_full_down out.now.send post.old ≡ false) }
    ensures spent { (counter : TheCounter) → IsErrOf result (errors.Spent counter) →
        (counter ≡ Segments) × (is_full_down out.now.send post.old ≡ true) }
    ensures undo { undone undo.new post.new ≡ undone undo.old post.old }
{
    heard.add(alloc, out)?;
    push_all(alloc, post, out.send.as_slice(), undo)
}
