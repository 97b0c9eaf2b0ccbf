//! A server's events, over its core and its links.
ghost use Rattle.std.specs.Prelude.{◌≡◌, ◌≤◌, true, false, None, Some, IfOk, IsErrOf, OnErr, OnOk};
ghost use Rattle.fs_actor.specs.Actor.{is_full_down, server_does, server_goes, server_hears, server_steps, with_pushed};
ghost use Rattle.fs_actor.specs.Events.{ServerDid};
ghost use Rattle.fs_actor.specs.Hearing.{event_heard, unheard_note};
ghost use Rattle.fs_ident.specs.declared.limits.TheConstants.{LATEST};
ghost use Rattle.fs_msg.specs.declared.core_error.Counter.{Counter as TheCounter};
ghost use Rattle.fs_msg.specs.declared.core_error.Counter.TheVariants.{Segments};
ghost use Rattle.fs_msg.specs.declared.core_error.CoreError.TheVariants as errors;
ghost use Rattle.fs_server.specs.Plan.{CanCommit, committed};
ghost use Rattle.fs_server.specs.Step.{CanBeTold};
ghost use Rattle.fs_window.specs.Post.{post_due};
ghost use Rattle.fs_window.specs.Undo.{undone};

use crate::hearing::{event_heard, unheard_note};
use crate::pushes::push_all;
use fs_ident::{List, Memory, Peer};
use fs_msg::{CoreError, Item};
use fs_server::{Plan, ServerCore, ServerEvent};
use fs_window::{Heard, Post, Sent, Undo};
use std::alloc::Global;
use std::mem;

/// What came of an event of a server: what it admitted, and the packets that go out.
#[derive(Debug, Drop)]
pub struct ServerTold {
    pub admitted: List<Item>,
    pub packets: List<Sent>,
}

/// What the actor's packet gave is read: it brought no message for a server, or one.
pub(crate) fn hears(
    alloc: Global,
    now: u64,
    from: Peer,
    replied: Option<Peer>,
    heard: &Heard,
    server: &mut ServerCore,
    post: &mut Post,
) -> Result<ServerTold, CoreError>
    requires reading { now ≤ LATEST }
    ensures done { IfOk result (ServerDid
        (server_hears now replied heard.now (event_heard from heard.now.joined)
        (record { server = server.old; post = post.old })) server.new post.new) }
    ensures spent { (counter : TheCounter) → IsErrOf result (errors.Spent counter) →
        (server_hears now replied heard.now (event_heard from heard.now.joined)
        (record { server = server.old; post = post.old })).spent ≡ Some counter }
    ensures err_server { OnErr result (server.new ≡ server.old) }
    ensures err_post { OnErr result (post.new ≡ post.old) }
{
    match event_heard(alloc, from, heard.joined.as_slice())? {
        Some(event) => server_steps(alloc, now, false, replied, &event, server, post),
        None => passes(alloc, replied, heard, server, post),
    }
}

/// No message was heard, and what is due goes out.
fn passes(
    alloc: Global,
    replied: Option<Peer>,
    heard: &Heard,
    server: &ServerCore,
    post: &mut Post,
) -> Result<ServerTold, CoreError>
    ensures done { IfOk result (ServerDid
        (server_goes false replied (unheard_note heard.now)
        (record { server = server.now; post = post.old })) server.now post.new) }
    ensures unspent { (counter : TheCounter) → IsErrOf result (errors.Spent counter) → ⊥ }
    ensures err_post { OnErr result (post.new ≡ post.old) }
{
    Ok(ServerTold {
        admitted: List::new(alloc),
        packets: post.due(alloc, false, replied)?,
    })
}

/// An event of the server, on its `turn` or not, and with what was `heard`. `Spent` where the event needs a number after
/// that counter's last one. After an error all is as it was.
pub fn server_steps(
    alloc: Global,
    now: u64,
    turn: bool,
    heard: Option<Peer>,
    event: &ServerEvent,
    server: &mut ServerCore,
    post: &mut Post,
) -> Result<ServerTold, CoreError>
    requires reading { now ≤ LATEST }
    requires told { CanBeTold event.now }
    ensures done { IfOk result (ServerDid
        (server_steps turn heard now event.now (record { server = server.old; post = post.old }))
        server.new post.new) }
    ensures spent { (counter : TheCounter) → IsErrOf result (errors.Spent counter) →
        (server_steps turn heard now event.now
        (record { server = server.old; post = post.old })).spent ≡ Some counter }
    ensures err_server { OnErr result (server.new ≡ server.old) }
    ensures err_post { OnErr result (post.new ≡ post.old) }
{
    let plan = server.plan(alloc, now, event)?;
    does(alloc, turn, heard, plan, server, post)
}

/// The server changes as it planned and sends, and what is due on its links goes out.
fn does(
    alloc: Global,
    turn: bool,
    heard: Option<Peer>,
    plan: Plan,
    server: &mut ServerCore,
    post: &mut Post,
) -> Result<ServerTold, CoreError>
    requires { CanCommit plan server.old }
    ensures done { IfOk result (ServerDid
        (server_does turn heard None
        (record { server = committed plan server.old; out = plan.out })
        (record { server = server.old; post = post.old })) server.new post.new) }
    ensures spent { (counter : TheCounter) → IsErrOf result (errors.Spent counter) →
        (server_does turn heard None
        (record { server = committed plan server.old; out = plan.out })
        (record { server = server.old; post = post.old })).spent ≡ Some counter }
    ensures err_server { OnErr result (server.new ≡ server.old) }
    ensures err_post { OnErr result (post.new ≡ post.old) }
{
    let mut plan = plan;
    let admitted = mem::replace(&mut plan.out.admitted, List::new(alloc));
    let packets = sends(alloc, turn, heard, plan, server, post)?;
    Ok(ServerTold { admitted, packets })
}

/// The server sends its messages and changes as it planned, and what is due on its links goes out. After an error all is
/// as it was.
fn sends(
    alloc: Global,
    turn: bool,
    heard: Option<Peer>,
    plan: Plan,
    server: &mut ServerCore,
    post: &mut Post,
) -> Result<List<Sent>, CoreError>
    requires { CanCommit plan server.old }
    ensures packets { IfOk result (λ packets. packets ≡
        (post_due (with_pushed plan.out.send post.old) turn heard).sent) }
    ensures server { OnOk result (server.new ≡ committed plan server.old) }
    ensures post { OnOk result (post.new ≡
        (post_due (with_pushed plan.out.send post.old) turn heard).links) }
    ensures room { OnOk result (is_full_down plan.out.send post.old ≡ false) }
    ensures spent { (counter : TheCounter) → IsErrOf result (errors.Spent counter) →
        (counter ≡ Segments) × (is_full_down plan.out.send post.old ≡ true) }
    ensures err_server { OnErr result (server.new ≡ server.old) }
    ensures err_post { OnErr result (post.new ≡ post.old) }
{
    let mut undo = Undo::new(alloc);
    match carry_out(alloc, turn, heard, plan, &mut undo, server, post) {
        Ok(packets) => Ok(packets),
        Err(e) => {
            post.undo(undo);
            Err(e)
        }
    }
}

/// Carries out the plan, and tells what is due on the links. Where that fails only these have changed, as `undo` keeps.
fn carry_out(
    alloc: Global,
    turn: bool,
    heard: Option<Peer>,
    plan: Plan,
    undo: &mut Undo,
    server: &mut ServerCore,
    post: &mut Post,
) -> Result<List<Sent>, CoreError>
    requires { CanCommit plan server.old }
    ensures packets { IfOk result (λ packets. packets ≡
        (post_due (with_pushed plan.out.send post.old) turn heard).sent) }
    ensures server { OnOk result (server.new ≡ committed plan server.old) }
    ensures post { OnOk result (post.new ≡
        (post_due (with_pushed plan.out.send post.old) turn heard).links) }
    ensures room { OnOk result (is_full_down plan.out.send post.old ≡ false) }
    ensures spent { (counter : TheCounter) → IsErrOf result (errors.Spent counter) →
        (counter ≡ Segments) × (is_full_down plan.out.send post.old ≡ true) }
    ensures err_server { OnErr result (server.new ≡ server.old) }
    ensures undo { OnErr result (undone undo.new post.new ≡ undone undo.old post.old) }
{
    match push_all(alloc, post, plan.out.send.as_slice(), undo) {
        Ok(()) => Ok(goes(alloc, turn, heard, plan, server, post)?),
        Err(e) => {
            drop(plan);
            Err(e)
        }
    }
}

/// The server changes, and what is due on its links goes out: both or neither.
fn goes(
    alloc: Global,
    turn: bool,
    heard: Option<Peer>,
    plan: Plan,
    server: &mut ServerCore,
    post: &mut Post,
) -> Result<List<Sent>, Memory>
    requires { CanCommit plan server.old }
    ensures packets { IfOk result (λ packets. packets ≡ (post_due post.old turn heard).sent) }
    ensures server { OnOk result (server.new ≡ committed plan server.old) }
    ensures post { OnOk result (post.new ≡ (post_due post.old turn heard).links) }
    ensures err_server { OnErr result (server.new ≡ server.old) }
    ensures err_post { OnErr result (post.new ≡ post.old) }
{
    match post.packets(alloc, turn, heard) {
        Ok(packets) => {
            server.commit(alloc, plan)?;
            post.mark_sent();
            Ok(packets)
        }
        Err(e) => {
            drop(plan);
            Err(e)
        }
    }
}
