//! The packets that come to a server.
ghost use Rattle.std.specs.Prelude.{◌≡◌, ◌≤◌, ◌<◌, Some, IfOk, IsErrOf, OnErr, [], length};
ghost use Rattle.fs_actor.specs.Events.{ServerTook};
ghost use Rattle.fs_actor.specs.Several.{server_begins, server_hears_each, server_replies, server_takes_all, server_told_all};
ghost use Rattle.fs_ident.specs.declared.limits.TheConstants.{LATEST};
ghost use Rattle.fs_msg.specs.declared.core_error.Counter.{Counter as TheCounter};
ghost use Rattle.fs_msg.specs.declared.core_error.CoreError.TheVariants as errors;
ghost use Rattle.fs_window.specs.Undo.{undone};

use crate::hearing::heard_in;
use crate::server_each::server_hears_each;
use crate::server_events::{ServerTold, hears};
use crate::server_heard::ServerHeard;
use fs_ident::{Peer, Twin};
use fs_msg::CoreError;
use fs_server::ServerCore;
use fs_window::{Heard, Joined, Packet, Post, Undo};
use std::alloc::Global;

/// A packet of another actor comes to the server, which hears all that it joins. `Spent` where the event needs a number after
/// that counter's last one. After an error all is as it was.
pub fn server_told_all(
    alloc: Global,
    now: u64,
    from: Peer,
    p: &Packet,
    server: &mut ServerCore,
    post: &mut Post,
) -> Result<ServerTold, CoreError>
    requires reading { now ≤ LATEST }
    ensures done { IfOk result (ServerTook
        (server_told_all now from p.now (record { server = server.old; post = post.old }))
        server.new post.new) }
    ensures spent { (counter : TheCounter) → IsErrOf result (errors.Spent counter) →
        (server_told_all now from p.now
        (record { server = server.old; post = post.old })).spent ≡ Some counter }
    ensures err_server { OnErr result (server.new ≡ server.old) }
    ensures err_post { OnErr result (post.new ≡ post.old) }
{
    let mut undo = Undo::new(alloc);
    let heard = post.accept_with_undo(alloc, from, p, &mut undo)?;
    let replied = heard_in(from, p);
    match takes(alloc, now, from, replied, &heard, server, post, &mut undo) {
        Ok(told) => Ok(told),
        Err(e) => {
            post.undo(undo);
            Err(e)
        }
    }
}

/// The links took the actor's packet, and gave this: one message at most, or several.
fn takes(
    alloc: Global,
    now: u64,
    from: Peer,
    replied: Option<Peer>,
    heard: &Heard,
    server: &mut ServerCore,
    post: &mut Post,
    undo: &mut Undo,
) -> Result<ServerTold, CoreError>
    requires reading { now ≤ LATEST }
    ensures done { IfOk result (ServerTook
        (server_takes_all now from replied (record { links = post.old; heard = heard.now })
        server.old) server.new post.new) }
    ensures spent { (counter : TheCounter) → IsErrOf result (errors.Spent counter) →
        (server_takes_all now from replied (record { links = post.old; heard = heard.now })
        server.old).spent ≡ Some counter }
    ensures err_server { OnErr result (server.new ≡ server.old) }
    ensures undo { OnErr result (undone undo.new post.new ≡ undone undo.old post.old) }
{
    if heard.joined.len() <= 1 {
        takes_one(alloc, now, from, replied, heard, server, post)
    } else {
        takes_several(alloc, now, from, replied, heard, server, post, undo)
    }
}

/// The packet brought one message at most: the server itself takes the step.
fn takes_one(
    alloc: Global,
    now: u64,
    from: Peer,
    replied: Option<Peer>,
    heard: &Heard,
    server: &mut ServerCore,
    post: &mut Post,
) -> Result<ServerTold, CoreError>
    requires reading { now ≤ LATEST }
    requires few { length heard.now.joined ≤ 1 }
    ensures done { IfOk result (ServerTook
        (server_takes_all now from replied (record { links = post.old; heard = heard.now })
        server.old) server.new post.new) }
    ensures spent { (counter : TheCounter) → IsErrOf result (errors.Spent counter) →
        (server_takes_all now from replied (record { links = post.old; heard = heard.now })
        server.old).spent ≡ Some counter }
    ensures err_server { OnErr result (server.new ≡ server.old) }
    ensures err_post { OnErr result (post.new ≡ post.old) }
{
    hears(alloc, now, from, replied, heard, server, post)
}

/// It brought several: a copy of the server hears them, and stands in its place then.
fn takes_several(
    alloc: Global,
    now: u64,
    from: Peer,
    replied: Option<Peer>,
    heard: &Heard,
    server: &mut ServerCore,
    post: &mut Post,
    undo: &mut Undo,
) -> Result<ServerTold, CoreError>
    requires reading { now ≤ LATEST }
    requires several { 1 < length heard.now.joined }
    ensures done { IfOk result (ServerTook
        (server_takes_all now from replied (record { links = post.old; heard = heard.now })
        server.old) server.new post.new) }
    ensures spent { (counter : TheCounter) → IsErrOf result (errors.Spent counter) →
        (server_takes_all now from replied (record { links = post.old; heard = heard.now })
        server.old).spent ≡ Some counter }
    ensures err_server { OnErr result (server.new ≡ server.old) }
    ensures undo { OnErr result (undone undo.new post.new ≡ undone undo.old post.old) }
{
    let mut after = server.copy(alloc)?;
    let joined = heard.joined.as_slice();
    let told = replies(alloc, now, from, replied, joined, &mut after, post, undo)?;
    *server = after;
    Ok(told)
}

/// The server hears each of them, and what is due goes out.
fn replies(
    alloc: Global,
    now: u64,
    from: Peer,
    replied: Option<Peer>,
    joined: &[Joined],
    server: &mut ServerCore,
    post: &mut Post,
    undo: &mut Undo,
) -> Result<ServerTold, CoreError>
    requires reading { now ≤ LATEST }
    ensures done { IfOk result (ServerTook (server_replies replied
        (server_hears_each now from joined.now (server_begins server.old post.old [])))
        server.new post.new) }
    ensures spent { (counter : TheCounter) → IsErrOf result (errors.Spent counter) →
        (server_hears_each now from joined.now
        (server_begins server.old post.old [])).spent ≡ Some counter }
    ensures undo { OnErr result (undone undo.new post.new ≡ undone undo.old post.old) }
{
    let mut heard = ServerHeard::new(alloc);
    server_hears_each(alloc, now, from, joined, server, post, undo, &mut heard)?;
    let packets = post.due(alloc, false, replied)?;
    Ok(ServerTold {
        admitted: heard.admitted,
        packets,
    })
}
