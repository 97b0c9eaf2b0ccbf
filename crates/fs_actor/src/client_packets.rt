//! The packets that come to a client.
ghost use Rattle.std.specs.Prelude.{◌≡◌, ◌≤◌, ◌<◌, Some, IfOk, IsErrOf, OnErr, [], length};
ghost use Rattle.fs_actor.specs.Events.{ClientTook};
ghost use Rattle.fs_actor.specs.Several.{client_begins, client_hears_each, client_replies, client_takes_all, client_told_all};
ghost use Rattle.fs_ident.specs.declared.limits.TheConstants.{LATEST};
ghost use Rattle.fs_msg.specs.declared.core_error.Counter.{Counter as TheCounter};
ghost use Rattle.fs_msg.specs.declared.core_error.CoreError.TheVariants as errors;
ghost use Rattle.fs_window.specs.Undo.{undone};

use crate::client_each::client_hears_each;
use crate::client_events::{ClientEvent, took};
use crate::client_heard::ClientHeard;
use crate::hearing::heard_in;
use fs_client::ClientCore;
use fs_ident::{List, Peer, Session, Twin};
use fs_msg::{CoreError, Item};
use fs_window::{Heard, Joined, Packet, Post, Sent, Undo};
use std::alloc::Global;
use std::mem;

/// What came of a packet that came to a client: what it finished, and the packets that go out.
#[derive(Debug, Drop)]
pub struct ClientTold {
    pub finished: List<Item>,
    pub packets: List<Sent>,
}

/// A packet of another actor comes to the session's client, which hears all that it joins. `Spent` where the event needs a
/// number after that counter's last one. After an error all is as it was.
pub fn client_told_all(
    alloc: Global,
    now: u64,
    s: Session,
    from: Peer,
    p: &Packet,
    client: &mut ClientCore,
    post: &mut Post,
) -> Result<ClientTold, CoreError>
    requires reading { now ≤ LATEST }
    ensures done { IfOk result (ClientTook
        (client_told_all s now from p.now (record { client = client.old; post = post.old }))
        client.new post.new) }
    ensures spent { (counter : TheCounter) → IsErrOf result (errors.Spent counter) →
        (client_told_all s now from p.now
        (record { client = client.old; post = post.old })).spent ≡ Some counter }
    ensures err_client { OnErr result (client.new ≡ client.old) }
    ensures err_post { OnErr result (post.new ≡ post.old) }
{
    let mut undo = Undo::new(alloc);
    let heard = post.accept_with_undo(alloc, from, p, &mut undo)?;
    let replied = heard_in(from, p);
    match takes(
        alloc, now, s, from, replied, &heard, client, post, &mut undo,
    ) {
        Ok(told) => Ok(told),
        Err(e) => {
            post.undo(undo);
            Err(e)
        }
    }
}

/// The links took the actor's packet, and gave this: one message at most, or several.
fn takes(
    alloc: Global,
    now: u64,
    s: Session,
    from: Peer,
    replied: Option<Peer>,
    heard: &Heard,
    client: &mut ClientCore,
    post: &mut Post,
    undo: &mut Undo,
) -> Result<ClientTold, CoreError>
    requires reading { now ≤ LATEST }
    ensures done { IfOk result (ClientTook
        (client_takes_all s now from replied (record { links = post.old; heard = heard.now })
        client.old) client.new post.new) }
    ensures spent { (counter : TheCounter) → IsErrOf result (errors.Spent counter) →
        (client_takes_all s now from replied (record { links = post.old; heard = heard.now })
        client.old).spent ≡ Some counter }
    ensures err_client { OnErr result (client.new ≡ client.old) }
    ensures undo { OnErr result (undone undo.new post.new ≡ undone undo.old post.old) }
{
    if heard.joined.len() <= 1 {
        takes_one(alloc, now, s, from, replied, heard, client, post)
    } else {
        takes_several(alloc, now, s, from, replied, heard, client, post, undo)
    }
}

/// The packet brought one message at most: the client itself takes the step.
fn takes_one(
    alloc: Global,
    now: u64,
    s: Session,
    from: Peer,
    replied: Option<Peer>,
    heard: &Heard,
    client: &mut ClientCore,
    post: &mut Post,
) -> Result<ClientTold, CoreError>
    requires reading { now ≤ LATEST }
    requires few { length heard.now.joined ≤ 1 }
    ensures done { IfOk result (ClientTook
        (client_takes_all s now from replied (record { links = post.old; heard = heard.now })
        client.old) client.new post.new) }
    ensures spent { (counter : TheCounter) → IsErrOf result (errors.Spent counter) →
        (client_takes_all s now from replied (record { links = post.old; heard = heard.now })
        client.old).spent ≡ Some counter }
    ensures err_client { OnErr result (client.new ≡ client.old) }
    ensures err_post { OnErr result (post.new ≡ post.old) }
{
    let ClientEvent {
        note,
        finished,
        packets,
    } = took(alloc, now, s, from, replied, heard, client, post)?;
    drop(note);
    Ok(ClientTold { finished, packets })
}

/// It brought several: a copy of the client hears them, and stands in its place then.
fn takes_several(
    alloc: Global,
    now: u64,
    s: Session,
    from: Peer,
    replied: Option<Peer>,
    heard: &Heard,
    client: &mut ClientCore,
    post: &mut Post,
    undo: &mut Undo,
) -> Result<ClientTold, CoreError>
    requires reading { now ≤ LATEST }
    requires several { 1 < length heard.now.joined }
    ensures done { IfOk result (ClientTook
        (client_takes_all s now from replied (record { links = post.old; heard = heard.now })
        client.old) client.new post.new) }
    ensures spent { (counter : TheCounter) → IsErrOf result (errors.Spent counter) →
        (client_takes_all s now from replied (record { links = post.old; heard = heard.now })
        client.old).spent ≡ Some counter }
    ensures err_client { OnErr result (client.new ≡ client.old) }
    ensures undo { OnErr result (undone undo.new post.new ≡ undone undo.old post.old) }
{
    let mut after = client.copy(alloc)?;
    let joined = heard.joined.as_slice();
    match replies(alloc, now, s, from, replied, joined, &mut after, post, undo) {
        Ok(told) => {
            mem::replace(client, after).discard();
            Ok(told)
        }
        Err(e) => {
            after.discard();
            Err(e)
        }
    }
}

/// The client hears each of them, and what is due goes out.
fn replies(
    alloc: Global,
    now: u64,
    s: Session,
    from: Peer,
    replied: Option<Peer>,
    joined: &[Joined],
    client: &mut ClientCore,
    post: &mut Post,
    undo: &mut Undo,
) -> Result<ClientTold, CoreError>
    requires reading { now ≤ LATEST }
    ensures done { IfOk result (ClientTook (client_replies replied
        (client_hears_each s now from joined.now (client_begins client.old post.old [])))
        client.new post.new) }
    ensures spent { (counter : TheCounter) → IsErrOf result (errors.Spent counter) →
        (client_hears_each s now from joined.now
        (client_begins client.old post.old [])).spent ≡ Some counter }
    ensures undo { OnErr result (undone undo.new post.new ≡ undone undo.old post.old) }
{
    let mut heard = ClientHeard::new(alloc);
    client_hears_each(alloc, now, s, from, joined, client, post, undo, &mut heard)?;
    let packets = post.due(alloc, false, replied)?;
    Ok(ClientTold {
        finished: heard.finished,
        packets,
    })
}
