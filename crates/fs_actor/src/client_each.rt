//! A client hears one message after another.
ghost use Rattle.std.specs.Prelude.{◌≡◌, ◌≤◌, true, Some, IsErrOf, OnOk};
ghost use Rattle.fs_actor.specs.Actor.{client_noted};
ghost use Rattle.fs_actor.specs.Events.{client_so_far};
ghost use Rattle.fs_actor.specs.Hearing.{answer_from, message_in};
ghost use Rattle.fs_actor.specs.Several.{client_hears_each, client_hears_one, client_with};
ghost use Rattle.fs_client.specs.Answers.{answer_plan};
ghost use Rattle.fs_client.specs.Client.{can_commit};
ghost use Rattle.fs_ident.specs.declared.limits.TheConstants.{LATEST};
ghost use Rattle.fs_msg.specs.declared.core_error.Counter.{Counter as TheCounter};
ghost use Rattle.fs_msg.specs.declared.core_error.CoreError.TheVariants as errors;
ghost use Rattle.fs_window.specs.Undo.{undone};

use crate::client_heard::ClientHeard;
use crate::hearing::answer_in;
use crate::noted::client_noted;
use crate::pushes::push_up;
use fs_client::{ClientCore, Plan};
use fs_ident::{Peer, Session};
use fs_msg::{Answer, CoreError, Note};
use fs_window::{Joined, Post, Undo};
use std::alloc::Global;

/// The session's client hears all that was joined of the actor, one after another, at the reading in milliseconds. What came
/// of it stands behind what was `heard` before. `Spent` where a message needs a number after that counter's last one. After
/// an error some may have been heard: its links are as `undo` keeps, so hand in a copy of a client that is still needed.
pub fn client_hears_each(
    alloc: Global,
    now: u64,
    s: Session,
    from: Peer,
    joined: &[Joined],
    client: &mut ClientCore,
    post: &mut Post,
    undo: &mut Undo,
    heard: &mut ClientHeard,
) -> Result<(), CoreError>
    requires reading { now ≤ LATEST }
    ensures done { OnOk result (client_so_far heard.new client.new post.new ≡
        client_hears_each s now from joined.now (client_so_far heard.old client.old post.old)) }
    ensures spent { (counter : TheCounter) → IsErrOf result (errors.Spent counter) →
        (client_hears_each s now from joined.now
        (client_so_far heard.old client.old post.old)).spent ≡ Some counter }
    ensures undo { undone undo.new post.new ≡ undone undo.old post.old }
{
    for one in joined {
        hears_one(alloc, now, s, from, one, client, post, undo, heard)?;
    }
    Ok(())
}

/// The client hears one of them.
fn hears_one(
    alloc: Global,
    now: u64,
    s: Session,
    from: Peer,
    joined: &Joined,
    client: &mut ClientCore,
    post: &mut Post,
    undo: &mut Undo,
    heard: &mut ClientHeard,
) -> Result<(), CoreError>
    requires reading { now ≤ LATEST }
    ensures done { OnOk result (client_so_far heard.new client.new post.new ≡
        client_hears_one s now (answer_from from (message_in joined.now))
        (client_so_far heard.old client.old post.old)) }
    ensures spent { (counter : TheCounter) → IsErrOf result (errors.Spent counter) →
        (client_hears_one s now (answer_from from (message_in joined.now))
        (client_so_far heard.old client.old post.old)).spent ≡ Some counter }
    ensures undo { undone undo.new post.new ≡ undone undo.old post.old }
{
    match answer_in(alloc, from, joined)? {
        Some((k, a)) => takes(alloc, now, s, k, &a, client, post, undo, heard),
        None => Ok(heard.notes.push(Note::Strange)?),
    }
}

/// It is an answer of the server.
fn takes(
    alloc: Global,
    now: u64,
    s: Session,
    k: u8,
    a: &Answer,
    client: &mut ClientCore,
    post: &mut Post,
    undo: &mut Undo,
    heard: &mut ClientHeard,
) -> Result<(), CoreError>
    requires reading { now ≤ LATEST }
    ensures done { OnOk result (client_so_far heard.new client.new post.new ≡
        client_with s (client_noted (answer_plan client.old now k a.now))
        (client_so_far heard.old client.old post.old)) }
    ensures spent { (counter : TheCounter) → IsErrOf result (errors.Spent counter) →
        (client_with s (client_noted (answer_plan client.old now k a.now))
        (client_so_far heard.old client.old post.old)).spent ≡ Some counter }
    ensures undo { undone undo.new post.new ≡ undone undo.old post.old }
{
    let plan = client_noted(client.plan_answer(alloc, now, k, a)?);
    does(alloc, s, plan, client, post, undo, heard)
}

/// The client does what it planned for it.
fn does(
    alloc: Global,
    s: Session,
    plan: Plan<Note>,
    client: &mut ClientCore,
    post: &mut Post,
    undo: &mut Undo,
    heard: &mut ClientHeard,
) -> Result<(), CoreError>
    requires { can_commit plan.ready client.old ≡ true }
    ensures done { OnOk result (client_so_far heard.new client.new post.new ≡
        client_with s plan (client_so_far heard.old client.old post.old)) }
    ensures spent { (counter : TheCounter) → IsErrOf result (errors.Spent counter) →
        (client_with s plan (client_so_far heard.old client.old post.old)).spent ≡ Some counter }
    ensures undo { undone undo.new post.new ≡ undone undo.old post.old }
{
    let Plan { ready, out } = plan;
    heard.add(alloc, s, client, &out)?;
    push_up(alloc, post, out.send, undo)?;
    client.commit(alloc, ready)?;
    Ok(())
}
