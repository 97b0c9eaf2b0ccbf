//! A client's events, over its core and its links.
ghost use Rattle.std.specs.Prelude.{◌≡◌, ◌≤◌, true, false, None, Some, IfOk, IsErrOf, OnErr, OnOk};
ghost use Rattle.fs_actor.specs.Actor.{client_acts, client_does, client_goes, client_hears, client_noted, client_turns, is_full_up, post_after};
ghost use Rattle.fs_actor.specs.Comes.{client_took};
ghost use Rattle.fs_actor.specs.Events.{ClientDid};
ghost use Rattle.fs_actor.specs.Hearing.{answer_heard, unheard_note};
ghost use Rattle.fs_client.specs.Answers.{answer_plan};
ghost use Rattle.fs_client.specs.Client.{can_commit, committed};
ghost use Rattle.fs_ident.specs.declared.limits.TheConstants.{LATEST};
ghost use Rattle.fs_model.specs.Asking.{may_ask};
ghost use Rattle.fs_msg.specs.declared.core_error.Counter.{Counter as TheCounter};
ghost use Rattle.fs_msg.specs.declared.core_error.Counter.TheVariants.{Segments};
ghost use Rattle.fs_msg.specs.declared.core_error.CoreError.TheVariants as errors;
ghost use Rattle.fs_window.specs.Post.{post_due};

use crate::finished::finished;
use crate::hearing::{answer_heard, unheard_note};
use crate::noted::{act_noted, client_noted};
use crate::pushes::push_up;
use fs_client::{ClientCore, Plan, Ready};
use fs_ident::{List, Memory, Peer, Session};
use fs_model::Op;
use fs_msg::{Answer, ClientMsg, ClientOut, CoreError, Item, Note};
use fs_window::{Heard, Post, Sent, Undo};
use std::alloc::Global;

/// What came of an event of a client: what is noted, what it finished, and the packets that go out.
#[derive(Debug, Drop)]
pub struct ClientEvent {
    pub note: Note,
    pub finished: List<Item>,
    pub packets: List<Sent>,
}

/// The client's user asks for an operation. `Spent` where the event needs a number after that counter's last one. After
/// an error all is as it was.
pub fn client_acts(
    alloc: Global,
    now: u64,
    s: Session,
    op: &Op,
    client: &mut ClientCore,
    post: &mut Post,
) -> Result<ClientEvent, CoreError>
    requires reading { now ≤ LATEST }
    requires asked { may_ask op.now ≡ true }
    ensures done { IfOk result (ClientDid s client.old
        (client_acts now op.now (record { client = client.old; post = post.old }))
        client.new post.new) }
    ensures spent { (counter : TheCounter) → IsErrOf result (errors.Spent counter) →
        (client_acts now op.now (record { client = client.old; post = post.old })).spent ≡
        Some counter }
    ensures err_client { OnErr result (client.new ≡ client.old) }
    ensures err_post { OnErr result (post.new ≡ post.old) }
{
    let plan = act_noted(client.plan_act(alloc, now, op)?);
    does(alloc, s, false, None, plan, client, post)
}

/// The client takes its turn. `Spent` where the event needs a number after that counter's last one. After an error all
/// is as it was.
pub fn client_turns(
    alloc: Global,
    now: u64,
    s: Session,
    client: &mut ClientCore,
    post: &mut Post,
) -> Result<ClientEvent, CoreError>
    requires reading { now ≤ LATEST }
    ensures done { IfOk result (ClientDid s client.old
        (client_turns now (record { client = client.old; post = post.old }))
        client.new post.new) }
    ensures spent { (counter : TheCounter) → IsErrOf result (errors.Spent counter) →
        (client_turns now (record { client = client.old; post = post.old })).spent ≡
        Some counter }
    ensures err_client { OnErr result (client.new ≡ client.old) }
    ensures err_post { OnErr result (post.new ≡ post.old) }
{
    let plan = client_noted(client.plan_turn(alloc, now)?);
    does(alloc, s, true, None, plan, client, post)
}

/// The links took the actor's packet, and gave this: one message at most. A client hears servers alone.
pub(crate) fn took(
    alloc: Global,
    now: u64,
    s: Session,
    from: Peer,
    replied: Option<Peer>,
    heard: &Heard,
    client: &mut ClientCore,
    post: &mut Post,
) -> Result<ClientEvent, CoreError>
    requires reading { now ≤ LATEST }
    ensures done { IfOk result (ClientDid s client.old
        (client_took now from replied heard.now (record { client = client.old; post = post.old }))
        client.new post.new) }
    ensures spent { (counter : TheCounter) → IsErrOf result (errors.Spent counter) →
        (client_took now from replied heard.now
        (record { client = client.old; post = post.old })).spent ≡ Some counter }
    ensures err_client { OnErr result (client.new ≡ client.old) }
    ensures err_post { OnErr result (post.new ≡ post.old) }
{
    match from {
        Peer::Server(k) => hears(alloc, now, s, k, replied, heard, client, post),
        Peer::Client(_) => passes(alloc, s, replied, heard, client, post),
    }
}

/// What the server's packet gave is read: it brought no answer, or one.
fn hears(
    alloc: Global,
    now: u64,
    s: Session,
    k: u8,
    replied: Option<Peer>,
    heard: &Heard,
    client: &mut ClientCore,
    post: &mut Post,
) -> Result<ClientEvent, CoreError>
    requires reading { now ≤ LATEST }
    ensures done { IfOk result (ClientDid s client.old
        (client_hears now k replied heard.now (answer_heard heard.now.joined)
        (record { client = client.old; post = post.old })) client.new post.new) }
    ensures spent { (counter : TheCounter) → IsErrOf result (errors.Spent counter) →
        (client_hears now k replied heard.now (answer_heard heard.now.joined)
        (record { client = client.old; post = post.old })).spent ≡ Some counter }
    ensures err_client { OnErr result (client.new ≡ client.old) }
    ensures err_post { OnErr result (post.new ≡ post.old) }
{
    match answer_heard(alloc, heard.joined.as_slice())? {
        Some(a) => takes(alloc, now, s, k, replied, &a, client, post),
        None => passes(alloc, s, replied, heard, client, post),
    }
}

/// An answer of the server came.
fn takes(
    alloc: Global,
    now: u64,
    s: Session,
    k: u8,
    replied: Option<Peer>,
    a: &Answer,
    client: &mut ClientCore,
    post: &mut Post,
) -> Result<ClientEvent, CoreError>
    requires reading { now ≤ LATEST }
    ensures done { IfOk result (ClientDid s client.old
        (client_does false replied false (client_noted (answer_plan client.old now k a.now))
        (record { client = client.old; post = post.old })) client.new post.new) }
    ensures spent { (counter : TheCounter) → IsErrOf result (errors.Spent counter) →
        (client_does false replied false (client_noted (answer_plan client.old now k a.now))
        (record { client = client.old; post = post.old })).spent ≡ Some counter }
    ensures err_client { OnErr result (client.new ≡ client.old) }
    ensures err_post { OnErr result (post.new ≡ post.old) }
{
    let plan = client_noted(client.plan_answer(alloc, now, k, a)?);
    does(alloc, s, false, replied, plan, client, post)
}

/// No message was heard, and what is due goes out.
fn passes(
    alloc: Global,
    s: Session,
    replied: Option<Peer>,
    heard: &Heard,
    client: &ClientCore,
    post: &mut Post,
) -> Result<ClientEvent, CoreError>
    ensures done { IfOk result (ClientDid s client.now
        (client_goes false replied (unheard_note heard.now)
        (record { client = client.now; post = post.old })) client.now post.new) }
    ensures unspent { (counter : TheCounter) → IsErrOf result (errors.Spent counter) → ⊥ }
    ensures err_post { OnErr result (post.new ≡ post.old) }
{
    Ok(ClientEvent {
        note: unheard_note(heard),
        finished: List::new(alloc),
        packets: post.due(alloc, false, replied)?,
    })
}

/// The client changes as it planned and sends, and what is due on its links goes out.
fn does(
    alloc: Global,
    s: Session,
    turn: bool,
    heard: Option<Peer>,
    plan: Plan<Note>,
    client: &mut ClientCore,
    post: &mut Post,
) -> Result<ClientEvent, CoreError>
    requires { can_commit plan.ready client.old ≡ true }
    ensures done { IfOk result (ClientDid s client.old
        (client_does turn heard false plan (record { client = client.old; post = post.old }))
        client.new post.new) }
    ensures spent { (counter : TheCounter) → IsErrOf result (errors.Spent counter) →
        (client_does turn heard false plan
        (record { client = client.old; post = post.old })).spent ≡ Some counter }
    ensures err_client { OnErr result (client.new ≡ client.old) }
    ensures err_post { OnErr result (post.new ≡ post.old) }
{
    let Plan { ready, out } = plan;
    let ClientOut {
        note,
        send,
        admitted,
    } = out;
    match finished(alloc, s, client, admitted, &note) {
        Ok(finished) => match sends(alloc, turn, heard, send, ready, client, post) {
            Ok(packets) => Ok(ClientEvent {
                note,
                finished,
                packets,
            }),
            Err(e) => {
                drop(note);
                Err(e)
            }
        },
        Err(_) => {
            drop((note, send, ready));
            Err(CoreError::Memory)
        }
    }
}

/// The client sends its message, if there is one, and changes, and what is due on its links goes out. After an error all
/// is as it was.
fn sends(
    alloc: Global,
    turn: bool,
    heard: Option<Peer>,
    send: Option<(u8, ClientMsg)>,
    ready: Ready,
    client: &mut ClientCore,
    post: &mut Post,
) -> Result<List<Sent>, CoreError>
    requires { can_commit ready client.old ≡ true }
    ensures packets { IfOk result (λ packets. packets ≡
        (post_due (post_after send post.old) turn heard).sent) }
    ensures client { OnOk result (client.new ≡ committed ready client.old) }
    ensures post { OnOk result (post.new ≡
        (post_due (post_after send post.old) turn heard).links) }
    ensures room { OnOk result (is_full_up send post.old ≡ false) }
    ensures spent { (counter : TheCounter) → IsErrOf result (errors.Spent counter) →
        (counter ≡ Segments) × (is_full_up send post.old ≡ true) }
    ensures err_client { OnErr result (client.new ≡ client.old) }
    ensures err_post { OnErr result (post.new ≡ post.old) }
{
    let mut undo = Undo::new(alloc);
    match push_up(alloc, post, send, &mut undo) {
        Ok(()) => match goes(alloc, turn, heard, ready, client, post) {
            Ok(packets) => Ok(packets),
            Err(_) => {
                post.undo(undo);
                Err(CoreError::Memory)
            }
        },
        Err(e) => {
            drop(ready);
            Err(e)
        }
    }
}

/// The client changes, and what is due on its links goes out: both or neither.
fn goes(
    alloc: Global,
    turn: bool,
    heard: Option<Peer>,
    ready: Ready,
    client: &mut ClientCore,
    post: &mut Post,
) -> Result<List<Sent>, Memory>
    requires { can_commit ready client.old ≡ true }
    ensures packets { IfOk result (λ packets. packets ≡ (post_due post.old turn heard).sent) }
    ensures client { OnOk result (client.new ≡ committed ready client.old) }
    ensures post { OnOk result (post.new ≡ (post_due post.old turn heard).links) }
    ensures err_client { OnErr result (client.new ≡ client.old) }
    ensures err_post { OnErr result (post.new ≡ post.old) }
{
    let packets = post.packets(alloc, turn, heard)?;
    client.commit(alloc, ready)?;
    post.mark_sent();
    Ok(packets)
}
