//! A client does what it planned.
ghost use Rattle.std.specs.Prelude.{◌≡◌, ◌⊎◌, ◌∷◌, [], ◌++◌, true, false, length, take, IfOk, IsErrOf, OnOk, OnErr, Some, None};
ghost use Rattle.fs_actor.specs.Actor.{is_full_for, is_full_up, post_after};
ghost use Rattle.fs_client.specs.Client.{can_commit, committed};
ghost use Rattle.fs_ident.specs.declared.actor.Peer.TheVariants.{Server};
ghost use Rattle.fs_msg.specs.Spelling.{message};
ghost use Rattle.fs_msg.specs.declared.core_error.Counter.{Counter as TheCounter};
ghost use Rattle.fs_msg.specs.declared.core_error.Counter.TheVariants.{Segments};
ghost use Rattle.fs_msg.specs.declared.core_error.CoreError.TheVariants as errors;
ghost use Rattle.fs_msg.specs.declared.msg.Msg.TheVariants as msg;
ghost use Rattle.fs_window.specs.Post.{post_due, post_pushed};
ghost use Rattle.fs_window.specs.Undo.{undone};
ghost use Rattle.fs_world.specs.Calls.{Spends, client_does, session_found, state_goes, session_left};
ghost use Rattle.fs_world.specs.Linked.{FitsUp, IsWritten};
ghost use Rattle.fs_world.specs.Packets.{with_sent};
ghost use Rattle.fs_world.specs.Served.{up_after, with_read};

use crate::servers::packets::Packets;
use crate::servers::send_due::{refusal, send_due};
use crate::servers::session_state::SessionState;
use fs_client::{ClientCore, Plan, Ready};
use fs_ident::{List, Memory, Peer, Session};
use fs_msg::{ClientMsg, ClientOut, CoreError, Item, Msg, Note, write};
use fs_schedule::Outcome;
use fs_window::{Post, Undo};
use std::alloc::Global;

/// A client changes as it planned and sends, and what is due on its links goes out. After an error all is as it was.
pub(crate) fn commit_and_send(
    alloc: Global,
    s: Session,
    turn: bool,
    heard: Option<Peer>,
    plan: Plan<Note>,
    state: &mut SessionState,
    journal: &mut List<Item>,
    packets: &mut Packets,
) -> Result<Outcome, CoreError>
    requires { can_commit plan.ready state.old.client ≡ true }
    ensures done { IfOk result (λ outcome. session_left outcome state.new journal.new packets.new ≡
        client_does s turn heard false plan state.old journal.old packets.old) }
    ensures fits { OnOk result (FitsUp plan.out.send) }
    ensures spends { Spends result
        (client_does s turn heard false plan state.old journal.old packets.old).spent }
    ensures err { OnErr result (session_found state.new journal.new packets.new ≡
        session_found state.old journal.old packets.old) }
{
    let Plan { ready, out } = plan;
    let ClientOut {
        note,
        send,
        admitted,
    } = out;
    let mut undo = Undo::new(alloc);
    let before = state.up.len();
    put_up(alloc, send, &mut state.post, &mut state.up, &mut undo)?;
    match send_due_and_commit(
        alloc, s, turn, heard, note, admitted, ready, state, journal, packets,
    ) {
        Ok(outcome) => Ok(outcome),
        Err(_) => {
            state.post.undo(undo);
            state.up.truncate(before);
            Err(CoreError::Memory)
        }
    }
}

/// The client changes and what it admits joins the journal, and what is due on its links goes out.
fn send_due_and_commit(
    alloc: Global,
    s: Session,
    turn: bool,
    heard: Option<Peer>,
    note: Note,
    admitted: Option<Item>,
    ready: Ready,
    state: &mut SessionState,
    journal: &mut List<Item>,
    packets: &mut Packets,
) -> Result<Outcome, Memory>
    requires { can_commit ready state.old.client ≡ true }
    ensures done { IfOk result (λ outcome. session_left outcome state.new journal.new packets.new ≡
        state_goes s turn heard note
        (record state.old { client = committed ready state.old.client })
        (with_read admitted journal.old) packets.old) }
    ensures err { OnErr result (session_found state.new journal.new packets.new ≡
        session_found state.old journal.old packets.old) }
{
    let before = packets.sent().len();
    let who = Peer::Client(s);
    let outcome = send_due(alloc, who, turn, heard, note, &state.post, packets)?;
    match admit(alloc, admitted, ready, &mut state.client, journal) {
        Ok(()) => {
            state.post.mark_sent();
            Ok(outcome)
        }
        Err(e) => {
            packets.cut_back(before);
            Err(e)
        }
    }
}

/// The client changes, and what it admits joins the journal: both or neither.
fn admit(
    alloc: Global,
    admitted: Option<Item>,
    ready: Ready,
    client: &mut ClientCore,
    journal: &mut List<Item>,
) -> Result<(), Memory>
    requires { can_commit ready client.old ≡ true }
    ensures client { OnOk result (client.new ≡ committed ready client.old) }
    ensures journal { OnOk result (journal.new ≡ with_read admitted journal.old) }
    ensures err_client { OnErr result (client.new ≡ client.old) }
    ensures err_journal { OnErr result (journal.new ≡ journal.old) }
{
    let before = journal.len();
    push_read(admitted, journal)?;
    match client.commit(alloc, ready) {
        Ok(()) => Ok(()),
        Err(e) => {
            journal.truncate(before);
            Err(e)
        }
    }
}

/// What a client admits at once joins the journal.
fn push_read(admitted: Option<Item>, journal: &mut List<Item>) -> Result<(), Memory>
    ensures ok { OnOk result (journal.new ≡ with_read admitted journal.old) }
    ensures front { OnOk result (take (length journal.old) journal.new ≡ journal.old) }
    ensures err { OnErr result (journal.new ≡ journal.old) }
{
    match admitted {
        Some(item) => journal.push(item),
        None => Ok(()),
    }
}

/// What a session sends goes onto its link with the server, and is on its way.
fn put_up(
    alloc: Global,
    send: Option<(u8, ClientMsg)>,
    post: &mut Post,
    up: &mut List<(u8, ClientMsg)>,
    undo: &mut Undo,
) -> Result<(), CoreError>
    ensures post { OnOk result (post.new ≡ post_after send post.old) }
    ensures up { OnOk result (up.new ≡ up_after send up.old) }
    ensures undo { OnOk result (undone undo.new post.new ≡ undone undo.old post.old) }
    ensures front { OnOk result (take (length up.old) up.new ≡ up.old) }
    ensures room { OnOk result (is_full_up send post.old ≡ false) }
    ensures fits { OnOk result (FitsUp send) }
    ensures spent { (counter : TheCounter) → IsErrOf result (errors.Spent counter) →
        (counter ≡ Segments) × (is_full_up send post.old ≡ true) }
    ensures only { is_full_up send post.old ≡ true →
        IsErrOf result (errors.Spent Segments) ⊎ IsErrOf result errors.Memory }
    ensures err_post { OnErr result (post.new ≡ post.old) }
    ensures err_up { OnErr result (up.new ≡ up.old) }
{
    match send {
        Some((to, m)) => put(alloc, to, m, post, up, undo),
        None => Ok(()),
    }
}

/// A message of the session goes onto its link with the server, and is on its way.
fn put(
    alloc: Global,
    to: u8,
    m: ClientMsg,
    post: &mut Post,
    up: &mut List<(u8, ClientMsg)>,
    undo: &mut Undo,
) -> Result<(), CoreError>
    ensures post { OnOk result (post.new ≡
        post_pushed post.old (Server to) (message (msg.Client m))) }
    ensures up { OnOk result (up.new ≡ up.old ++ (to, m) ∷ []) }
    ensures undo { OnOk result (undone undo.new post.new ≡ undone undo.old post.old) }
    ensures room { OnOk result (
        is_full_for post.old (Server to) (message (msg.Client m)) ≡ false) }
    ensures fits { OnOk result (IsWritten (msg.Client m)) }
    ensures spent { (counter : TheCounter) → IsErrOf result (errors.Spent counter) →
        (counter ≡ Segments) ×
        (is_full_for post.old (Server to) (message (msg.Client m)) ≡ true) }
    ensures only { is_full_for post.old (Server to) (message (msg.Client m)) ≡ true →
        IsErrOf result (errors.Spent Segments) ⊎ IsErrOf result errors.Memory }
    ensures err_post { OnErr result (post.new ≡ post.old) }
    ensures err_up { OnErr result (up.new ≡ up.old) }
{
    let before = up.len();
    let (m, text) = spelled(alloc, m)?;
    up.push((to, m))?;
    match post.push_with_undo(alloc, Peer::Server(to), &text, undo) {
        Ok(()) => Ok(()),
        Err(e) => {
            up.truncate(before);
            Err(refusal(e))
        }
    }
}

/// A message of a session, and its bytes.
fn spelled(alloc: Global, m: ClientMsg) -> Result<(ClientMsg, Vec<u8>), Memory>
    ensures message { IfOk result (λ x. x.0 ≡ m) }
    ensures text { IfOk result (λ x. x.1.items ≡ message (msg.Client m)) }
    ensures fits { OnOk result (IsWritten (msg.Client m)) }
{
    let whole = Msg::Client(m);
    let mut text = Vec::new(alloc);
    write(alloc, &whole, &mut text)?;
    match whole {
        Msg::Client(m) => Ok((m, text)),
        Msg::Answer(_answer) => unreachable!(),
        Msg::Peer(_message) => unreachable!(),
    }
}
