//! What an actor hears of what its links join.
ghost use Rattle.std.specs.Prelude.{◌≡◌, ◌≢◌, IfOk, IfSome, None, OnOk};
ghost use Rattle.fs_actor.specs.Hearing.{answer_from, answer_heard, answer_of, event_heard, event_of, heard_in, message_heard, message_in, quiet_note, unheard_note};
ghost use Rattle.fs_actor.specs.Whole.{whole_message};
ghost use Rattle.fs_msg.specs.Ranges.{FitsMessage};
ghost use Rattle.fs_msg.specs.declared.error.MsgError.TheVariants as errors;
ghost use Rattle.fs_server.specs.Step.{CanBeTold};

use fs_ident::{Memory, Peer};
use fs_msg::{Answer, Msg, MsgError, Note, read_whole};
use fs_server::ServerEvent;
use fs_window::{Heard, Joined, Packet};
use std::alloc::Global;

/// The answer that a client hears, if one came whole.
pub fn answer_heard(alloc: Global, joined: &[Joined]) -> Result<Option<Answer>, Memory>
    ensures { IfOk result (λ a. a ≡ answer_heard joined.now) }
{
    Ok(answer_of(message_heard(alloc, joined)?))
}

/// The event that a server hears from the actor, if one came whole. It can be told to a core.
pub fn event_heard(
    alloc: Global,
    from: Peer,
    joined: &[Joined],
) -> Result<Option<ServerEvent>, Memory>
    ensures event { IfOk result (λ e. e ≡ event_heard from joined.now) }
    ensures told { IfOk result (λ e. IfSome e CanBeTold) }
{
    Ok(event_of(from, message_heard(alloc, joined)?))
}

/// The answer that a client hears of what was joined, with the number of its server, if it is one.
pub(crate) fn answer_in(
    alloc: Global,
    from: Peer,
    joined: &Joined,
) -> Result<Option<(u8, Answer)>, Memory>
    ensures { IfOk result (λ a. a ≡ answer_from from (message_in joined.now)) }
{
    Ok(answer_from(from, message_in(alloc, joined)?))
}

/// The event that a server hears of what was joined, if it is one. It can be told to a core.
pub(crate) fn event_in(
    alloc: Global,
    from: Peer,
    joined: &Joined,
) -> Result<Option<ServerEvent>, Memory>
    ensures event { IfOk result (λ e. e ≡ event_of from (message_in joined.now)) }
    ensures told { IfOk result (λ e. IfSome e CanBeTold) }
{
    Ok(event_of(from, message_in(alloc, joined)?))
}

/// What is noted where an actor heard no message.
pub fn unheard_note(heard: &Heard) -> Note
    ensures { result ≡ unheard_note heard.now }
{
    match heard.joined.as_slice() {
        [] => quiet_note(heard),
        [_, ..] => Note::Strange,
    }
}

/// Whoever sent a packet with a body was heard.
pub fn heard_in(from: Peer, p: &Packet) -> Option<Peer>
    ensures { result ≡ heard_in from p.now }
{
    if p.body.is_some() { Some(from) } else { None }
}

/// The note of a packet that completed no message.
fn quiet_note(heard: &Heard) -> Note
    ensures { result ≡ quiet_note heard.now }
{
    if heard.fresh == 0 {
        Note::None
    } else {
        Note::Part
    }
}

/// The answer that the message is, if it is one.
fn answer_of(m: Option<Msg>) -> Option<Answer>
    ensures { result ≡ answer_of m }
{
    match m {
        Some(Msg::Answer(a)) => Some(a),
        _ => None,
    }
}

/// The answer that the message of the actor is, if the actor is a server and it is one.
fn answer_from(from: Peer, m: Option<Msg>) -> Option<(u8, Answer)>
    ensures { result ≡ answer_from from m }
{
    match (from, m) {
        (Peer::Server(k), Some(Msg::Answer(a))) => Some((k, a)),
        _ => None,
    }
}

/// The event that the message of the actor is, if it is one.
fn event_of(from: Peer, m: Option<Msg>) -> Option<ServerEvent>
    ensures { result ≡ event_of from m }
{
    match (from, m) {
        (Peer::Client(s), Some(Msg::Client(m))) => Some(ServerEvent::FromClient(s, m)),
        (Peer::Server(j), Some(Msg::Peer(m))) => Some(ServerEvent::FromPeer(j, m)),
        _ => None,
    }
}

/// The message that came whole, if one did and can be read.
fn message_heard(alloc: Global, joined: &[Joined]) -> Result<Option<Msg>, Memory>
    ensures read { IfOk result (λ m. m ≡ message_heard joined.now) }
    ensures fits { IfOk result (λ m. IfSome m FitsMessage) }
{
    match joined {
        [] => Ok(None),
        [first, ..] => message_in(alloc, first),
    }
}

/// The message that came whole, if it can be read.
fn message_in(alloc: Global, joined: &Joined) -> Result<Option<Msg>, Memory>
    ensures read { IfOk result (λ m. m ≡ message_in joined.now) }
    ensures fits { IfOk result (λ m. IfSome m FitsMessage) }
{
    match joined {
        Joined::Whole(bytes) => whole_message(alloc, bytes.as_slice()),
        Joined::Over => Ok(None),
    }
}

/// The message that all the bytes are, if they are one.
fn whole_message(alloc: Global, bytes: &[u8]) -> Result<Option<Msg>, Memory>
    ensures read { IfOk result (λ m. m ≡ whole_message bytes.now) }
    ensures fits { IfOk result (λ m. IfSome m FitsMessage) }
{
    match read_whole(alloc, bytes) {
        Ok(m) => Ok(Some(m)),
        Err(e) => unread(e),
    }
}

/// No message was read, for want of memory or because there is none.
fn unread(e: MsgError) -> Result<Option<Msg>, Memory>
    ensures none { IfOk result (λ m. m ≡ None) }
    ensures other { OnOk result (e ≢ errors.Memory) }
{
    match e {
        MsgError::Memory => Err(Memory),
        _ => Ok(None),
    }
}
