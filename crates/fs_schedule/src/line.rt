//! Lines, read as events.
ghost use Rattle.std.specs.Prelude.{◌≡◌, ◌∷◌, [], codes};
ghost use Rattle.fs_schedule.specs.declared.event.Head.{Head as Form};
ghost use Rattle.fs_schedule.specs.Words.{Bare};
ghost use Rattle.fs_schedule.specs.Spelling.{names_late};
ghost use Rattle.fs_schedule.specs.Reading.{Tells, TellsSurely, word_of, words_in, IsToldWhat, IsToldEvent, IsToldLine};

use crate::actor::{peer_at, server_at};
use crate::event::{Event, Head, What};
use crate::field::field_at;
use crate::head::servers_in;
use crate::operand::{id_at, is_bare, number_at, packet_at};
use crate::operation::op_at;
use crate::session::session_at;
use crate::unread::Unread;
use crate::word::Word;
use crate::words::words_of;
use fs_ident::{LATEST, Peer, SESSIONS, Session};
use std::alloc::Global;

/// The event that the line tells in the form, with a session above the limit as one more than the limit.
pub fn event_at(alloc: Global, head: Head, line: &[u8]) -> Result<Event, Unread>
    ensures { Tells (IsToldLine head) result line.now }
{
    let words = words_of(alloc, line)?;
    event_of(alloc, head, words.as_slice())
}

fn event_of(alloc: Global, head: Head, words: &[Word]) -> Result<Event, Unread>
    ensures { Tells (IsToldEvent head) result (words_in words.now) }
{
    let [reading, words @ ..] = words else {
        return Err(Unread::Outside);
    };
    event_by(alloc, head, reading, words)
}

/// The event at the reading that the first word tells; the other words tell what happens.
fn event_by(alloc: Global, head: Head, reading: &Word, words: &[Word]) -> Result<Event, Unread>
    ensures { Tells (IsToldEvent head) result (word_of reading.now ∷ words_in words.now) }
{
    let reading = number_at(LATEST, reading)?;
    let what = what_of(alloc, head, words)?;
    Ok(Event { reading, what })
}

fn what_of(alloc: Global, head: Head, words: &[Word]) -> Result<What, Unread>
    ensures { Tells (IsToldWhat head) result (words_in words.now) }
{
    let [first, operands @ ..] = words else {
        return Err(Unread::Outside);
    };
    what_by(alloc, head, first, operands)
}

/// What happens, as the first word and its operands tell it.
fn what_by(alloc: Global, head: Head, first: &Word, operands: &[Word]) -> Result<What, Unread>
    ensures { Tells (IsToldWhat head) result (word_of first.now ∷ words_in operands.now) }
{
    if is_bare(first, b"join") {
        join_of(operands)
    } else if is_bare(first, b"do") {
        do_of(alloc, head, operands)
    } else if is_bare(first, b"tell") {
        tell_of(head, operands)
    } else if is_bare(first, b"turn") {
        turn_of(head, operands)
    } else if is_bare(first, b"recall") {
        recall_of(alloc, head, operands)
    } else if is_bare(first, b"move") {
        move_of(alloc, head, operands)
    } else {
        Err(Unread::Outside)
    }
}

fn join_of(operands: &[Word]) -> Result<What, Unread>
    ensures { (head : Form) →
        TellsSurely (IsToldWhat head) result (Bare (codes "join") ∷ words_in operands.now) }
{
    let [session] = operands else {
        return Err(Unread::Outside);
    };
    join_by(session)
}

/// The join of the session that the word names.
fn join_by(session: &Word) -> Result<What, Unread>
    ensures { (head : Form) →
        TellsSurely (IsToldWhat head) result (Bare (codes "join") ∷ word_of session.now ∷ []) }
{
    let number = session_at(session)?;
    Ok(What::Join(Session(number)))
}

fn do_of(alloc: Global, head: Head, operands: &[Word]) -> Result<What, Unread>
    ensures { Tells (IsToldWhat head) result (Bare (codes "do") ∷ words_in operands.now) }
{
    let [session, words @ ..] = operands else {
        return Err(Unread::Outside);
    };
    do_by(alloc, head, session, words)
}

/// The operation, told by the words, of the session that the first operand names.
fn do_by(alloc: Global, head: Head, session: &Word, words: &[Word]) -> Result<What, Unread>
    ensures { Tells (IsToldWhat head) result
        (Bare (codes "do") ∷ word_of session.now ∷ words_in words.now) }
{
    let number = session_at(session)?;
    let op = op_at(alloc, words)?;
    Ok(What::Do(Session(number), op))
}

fn tell_of(head: Head, operands: &[Word]) -> Result<What, Unread>
    ensures { TellsSurely (IsToldWhat head) result (Bare (codes "tell") ∷ words_in operands.now) }
{
    let [packet] = operands else {
        return Err(Unread::Outside);
    };
    tell_by(head, packet)
}

/// The delivery of the packet that the word names.
fn tell_by(head: Head, packet: &Word) -> Result<What, Unread>
    ensures { TellsSurely (IsToldWhat head) result (Bare (codes "tell") ∷ word_of packet.now ∷ []) }
{
    if servers_in(head) == 0 {
        return Err(Unread::Outside);
    }
    let number = packet_at(packet)?;
    Ok(What::Tell(number))
}

fn turn_of(head: Head, operands: &[Word]) -> Result<What, Unread>
    ensures { TellsSurely (IsToldWhat head) result (Bare (codes "turn") ∷ words_in operands.now) }
{
    let [actor] = operands else {
        return Err(Unread::Outside);
    };
    turn_by(head, actor)
}

/// The turn of the actor that the word names.
fn turn_by(head: Head, actor: &Word) -> Result<What, Unread>
    ensures { TellsSurely (IsToldWhat head) result (Bare (codes "turn") ∷ word_of actor.now ∷ []) }
{
    if servers_in(head) == 0 {
        return Err(Unread::Outside);
    }
    let who = peer_at(head, actor)?;
    Ok(What::Turn(who))
}

fn recall_of(alloc: Global, head: Head, operands: &[Word]) -> Result<What, Unread>
    ensures { Tells (IsToldWhat head) result (Bare (codes "recall") ∷ words_in operands.now) }
{
    let [server, words @ ..] = operands else {
        return Err(Unread::Outside);
    };
    recall_by(alloc, head, server, words)
}

/// The recall, at the server that the first operand names, of the field that the words name.
fn recall_by(alloc: Global, head: Head, server: &Word, words: &[Word]) -> Result<What, Unread>
    ensures { Tells (IsToldWhat head) result
        (Bare (codes "recall") ∷ word_of server.now ∷ words_in words.now) }
{
    let server = server_at(head, server)?;
    let field = field_at(alloc, words)?;
    Ok(What::Recall(server, field))
}

fn move_of(alloc: Global, head: Head, operands: &[Word]) -> Result<What, Unread>
    ensures { Tells (IsToldWhat head) result (Bare (codes "move") ∷ words_in operands.now) }
{
    let [server, prefix, other] = operands else {
        return Err(Unread::Outside);
    };
    move_by(alloc, head, server, prefix, other)
}

/// The move of a prefix from one server to the other, as the three operands name them.
fn move_by(
    alloc: Global,
    head: Head,
    server: &Word,
    prefix: &Word,
    other: &Word,
) -> Result<What, Unread>
    ensures { Tells (IsToldWhat head) result
        (Bare (codes "move") ∷ word_of server.now ∷ word_of prefix.now ∷ word_of other.now ∷ []) }
{
    let at = server_at(head, server)?;
    let prefix = id_at(alloc, prefix)?;
    let to = server_at(head, other)?;
    Ok(What::Move { at, prefix, to })
}

/// Whether it names a session above the limit.
pub fn names_late(what: &What) -> bool
    ensures { result ≡ names_late what.now }
{
    match what {
        What::Join(session) => SESSIONS < session.0,
        What::Do(session, _) => SESSIONS < session.0,
        What::Turn(Peer::Client(session)) => SESSIONS < session.0,
        What::Tell(_) | What::Turn(Peer::Server(_)) | What::Recall(_, _) | What::Move { .. } =>
            false,
    }
}
