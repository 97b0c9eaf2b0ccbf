//! Answers on their way from a server.
ghost use Rattle.std.specs.Prelude.{◌≡◌, OnOk, OnErr};
ghost use Rattle.fs_world.specs.Served.{SessionStates as TheSessionStates, with_down, with_downs};

use crate::servers::session_states::SessionStates;
use fs_ident::{Memory, Peer, Twin};
use fs_msg::Msg;
use std::alloc::Global;

/// The answers among these messages of the server are on their way to the sessions that have joined: all of them, or none
/// when out of memory.
pub(crate) fn push_downs(
    alloc: Global,
    k: u8,
    sessions: &mut SessionStates,
    send: &[(Peer, Msg)],
) -> Result<(), Memory>
    ensures ok { OnOk result (sessions.new ≡ with_downs k send.now sessions.old) }
    ensures err { OnErr result (sessions.new ≡ sessions.old) }
{
    let mut pushed = 0;
    while pushed < send.len() {
        match push_down(alloc, k, sessions, &send[pushed]) {
            Ok(()) => pushed += 1,
            Err(e) => {
                undo_downs(k, sessions, &send[..pushed]);
                return Err(e);
            }
        }
    }
    Ok(())
}

/// Undoes `push_downs` of these messages. Takes no memory.
pub(crate) fn undo_downs(k: u8, sessions: &mut SessionStates, send: &[(Peer, Msg)])
    ensures { (before : TheSessionStates) → sessions.old ≡ with_downs k send.now before →
        sessions.new ≡ before }
{
    let mut left = send.len();
    while left > 0 {
        left -= 1;
        undo_down(k, sessions, &send[left]);
    }
}

/// An answer is on its way.
fn push_down(
    alloc: Global,
    k: u8,
    sessions: &mut SessionStates,
    sent: &(Peer, Msg),
) -> Result<(), Memory>
    ensures ok { OnOk result (sessions.new ≡ with_down k sent.now sessions.old) }
    ensures err { OnErr result (sessions.new ≡ sessions.old) }
{
    match sent {
        (Peer::Client(s), Msg::Answer(a)) => sessions.push_down(*s, (k, a.copy(alloc)?)),
        _ => Ok(()),
    }
}

/// Undoes that.
fn undo_down(k: u8, sessions: &mut SessionStates, sent: &(Peer, Msg))
    ensures { (before : TheSessionStates) → sessions.old ≡ with_down k sent.now before →
        sessions.new ≡ before }
{
    match sent {
        (Peer::Client(s), Msg::Answer(_)) => sessions.unpush_down(*s),
        _ => {}
    }
}
