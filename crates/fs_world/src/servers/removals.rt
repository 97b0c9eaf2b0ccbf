//! Messages that are no longer on their way.
ghost use Rattle.std.specs.Prelude.{◌≡◌, ◌<◌, ◌==◌, length, IfSome};
ghost use Rattle.std.specs.List.{position};
ghost use Rattle.fs_serial.specs.Cluster.{is_between, is_with, without_first};
ghost use Rattle.fs_world.specs.Served.{flying_without, flying_without_each, sessions_without, sessions_without_each, without_each};

use crate::servers::session_states::SessionStates;
use fs_ident::{List, Peer};
use fs_serial::InFlight;
use fs_window::Joined;

/// The first message to or from the server, if there is one, is taken off. Takes no memory.
pub(crate) fn remove_first<T: Drop>(messages: &mut List<(u8, T)>, k: u8)
    ensures { messages.new ≡ without_first (is_with k) messages.old }
{
    match first_with(messages.as_slice(), k) {
        Some(at) => {
            messages.remove(at);
        }
        None => {}
    }
}

/// As many messages to or from the server, from the front, are taken off as there are of these. Takes no memory.
pub(crate) fn remove_each<T: Drop>(messages: &mut List<(u8, T)>, k: u8, gone: &[Joined])
    ensures { messages.new ≡ without_each gone.now (is_with k) messages.old }
{
    for _ in gone {
        remove_first(messages, k);
    }
}

/// The first message from one server to the other, if there is one, is taken off. Takes no memory.
pub(crate) fn remove_flying(in_flight: &mut List<InFlight>, from: u8, to: u8)
    ensures { in_flight.new ≡ without_first (is_between from to) in_flight.old }
{
    match first_between(in_flight.as_slice(), from, to) {
        Some(at) => {
            in_flight.remove(at);
        }
        None => {}
    }
}

/// As many messages of the actor to the server of number `k`, from the front, are taken off as there are of these. Takes no
/// memory.
pub(crate) fn remove_joined(
    sessions: &mut SessionStates,
    in_flight: &mut List<InFlight>,
    k: u8,
    from: Peer,
    gone: &[Joined],
)
    ensures sessions { sessions.new ≡ sessions_without_each k from gone.now sessions.old }
    ensures in_flight { in_flight.new ≡ flying_without_each k from gone.now in_flight.old }
{
    remove_questions(sessions, k, from, gone);
    remove_messages(in_flight, k, from, gone);
}

/// As many messages of the actor, if it is a session. Takes no memory.
fn remove_questions(sessions: &mut SessionStates, k: u8, from: Peer, gone: &[Joined])
    ensures { sessions.new ≡ sessions_without_each k from gone.now sessions.old }
{
    for _ in gone {
        remove_question(sessions, k, from);
    }
}

/// The first of them, if there is one. Takes no memory.
fn remove_question(sessions: &mut SessionStates, k: u8, from: Peer)
    ensures { sessions.new ≡ sessions_without k from sessions.old }
{
    match from {
        Peer::Client(s) => sessions.pop_up(s, k),
        Peer::Server(_) => {}
    }
}

/// As many messages of the actor, if it is a server. Takes no memory.
fn remove_messages(in_flight: &mut List<InFlight>, k: u8, from: Peer, gone: &[Joined])
    ensures { in_flight.new ≡ flying_without_each k from gone.now in_flight.old }
{
    for _ in gone {
        remove_message(in_flight, k, from);
    }
}

/// The first of them, if there is one. Takes no memory.
fn remove_message(in_flight: &mut List<InFlight>, k: u8, from: Peer)
    ensures { in_flight.new ≡ flying_without k from in_flight.old }
{
    match from {
        Peer::Client(_) => {}
        Peer::Server(j) => remove_flying(in_flight, j, k),
    }
}

/// The place of the first message to or from the server.
fn first_with<T>(messages: &[(u8, T)], k: u8) -> Option<usize>
    ensures same { result ≡ position (is_with k) messages.now }
    ensures within { IfSome result (λ at. at < length messages.now) }
{
    messages.iter().position(|m| m.0 == k)
}

/// The place of the first message from one server to the other.
fn first_between(in_flight: &[InFlight], from: u8, to: u8) -> Option<usize>
    ensures same { result ≡ position (is_between from to) in_flight.now }
    ensures within { IfSome result (λ at. at < length in_flight.now) }
{
    in_flight.iter().position(|f| f.from == from && f.to == to)
}
