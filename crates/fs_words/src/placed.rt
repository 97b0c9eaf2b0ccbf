//! The places that words are.
ghost use Rattle.std.specs.Prelude.{◌≡◌, drop, ◌≤◌, length, map, string_bytes, IfOk, [], option_and_then};
ghost use Rattle.std.specs.List.{list_all};
ghost use Rattle.fs_words.specs.Places.{Place, is_among, is_apart, may_follow, node_places, own_stand, place_in, places_at_front, places_in, stand_of};

use crate::place::place_in;
use fs_ident::{List, Memory, Peer};
use fs_io::Addr;
use std::alloc::Global;

/// The places of a node's command: those behind its sixth word.
pub fn node_places(alloc: Global, words: &[String]) -> Result<List<(Peer, Addr)>, Memory>
    ensures { IfOk result (λ found. found ≡ node_places (map string_bytes words.now)) }
{
    places(alloc, behind(words, 6))
}

/// The words behind so many.
pub(crate) fn behind(words: &[String], many: usize) -> &[String]
    ensures { result.now ≡ drop many words.now }
{
    if words.len() < many {
        &[]
    } else {
        &words[many..]
    }
}

/// The places that the words are.
fn places(alloc: Global, words: &[String]) -> Result<List<(Peer, Addr)>, Memory>
    ensures { IfOk result (λ found. found ≡ places_in (map string_bytes words.now)) }
{
    let mut found = List::new(alloc);
    for word in words {
        if let Some(place) = place_in(word.as_bytes()) {
            found.push(place)?;
        }
    }
    Ok(found)
}

/// Where the actor stands, if all of the words are places that may stand so and one is its own.
pub(crate) fn own_stand(servers: u8, who: Peer, words: &[String]) -> Option<Addr>
    ensures { result ≡ own_stand servers who (map string_bytes words.now) }
{
    if places_at_front(servers, words) == words.len() {
        stand_of(who, words)
    } else {
        None
    }
}

/// How many of the words at the front are each a place that may stand behind those before.
pub(crate) fn places_at_front(servers: u8, words: &[String]) -> usize
    ensures count { result ≡ places_at_front servers [] (map string_bytes words.now) }
    ensures within { result ≤ length words.now }
{
    for at in 0..words.len() {
        if !may_follow(servers, &words[..at], words[at].as_bytes()) {
            return at;
        }
    }
    words.len()
}

/// Whether the word is a place that may stand behind these.
fn may_follow(servers: u8, before: &[String], word: &[u8]) -> bool
    ensures { result ≡ may_follow servers (map string_bytes before.now) (place_in word.now) }
{
    match place_in(word) {
        Some(place) => is_among(servers, place.0) && is_apart_from(before, place),
        None => false,
    }
}

/// Whether there is such an actor among so many servers.
pub(crate) fn is_among(servers: u8, who: Peer) -> bool
    ensures { result ≡ is_among servers who }
{
    match who {
        Peer::Server(k) => k < servers,
        Peer::Client(_) => true,
    }
}

/// Whether no word tells this actor or this address.
fn is_apart_from(words: &[String], place: (Peer, Addr)) -> bool
    ensures { result ≡ list_all (is_apart place) (places_in (map string_bytes words.now)) }
{
    for word in words {
        if let Some(other) = place_in(word.as_bytes()) {
            if !is_apart(place, other) {
                return false;
            }
        }
    }
    true
}

/// Whether they have neither the actor nor the address in common.
fn is_apart(p: (Peer, Addr), q: (Peer, Addr)) -> bool
    ensures { result ≡ is_apart p q }
{
    p.0 != q.0 && p.1 != q.1
}

/// Where the actor stands, if a word tells it.
fn stand_of(who: Peer, words: &[String]) -> Option<Addr>
    ensures { result ≡ stand_of who (map string_bytes words.now) }
{
    for word in words {
        if let Some((other, at)) = place_in(word.as_bytes()) {
            if other == who {
                return Some(at);
            }
        }
    }
    None
}
