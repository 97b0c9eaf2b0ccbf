//! The words of a node.
ghost use Rattle.std.specs.Prelude.{◌≡◌, ◌≤◌, map, string_bytes, drop, length, option_and_then, slice_get, IfSome, IfOk};
ghost use Rattle.fs_words.specs.Numbers.{number_between as number_in};
ghost use Rattle.fs_words.specs.Places.{actor_in as actor_spelled};
ghost use Rattle.fs_words.specs.Usage.{FitsActor, FitsCommand, IsActor, node_words, read_at, servers_for};

use crate::command::{Command, Settings, TURNS};
use crate::number::number_between;
use crate::place::actor_in;
use crate::placed::{behind, is_among, own_stand, places_at_front};
use fs_ident::Peer;
use fs_msg::{LONGEST, SERVERS};

/// What the words behind `node` ask for, or the number of the first word, from 1, that no form has there.
pub(crate) fn node_of(words: &[String]) -> Result<Command, u64>
    ensures asked { result ≡ node_words (map string_bytes words.now) }
    ensures fits { IfOk result FitsCommand }
{
    let Some(who) = actor_at(words) else {
        return Err(2);
    };
    let Some(servers) = servers_at(words, who) else {
        return Err(3);
    };
    let Some(skew) = number_at(words, 2, 0, LONGEST) else {
        return Err(4);
    };
    let Some(term) = number_at(words, 3, 1, LONGEST) else {
        return Err(5);
    };
    let Some(turns) = number_at(words, 4, 1, TURNS) else {
        return Err(6);
    };
    let places = behind(words, 5);
    let Some(at) = own_stand(servers, who, places) else {
        return Err(places_at_front(servers, places) as u64 + 7);
    };
    Ok(Command::Node(Settings {
        who,
        servers,
        skew,
        term,
        turns,
        at,
    }))
}

/// The actor.
fn actor_at(words: &[String]) -> Option<Peer>
    ensures actor { result ≡ read_at actor_spelled (map string_bytes words.now) 0 }
    ensures fits { IfSome result IsActor }
{
    actor_in(words.first()?.as_bytes())
}

/// The number of servers, with which the actor is there.
fn servers_at(words: &[String], who: Peer) -> Option<u8>
    requires { IsActor who }
    ensures servers { result ≡ read_at (servers_for who) (map string_bytes words.now) 1 }
    ensures fits { IfSome result (λ servers. FitsActor servers who) }
    ensures most { IfSome result (λ servers. servers ≤ 15) }
{
    let servers = number_at(words, 1, 1, u64::from(SERVERS))? as u8;
    if is_among(servers, who) {
        Some(servers)
    } else {
        None
    }
}

/// The number that stands there, where it is within both bounds.
fn number_at(words: &[String], at: usize, least: u64, most: u64) -> Option<u64>
    ensures number { result ≡ read_at (number_in least most) (map string_bytes words.now) at }
    ensures least { IfSome result (λ n. least ≤ n) }
    ensures most { IfSome result (λ n. n ≤ most) }
{
    number_between(least, most, words.get(at)?.as_bytes())
}
