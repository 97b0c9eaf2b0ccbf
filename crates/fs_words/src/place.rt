//! Actors and addresses, each from the bytes of a word.
ghost use Rattle.std.specs.Prelude.{◌≡◌, ◌≤◌, ◌+◌, ◌==◌, ◌<◌, length, option_map, position, take, drop, IfSome};
ghost use Rattle.fs_words.specs.Places.{actor_by, actor_in, addr_in, number_before, parted, place_in};
ghost use Rattle.fs_words.specs.Usage.{IsActor};

use crate::number::{number_between, number_in};
use fs_ident::{Peer, SESSIONS, Session};
use fs_io::Addr;

/// The actor, and the address, that the word is.
pub(crate) fn place_in(word: &[u8]) -> Option<(Peer, Addr)>
    ensures { result ≡ place_in word.now }
{
    let (actor, addr) = parted(b'=', word)?;
    let who = actor_in(actor)?;
    let at = addr_in(addr)?;
    Some((who, at))
}

/// The actor that the text is.
pub(crate) fn actor_in(text: &[u8]) -> Option<Peer>
    ensures actor { result ≡ actor_in text.now }
    ensures fits { IfSome result IsActor }
{
    match text {
        [] => None,
        [letter, digits @ ..] => actor_by(*letter, digits),
    }
}

/// The actor of this letter and number.
fn actor_by(letter: u8, digits: &[u8]) -> Option<Peer>
    ensures actor { result ≡ actor_by letter digits.now }
    ensures fits { IfSome result IsActor }
{
    if letter == b's' {
        let k = number_in(14, digits)?;
        Some(Peer::Server(k as u8))
    } else if letter == b'c' {
        let n = number_between(1, u64::from(SESSIONS), digits)?;
        Some(Peer::Client(Session(n as u16)))
    } else {
        None
    }
}

/// The address that the text is.
fn addr_in(text: &[u8]) -> Option<Addr>
    ensures { result ≡ addr_in text.now }
{
    let (a, text) = octet_before(b'.', text)?;
    let (b, text) = octet_before(b'.', text)?;
    let (c, text) = octet_before(b'.', text)?;
    let (d, text) = octet_before(b':', text)?;
    let port = number_in(65535, text)?;
    Some(Addr {
        ip: [a, b, c, d],
        port: port as u16,
    })
}

/// A number before the first such byte, and what stands behind it.
fn octet_before(b: u8, text: &[u8]) -> Option<(u8, &[u8])>
    ensures { option_map (λ p. (p.0, p.1.now)) result ≡ number_before b 255 text.now }
{
    let (front, behind) = parted(b, text)?;
    let n = number_in(255, front)?;
    Some((n as u8, behind))
}

/// What stands before the first such byte, and behind it.
fn parted(b: u8, text: &[u8]) -> Option<(&[u8], &[u8])>
    ensures { option_map (λ p. (p.0.now, p.1.now)) result ≡ parted b text.now }
{
    let k = place_of(b, text)?;
    Some((&text[..k], &text[k + 1..]))
}

/// The place of the first such byte.
fn place_of(b: u8, text: &[u8]) -> Option<usize>
    ensures first { result ≡ position (λ x. x == b) text.now }
    ensures within { IfSome result (λ k. k < length text.now) }
{
    text.iter().position(|x| *x == b)
}
