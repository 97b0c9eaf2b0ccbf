//! Which links of an actor were touched.
ghost use Rattle.std.specs.Prelude.{◌≡◌, ◌≤◌, [], ℕ, true, false, length, map, slice_get, IsTrue, IfSome, IfNone, OnOk, OnErr};
ghost use Rattle.std.specs.Prelude.{Some as Found};
ghost use Rattle.std.specs.List.{insert};
ghost use Rattle.std.specs.FinMap.Entries.{put};
ghost use Rattle.fs_ident.specs.declared.actor.Peer.{Peer as Actor};
ghost use Rattle.fs_window.specs.declared.link.Link.{Link as TheLink};
ghost use Rattle.fs_window.specs.Peers.{peer_cmp, are_peers_in_order};
ghost use Rattle.fs_window.specs.Post.{link_sent, is_peer, sent_on};
ghost use Rattle.fs_window.specs.Touched.{IsSettled, RestIs, OthersAreSettled, no_touch, with_place, has_place};

use crate::link::Link;
use crate::links::{mark_each, mark_one};
use crate::peers::search_by_peer;
use fs_ident::{List, Memory, Peer};
use std::alloc::Global;

/// The links to whose actors something was pushed, or of whose actors a packet came, since what goes was last counted as
/// sent: all of them, or those at these places, which rise.
#[derive(Debug, Drop)]
pub(crate) struct Touched {
    pub(crate) all: bool,
    pub(crate) places: List<usize>,
}

/// No link is touched.
pub(crate) fn nothing_touched(alloc: Global) -> Touched
    ensures { result ≡ no_touch }
{
    Touched {
        all: false,
        places: List::new(alloc),
    }
}

/// The link with an actor is touched. All are where there is none yet, since the places move when it is made, and where
/// there is no memory for its place.
pub(crate) fn touch(links: &[(Peer, Link)], peer: Peer, touched: &mut Touched)
    requires { IsTrue (are_peers_in_order links.now) }
    ensures same { OthersAreSettled touched.old links.now → OthersAreSettled touched.new links.now }
    ensures changed { (l : TheLink) → OthersAreSettled touched.old links.now →
        OthersAreSettled touched.new (put peer_cmp peer l links.now) }
{
    match search_by_peer(links, peer) {
        Ok(at) => touch_at(at, touched),
        Err(_) => touched.all = true,
    }
}

/// The link at a place is touched.
fn touch_at(at: usize, touched: &mut Touched)
    ensures { (touched.new.all ≡ false) →
        touched.new ≡ record { all = touched.old.all; places = with_place at touched.old.places } }
{
    if add_place(&mut touched.places, at).is_err() {
        touched.all = true;
    }
}

/// Whether each link is to be looked at: on a turn, where all were touched, and where an acknowledgement alone may go over
/// one that was not.
pub(crate) fn wants_all(
    links: &[(Peer, Link)],
    touched: &Touched,
    turn: bool,
    heard: Option<Peer>,
) -> bool
    requires ordered { IsTrue (are_peers_in_order links.now) }
    requires settled { OthersAreSettled touched.now links.now }
    ensures { (me : Actor) → result ≡ false →
        RestIs (λ e. sent_on me turn heard e ≡ []) 0 touched.now.places links.now }
{
    if turn {
        return true;
    }
    if touched.all {
        return true;
    }
    !has_heard(links, touched.places.as_slice(), heard)
}

/// Whether each link over which an acknowledgement alone may go was touched.
fn has_heard(links: &[(Peer, Link)], places: &[usize], heard: Option<Peer>) -> bool
    requires { IsTrue (are_peers_in_order links.now) }
    ensures { result ≡ true → (i : ℕ) (e : Actor × TheLink) → slice_get links.now i ≡ Found e →
        has_place i places.now ≡ false → is_peer e.0 heard ≡ false }
{
    let Some(peer) = heard else {
        return true;
    };
    match search_by_peer(links, peer) {
        Ok(at) => has_place(places, at),
        Err(_) => false,
    }
}

/// Counts on each link what is due as sent. Only those that were touched are looked at.
pub(crate) fn mark_touched(links: &mut Vec<(Peer, Link)>, touched: &mut Touched)
    requires { OthersAreSettled touched.old links.old.items }
    ensures marked { links.new.items ≡ map (λ e. (e.0, link_sent e.1)) links.old.items }
    ensures settled { OthersAreSettled touched.new links.new.items }
{
    mark_due(links, touched);
    touched.all = false;
    touched.places.truncate(0);
}

/// Counts on each touched link what is due as sent; the links stay noted as touched.
fn mark_due(links: &mut Vec<(Peer, Link)>, touched: &Touched)
    requires { OthersAreSettled touched.now links.old.items }
    ensures { links.new.items ≡ map (λ e. (e.0, link_sent e.1)) links.old.items }
{
    if touched.all {
        mark_each(links);
    } else {
        mark_places(links, touched.places.as_slice());
    }
}

/// Counts on the links at these places what is due as sent.
fn mark_places(links: &mut [(Peer, Link)], places: &[usize])
    requires { RestIs IsSettled 0 places.now links.old }
    ensures { links.new ≡ map (λ e. (e.0, link_sent e.1)) links.old }
{
    for place in places {
        mark_one(&mut links[*place]);
    }
}

/// One more place, if it is not there yet.
fn add_place(places: &mut List<usize>, at: usize) -> Result<(), Memory>
    ensures ok { OnOk result (places.new ≡ with_place at places.old) }
    ensures err { OnErr result (places.new ≡ places.old) }
{
    match gap_for(places.as_slice(), at) {
        Some(i) => places.insert(i, at),
        None => Ok(()),
    }
}

/// Where the place goes; `None` where it is there.
fn gap_for(places: &[usize], at: usize) -> Option<usize>
    ensures within { IfSome result (λ i. i ≤ length places.now) }
    ensures gap { IfSome result (λ i. insert places.now i at ≡ with_place at places.now) }
    ensures there { IfNone result (with_place at places.now ≡ places.now) }
{
    for (i, place) in places.iter().enumerate() {
        if at < *place {
            return Some(i);
        }
        if at == *place {
            return None;
        }
    }
    Some(places.len())
}

/// Whether the place is there.
fn has_place(places: &[usize], at: usize) -> bool
    ensures { result ≡ has_place at places.now }
{
    for place in places {
        if at == *place {
            return true;
        }
    }
    false
}
