//! Links in order of their actors.
ghost use Rattle.std.specs.Prelude.{◌≡◌, ◌++◌, ◌+◌, ◌≤◌, ◌^◌, ◌↔◌, [], IsTrue, length, map, flat_map, unwrap_or, IfOk, IsErrOf, OnOk, OnErr};
ghost use Rattle.std.specs.FinMap.Entries.{find, put};
ghost use Rattle.std.specs.Option.{option_copied};
ghost use Rattle.fs_frag.specs.Cut.{cut_of};
ghost use Rattle.fs_window.specs.declared.link.Link.{Link as TheLink};
ghost use Rattle.fs_window.specs.LinkEnd.{pushed_count, due_of};
ghost use Rattle.fs_window.specs.Peers.{peer_cmp, are_peers_in_order, IsPlaceOf};
ghost use Rattle.fs_window.specs.Post.{link_pushed, link_accepted, heard_on, link_sent, is_peer, packet_sent, sent_on};
ghost use Rattle.fs_window.specs.Touched.{RestIs, OthersAreSettled};

use crate::error::LinkError;
use crate::heard::Heard;
use crate::link::Link;
use crate::packet::{Packet, text_of};
use crate::peers::search_by_peer;
use crate::sent::Sent;
use crate::touched::{Touched, wants_all};
use fs_ident::{List, Memory, Peer};
use std::alloc::Global;

/// The link with the actor.
pub(crate) fn link_with(links: &[(Peer, Link)], peer: Peer) -> Option<&Link>
    requires { IsTrue (are_peers_in_order links.now) }
    ensures { option_copied result ≡ find peer_cmp peer links.now }
{
    match search_by_peer(links, peer) {
        Ok(at) => Some(&links[at].1),
        Err(_) => None,
    }
}

/// Pushes a message to an actor whose link stands at the place.
pub(crate) fn push_at(
    alloc: Global,
    links: &mut List<(Peer, Link)>,
    at: usize,
    to: Peer,
    message: &[u8],
) -> Result<(), LinkError>
    requires { IsPlaceOf links.old to at }
    ensures ok { (new : TheLink) → OnOk result (links.new ≡
        put peer_cmp to (link_pushed (unwrap_or (find peer_cmp to links.old) new) message.now)
        links.old) }
    ensures spent { (new : TheLink) → IsErrOf result LinkError.Spent ↔ (2 ^ 64 ≤
        pushed_count (unwrap_or (find peer_cmp to links.old) new).window
        + length (cut_of message.now)) }
    ensures err { OnErr result (links.new ≡ links.old) }
{
    let entry = links.at_mut(at);
    entry.1.push(alloc, message)
}

/// Takes a packet of an actor whose link stands at the place.
pub(crate) fn accept_at(
    alloc: Global,
    links: &mut List<(Peer, Link)>,
    at: usize,
    from: Peer,
    p: &Packet,
) -> Result<Heard, Memory>
    requires { IsPlaceOf links.old from at }
    ensures heard { (new : TheLink) → IfOk result (λ heard. heard ≡
        heard_on (unwrap_or (find peer_cmp from links.old) new) p.now) }
    ensures state { (new : TheLink) → OnOk result (links.new ≡
        put peer_cmp from (link_accepted (unwrap_or (find peer_cmp from links.old) new) p.now)
        links.old) }
    ensures err { OnErr result (links.new ≡ links.old) }
{
    let entry = links.at_mut(at);
    entry.1.accept(alloc, p)
}

/// Counts on each link what is due as sent.
pub(crate) fn mark_each(links: &mut [(Peer, Link)])
    ensures { links.new ≡ map (λ e. (e.0, link_sent e.1)) links.old }
{
    for entry in links.iter_mut() {
        mark_one(entry);
    }
}

/// Counts on this link what is due as sent.
pub(crate) fn mark_one(entry: &mut (Peer, Link))
    ensures { entry.new ≡ (entry.old.0, link_sent entry.old.1) }
{
    entry.1.mark_sent();
}

/// Adds what goes over all links. Where it is no turn, only those that were touched are looked at.
pub(crate) fn add_due(
    alloc: Global,
    me: Peer,
    links: &[(Peer, Link)],
    touched: &Touched,
    turn: bool,
    heard: Option<Peer>,
    sent: &mut List<Sent>,
) -> Result<(), Memory>
    requires ordered { IsTrue (are_peers_in_order links.now) }
    requires settled { OthersAreSettled touched.now links.now }
    ensures { OnOk result (sent.new ≡ sent.old ++ flat_map (sent_on me turn heard) links.now) }
{
    if wants_all(links, touched, turn, heard) {
        return add_each(alloc, me, links, turn, heard, sent);
    }
    let places = touched.places.as_slice();
    add_places(alloc, me, links, places, turn, heard, sent)
}

/// Adds what goes over the links at these places, where nothing goes over the others.
fn add_places(
    alloc: Global,
    me: Peer,
    links: &[(Peer, Link)],
    places: &[usize],
    turn: bool,
    heard: Option<Peer>,
    sent: &mut List<Sent>,
) -> Result<(), Memory>
    requires { RestIs (λ e. sent_on me turn heard e ≡ []) 0 places.now links.now }
    ensures { OnOk result (sent.new ≡ sent.old ++ flat_map (sent_on me turn heard) links.now) }
{
    for place in places {
        add_one(alloc, me, &links[*place], turn, heard, sent)?;
    }
    Ok(())
}

/// Adds what goes over each link.
fn add_each(
    alloc: Global,
    me: Peer,
    links: &[(Peer, Link)],
    turn: bool,
    heard: Option<Peer>,
    sent: &mut List<Sent>,
) -> Result<(), Memory>
    ensures { OnOk result (sent.new ≡ sent.old ++ flat_map (sent_on me turn heard) links.now) }
{
    for entry in links {
        add_one(alloc, me, entry, turn, heard, sent)?;
    }
    Ok(())
}

/// Adds what goes over one link.
fn add_one(
    alloc: Global,
    me: Peer,
    entry: &(Peer, Link),
    turn: bool,
    heard: Option<Peer>,
    sent: &mut List<Sent>,
) -> Result<(), Memory>
    ensures { OnOk result (sent.new ≡ sent.old ++ sent_on me turn heard entry.now) }
{
    let packets = entry.1.packets(alloc, turn, is_heard(entry.0, heard))?;
    add_sent(alloc, me, entry.0, packets.as_slice(), sent)
}

/// Whether the actor was heard.
fn is_heard(peer: Peer, heard: Option<Peer>) -> bool
    ensures { result ≡ is_peer peer heard }
{
    heard == Some(peer)
}

/// Adds the bytes of packets to an actor.
fn add_sent(
    alloc: Global,
    me: Peer,
    to: Peer,
    packets: &[Packet],
    sent: &mut List<Sent>,
) -> Result<(), Memory>
    ensures { OnOk result (sent.new ≡ sent.old ++ map (packet_sent me to) packets.now) }
{
    for packet in packets {
        sent.push(sent_of(alloc, me, to, packet)?)?;
    }
    Ok(())
}

/// The bytes of a packet to an actor.
fn sent_of(alloc: Global, me: Peer, to: Peer, packet: &Packet) -> Result<Sent, Memory>
    ensures { IfOk result (λ sent. sent ≡ packet_sent me to packet.now) }
{
    Ok(Sent {
        from: me,
        to,
        bytes: List::from_vec(text_of(alloc, packet)?),
    })
}
