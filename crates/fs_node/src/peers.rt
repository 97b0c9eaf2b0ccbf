//! Who stands where.
ghost use Rattle.std.specs.Prelude.{◌≡◌, IfOk};
ghost use Rattle.fs_node.specs.Peers.{addr_of, due_of, if_other, other_at, peer_at, same_addr};
ghost use Rattle.fs_window.specs.Peers.{same_peer};

use fs_ident::{List, Memory, Peer};
use fs_io::Addr;
use fs_window::Sent;
use std::alloc::Global;

/// The address of the actor, if it has one here.
pub(crate) fn addr_of(peers: &[(Peer, Addr)], who: Peer) -> Option<Addr>
    ensures { result ≡ addr_of peers.now who }
{
    for (peer, at) in peers {
        if is_same_peer(*peer, who) {
            return Some(*at);
        }
    }
    None
}

/// The actor at the address, if one is there that is not the node's own.
pub(crate) fn other_at(me: Peer, peers: &[(Peer, Addr)], at: Addr) -> Option<Peer>
    ensures { result ≡ other_at me peers.now at }
{
    match peer_at(peers, at) {
        Some(who) if !is_same_peer(who, me) => Some(who),
        _ => None,
    }
}

/// The packets, each with the address of its addressee.
pub(crate) fn due_of(
    alloc: Global,
    peers: &[(Peer, Addr)],
    packets: List<Sent>,
) -> Result<List<(Option<Addr>, List<u8>)>, Memory>
    ensures { IfOk result (λ due. due ≡ due_of peers.now packets) }
{
    let mut due = List::new(alloc);
    for sent in packets.into_vec() {
        due.push((addr_of(peers, sent.to), sent.bytes))?;
    }
    Ok(due)
}

/// The actor at the address, if one is there.
fn peer_at(peers: &[(Peer, Addr)], at: Addr) -> Option<Peer>
    ensures { result ≡ peer_at peers.now at }
{
    for (peer, place) in peers {
        if is_same_addr(*place, at) {
            return Some(*peer);
        }
    }
    None
}

fn is_same_peer(a: Peer, b: Peer) -> bool
    ensures { result ≡ same_peer a b }
{
    a == b
}

fn is_same_addr(a: Addr, b: Addr) -> bool
    ensures { result ≡ same_addr a b }
{
    a == b
}
