//! What a node makes of what it received.
ghost use Rattle.std.specs.Prelude.{◌≡◌, IfOk};
ghost use Rattle.fs_node.specs.Arrivals.{arrival_of, arrived};
ghost use Rattle.fs_turns.specs.Run.{datagram_of};
ghost use Rattle.fs_window.specs.Reading.{packet_at};

use crate::peers::other_at;
use fs_ident::{Memory, Peer};
use fs_io::Addr;
use fs_window::{Packet, read_packet};
use std::alloc::Global;

/// What a node makes of what it received.
#[derive(Debug, Drop)]
pub(crate) enum Arrival {
    /// Nothing came.
    Quiet,
    /// What came is no packet, or comes from no other actor.
    Dropped,
    /// The packet of another actor.
    Came(Peer, Packet),
}

/// What the node makes of the datagram that came, if one did.
pub(crate) fn arrival_of(
    alloc: Global,
    me: Peer,
    peers: &[(Peer, Addr)],
    came: Option<(Addr, &[u8])>,
) -> Result<Arrival, Memory>
    ensures { IfOk result (λ a. a ≡ arrival_of me peers.now (datagram_of came.entry)) }
{
    match came {
        Some((at, bytes)) => arrived(alloc, other_at(me, peers, at), bytes),
        None => Ok(Arrival::Quiet),
    }
}

/// What it makes of the bytes that came from there.
fn arrived(alloc: Global, from: Option<Peer>, bytes: &[u8]) -> Result<Arrival, Memory>
    ensures { IfOk result (λ a. a ≡ arrived from (packet_at bytes.now)) }
{
    let Some(from) = from else {
        return Ok(Arrival::Dropped);
    };
    match read_packet(alloc, bytes)? {
        Some(p) => Ok(Arrival::Came(from, p)),
        None => Ok(Arrival::Dropped),
    }
}
