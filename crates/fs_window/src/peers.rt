//! Entries in order of their actors.
ghost use Rattle.std.specs.Prelude.{◌≡◌, IsTrue, IfOk, IfErr};
ghost use Rattle.fs_window.specs.Peers.{are_peers_in_order, IsPlaceOf, IsGapFor};

use fs_ident::Peer;

/// Where the entry of the actor stands, or else where it would go. The actors rise strictly.
pub fn search_by_peer<V>(entries: &[(Peer, V)], peer: Peer) -> Result<usize, usize>
    requires { IsTrue (are_peers_in_order entries.now) }
    ensures found { IfOk result (IsPlaceOf entries.now peer) }
    ensures absent { IfErr result (IsGapFor entries.now peer) }
{
    entries.binary_search_by(|entry| entry.0.cmp(&peer))
}
