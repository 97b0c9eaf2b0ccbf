//! The laws of what is read and heard.
ghost use Rattle.std.specs.Prelude.{◌≡◌, ◌≤◌, List, Some, length, ℕ};
ghost use Rattle.fs_actor.specs.Actor.{ClientSide, ServerSide, server_told};
ghost use Rattle.fs_actor.specs.Comes.{client_comes};
ghost use Rattle.fs_actor.specs.Laws.{client_alone, server_alone};
ghost use Rattle.fs_actor.specs.Several.{client_told_all, server_told_all};
ghost use Rattle.fs_actor.specs.Whole.{whole_message};
ghost use Rattle.fs_ident.specs.declared.actor.Peer.{Peer};
ghost use Rattle.fs_ident.specs.declared.actor.Session.{Session};
ghost use Rattle.fs_msg.specs.Ranges.{FitsMessage};
ghost use Rattle.fs_msg.specs.Spelling.{message};
ghost use Rattle.fs_msg.specs.declared.msg.Msg.{Msg};
ghost use Rattle.fs_window.specs.Post.{post_accepted};
ghost use Rattle.fs_window.specs.declared.packet.Packet.{Packet};
ghost use Rattle.fs_wire.specs.Ranges.{IsBytes};

/// A message is read from its bytes, and from no others.
pub fn a_message_is_read_from_its_bytes()
    ensures again { (m : Msg) → FitsMessage m → whole_message (message m) ≡ Some m }
    ensures only { (bytes : List ℕ) (m : Msg) → IsBytes bytes → whole_message bytes ≡ Some m →
        FitsMessage m × (bytes ≡ message m) }
{}

/// An actor hears all that a packet joined, one message after another, and then what is due goes out. Where that is one message at
/// most, as with links of one segment, it is the event of that one.
pub fn one_message_is_heard_as_one()
    ensures client { (s : Session) (now : ℕ) (from : Peer) (p : Packet) (x : ClientSide) →
        length (post_accepted x.post from p).heard.joined ≤ 1 →
        client_told_all s now from p x ≡ client_alone s x.client (client_comes now from p x) }
    ensures server { (now : ℕ) (from : Peer) (p : Packet) (x : ServerSide) →
        length (post_accepted x.post from p).heard.joined ≤ 1 →
        server_told_all now from p x ≡ server_alone (server_told now from p x) }
{}
