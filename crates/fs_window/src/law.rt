//! What links are for.
ghost use Rattle.std.specs.Prelude.{◌≡◌, ◌+◌, ◌<◌, ◌≤◌, ◌^◌, ◌++◌, ◌∷◌, [], ℕ, Bool, true, length, if◌then◌else◌};
ghost use Rattle.std.specs.Prelude.{Option as Maybe, Some as Found, List as Seq};
ghost use Rattle.fs_ident.specs.In.{In};
ghost use Rattle.fs_ident.specs.declared.actor.Peer.{Peer as Actor};
ghost use Rattle.fs_frag.specs.Cut.{cut_of};
ghost use Rattle.fs_window.specs.declared.link.Link.{Link as TheLink};
ghost use Rattle.fs_window.specs.declared.packet.Packet.{Packet as ThePacket};
ghost use Rattle.fs_window.specs.declared.sent.Sent.{Sent as TheSent};
ghost use Rattle.fs_window.specs.declared.width.TheConstants.{LINK_WIDTH};
ghost use Rattle.fs_window.specs.Ends.{Event, run, new_ends, IsDeliveredPrefix, IsPrefixOf};
ghost use Rattle.fs_window.specs.LinkEnd.{LinkEnd, IsNarrow, new_link_end, pushed_count, after_pushes, given_by, after_accept, due_of, after_due};
ghost use Rattle.fs_window.specs.OnTheWay.{IsDirection, IsPacketOf, HasGiven, Carries, HasHeard};
ghost use Rattle.fs_window.specs.Packet.{IsPacket, packet_text};
ghost use Rattle.fs_window.specs.Reading.{packet_at};
ghost use Rattle.fs_window.specs.Peers.{same_peer, are_peers_in_order};
ghost use Rattle.fs_window.specs.Post.{Links, new_link, link_pushed, link_accepted, link_sent, link_with, with_link, links_sent, post_due, WasSent};

/// At every moment of every schedule, what one end was given is the beginning of what the other end pushed,
/// and no end takes as acknowledged what the other end was not given. So it is in both directions.
pub fn in_order()
    ensures to_the_right { (left right : ℕ) (events : Seq (Bool × Event)) →
        let ends = run events (new_ends left right) in IsDeliveredPrefix ends.left ends.right }
    ensures to_the_left { (left right : ℕ) (events : Seq (Bool × Event)) →
        let ends = run events (new_ends left right) in IsDeliveredPrefix ends.right ends.left }
{}

/// One direction of a link, event by event. What was given at one end, followed by what is on its way, is what was
/// pushed at the other, so it is the beginning of that. Each event at either end keeps this.
pub fn segments_stay_in_order()
    ensures new { (a b : ℕ) → HasGiven (new_link_end a) (new_link_end b) [] [] }
    ensures prefix { (from to : LinkEnd) (pushed given : Seq (Seq ℕ)) →
        HasGiven from to pushed given → IsPrefixOf given pushed }
    ensures push { (from to : LinkEnd) (pushed given segments : Seq (Seq ℕ)) →
        pushed_count from + length segments < 2 ^ 64 → HasGiven from to pushed given →
        HasGiven (after_pushes from segments) to (pushed ++ segments) given }
    ensures due { (from to : LinkEnd) (pushed given : Seq (Seq ℕ)) →
        HasGiven from to pushed given → HasGiven (after_due from) to pushed given }
    // A packet of the end that pushes comes at the other.
    ensures tell { (from to : LinkEnd) (pushed given : Seq (Seq ℕ)) (p : ThePacket) →
        IsPacketOf from to p → HasGiven from to pushed given →
        HasGiven from (after_accept to p) pushed (given ++ given_by to p.body) }
    // A packet of the other end comes back.
    ensures back { (from to : LinkEnd) (pushed given : Seq (Seq ℕ)) (p : ThePacket) →
        IsPacketOf to from p → HasGiven from to pushed given →
        HasGiven (after_accept from p) to pushed given }
    ensures other_push { (from to : LinkEnd) (pushed given segments : Seq (Seq ℕ)) →
        HasGiven from to pushed given → HasGiven from (after_pushes to segments) pushed given }
    ensures other_due { (from to : LinkEnd) (pushed given : Seq (Seq ℕ)) →
        HasGiven from to pushed given → HasGiven from (after_due to) pushed given }
{}

/// What an end makes is a packet of its direction, and stays one through each event at either end, however late it comes
/// and however often.
pub fn packets_stay_honest()
    ensures made { (from to : LinkEnd) (again heard : Bool) (p : ThePacket) →
        IsDirection from to → In p (due_of from again heard) → IsPacketOf from to p }
    ensures push { (from to : LinkEnd) (segments : Seq (Seq ℕ)) (p : ThePacket) →
        IsDirection from to → IsPacketOf from to p → IsPacketOf (after_pushes from segments) to p }
    ensures due { (from to : LinkEnd) (p : ThePacket) →
        IsDirection from to → IsPacketOf from to p → IsPacketOf (after_due from) to p }
    // Another packet of this direction comes.
    ensures tell { (from to : LinkEnd) (came p : ThePacket) →
        IsDirection from to → IsPacketOf from to came → IsPacketOf from to p →
        IsPacketOf from (after_accept to came) p }
    // A packet of the other direction comes.
    ensures back { (from to : LinkEnd) (came p : ThePacket) →
        IsDirection from to → IsDirection to from → IsPacketOf to from came →
        IsPacketOf from to p → IsPacketOf (after_accept from came) to p }
    ensures other_push { (from to : LinkEnd) (segments : Seq (Seq ℕ)) (p : ThePacket) →
        IsPacketOf from to p → IsPacketOf from (after_pushes to segments) p }
    ensures other_due { (from to : LinkEnd) (p : ThePacket) →
        IsPacketOf from to p → IsPacketOf from (after_due to) p }
{}

/// The messages that a link carries, event by event: one that is pushed joins them at their end, and a packet that comes
/// gives the first of them, whole and in order. No joiner ever holds too many bytes.
pub fn messages_stay_in_order()
    ensures new { (a b : ℕ) → Carries (new_link a) (new_link b) [] }
    ensures push { (from to : TheLink) (messages : Seq (Seq ℕ)) (message : Seq ℕ) →
        length message < 2 ^ 64 → pushed_count from.window + length (cut_of message) < 2 ^ 64 →
        Carries from to messages →
        Carries (link_pushed from message) to (messages ++ message ∷ []) }
    ensures due { (from to : TheLink) (messages : Seq (Seq ℕ)) →
        Carries from to messages → Carries (link_sent from) to messages }
    // A packet of the end that pushes comes at the other.
    ensures tell { (from to : TheLink) (messages : Seq (Seq ℕ)) (p : ThePacket) →
        IsPacketOf from.window to.window p → Carries from to messages →
        HasHeard from to p messages }
    // A packet of the other end comes back.
    ensures back { (from to : TheLink) (messages : Seq (Seq ℕ)) (p : ThePacket) →
        IsPacketOf to.window from.window p → Carries from to messages →
        Carries (link_accepted from p) to messages }
    // What is due can be written down.
    ensures made { (from to : TheLink) (messages back : Seq (Seq ℕ)) (again heard : Bool) →
        (p : ThePacket) → Carries from to messages → Carries to from back →
        In p (due_of from.window again heard) → IsPacket p }
    ensures other_push { (from to : TheLink) (messages : Seq (Seq ℕ)) (message : Seq ℕ) →
        Carries from to messages → Carries from (link_pushed to message) messages }
    ensures other_due { (from to : TheLink) (messages : Seq (Seq ℕ)) →
        Carries from to messages → Carries from (link_sent to) messages }
{}

/// Links are as wide as windows can be.
pub fn links_have_a_width()
    ensures wide { 1 ≤ LINK_WIDTH }
    ensures narrow { LINK_WIDTH ≤ 64 }
{}

/// An end of width 1 keeps no segment, and a packet gives it no more than its own.
pub fn a_narrow_end_keeps_nothing()
    ensures new { IsNarrow (new_link_end 1) }
    ensures push { (end : LinkEnd) (segments : Seq (Seq ℕ)) →
        IsNarrow end → IsNarrow (after_pushes end segments) }
    ensures due { (end : LinkEnd) → IsNarrow end → IsNarrow (after_due end) }
    ensures accept { (end : LinkEnd) (p : ThePacket) →
        IsNarrow end → IsNarrow (after_accept end p) }
    ensures gives { (end : LinkEnd) (p : ThePacket) →
        IsNarrow end → length (given_by end p.body) ≤ 1 }
{}

/// What is written of a packet is read as that packet.
pub fn packets_are_read_back()
    ensures { (p : ThePacket) → IsPacket p → packet_at (packet_text p) ≡ Found p }
{}

/// An actor's links: what changes one of them leaves the others, all are counted as sent together, and what was sent
/// to an actor was due on the link with that actor.
pub fn each_actor_has_a_link()
    ensures one { (links : Links) (peer other : Actor) (link : TheLink) →
        link_with (with_link links peer link) other ≡
        (if same_peer other peer then link else link_with links other) }
    ensures all { (links : Links) (peer : Actor) →
        link_with (links_sent links) peer ≡ link_sent (link_with links peer) }
    ensures sent { (links : Links) (turn : Bool) (heard : Maybe Actor) (x : TheSent) →
        are_peers_in_order links.ends ≡ true → In x (post_due links turn heard).sent →
        WasSent links turn heard x }
{}
