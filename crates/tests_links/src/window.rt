use crate::same;
use fs_frag::{Segment, cut};
use fs_ident::{List, Memory, Peer, Session, Twin};
use fs_window::{
    Heard, LINK_WIDTH, LinkError, Packet, Post, Sent, Undo, Window, a_narrow_end_keeps_nothing,
    each_actor_has_a_link, in_order, links_have_a_width, messages_stay_in_order,
    packets_are_read_back, packets_stay_honest, read_packet, segments_stay_in_order, write_packet,
};
use std::alloc::Global;
use std::process::Abort;
use std::test::Fail;

/// The first packet of an end to which an Ask for the life of the root is pushed.
const FIRST: [u8; 39] = [
    0x46, 0, 0, 0, 0, 0, 0, 0, 0, 1, 0, 0, 0, 0, 0, 0, 0, 0, 0, 0, 0, 0, 0, 0, 0, 13, 1, 0, 0, 0,
    0, 0, 0, 0, 1, 0, 0x80, 0, 0,
];

fn packet(alloc: Global, number: u64, byte: u8) -> Result<Packet, Fail> {
    Ok(Packet {
        ack: 0,
        body: Some((number, segment(alloc, byte)?)),
    })
}

fn segment(alloc: Global, byte: u8) -> Result<Segment, Fail> {
    Ok(Segment::new(alloc, &[byte])?.ok_or("it is one")?)
}

/// The bytes of the packets of a new end to which the message is pushed.
fn first_bytes(alloc: Global, message: &[u8]) -> Result<Vec<u8>, LinkError> {
    let mut window = Window::new(alloc, 1);
    window.push_all(alloc, cut(alloc, message)?)?;
    let packets = window.due(alloc, false, false)?;
    let mut out = Vec::new(alloc);
    for packet in packets.as_slice() {
        write_packet(alloc, packet, &mut out)?;
    }
    Ok(out)
}

/// The bytes of a copy of the packet that is read from these; none where they spell no packet.
fn bytes_again(alloc: Global, bytes: &[u8]) -> Result<Vec<u8>, Memory> {
    let mut again = Vec::new(alloc);
    if let Some(packet) = read_packet(alloc, bytes)? {
        write_packet(alloc, &packet.copy(alloc)?, &mut again)?;
    }
    Ok(again)
}

#[test]
fn bytes_of_packets(rt: HostRuntime) -> Result<(), Fail> {
    let alloc = rt.alloc();
    let message = [1, 0, 0, 0, 0, 0, 0, 0, 1, 0, 0x80, 0, 0];
    same(&rt, first_bytes(alloc, &message)?.as_slice(), &FIRST);
    same(&rt, bytes_again(alloc, &FIRST)?.as_slice(), &FIRST);
    same(&rt, bytes_again(alloc, &FIRST[..18])?.as_slice(), &[]);
    Ok(())
}

/// How many segments the packet of this number gives, as it is told before it comes and when it comes.
fn given(alloc: Global, window: &mut Window, number: u64) -> Result<(usize, usize), Fail> {
    let packet = packet(alloc, number, 7)?;
    let told = window.gives(alloc, &packet)?.len();
    Ok((told, window.accept(alloc, &packet)?.len()))
}

#[test]
fn each_segment_once_and_in_order(rt: HostRuntime) -> Result<(), Fail> {
    let alloc = rt.alloc();
    let mut window = Window::new(alloc, 1).copy(alloc)?;
    for (number, count) in [(1, 0), (0, 1), (0, 0), (1, 1), (1, 0)] {
        same(&rt, given(alloc, &mut window, number)?, (count, count));
    }
    same(&rt, window.got(), 2);
    Ok(())
}

#[test]
fn laws() {
    in_order();
    segments_stay_in_order();
    packets_stay_honest();
    packets_are_read_back();
    messages_stay_in_order();
    each_actor_has_a_link();
    a_narrow_end_keeps_nothing();
    links_have_a_width();
    let _ = LINK_WIDTH;
}

/// How wide a window can be.
const WIDEST: u64 = 64;

/// A new window takes packets of these numbers, and gives so many segments for each.
fn told_in_turn(rt: &impl Abort, alloc: Global, told: &[(u64, usize)]) -> Result<Window, Fail> {
    let mut window = Window::new(alloc, WIDEST);
    for (number, count) in told {
        same(rt, given(alloc, &mut window, *number)?, (*count, *count));
    }
    Ok(window)
}

#[test]
fn segments_before_their_turn(rt: HostRuntime) -> Result<(), Fail> {
    let alloc = rt.alloc();
    let back = told_in_turn(&rt, alloc, &[(2, 0), (1, 0), (0, 3)])?;
    same(&rt, back.got(), 3);
    let hole = told_in_turn(
        &rt,
        alloc,
        &[(1, 0), (3, 0), (3, 0), (0, 2), (1, 0), (2, 2)],
    )?;
    same(&rt, hole.got(), 4);
    let twin = told_in_turn(&rt, alloc, &[(1, 0)])?.copy(alloc)?;
    same(&rt, given(alloc, &mut told_on(alloc, twin)?, 1)?, (0, 0));
    Ok(())
}

/// The window once the packet of number 0 has come.
fn told_on(alloc: Global, mut window: Window) -> Result<Window, Fail> {
    given(alloc, &mut window, 0)?;
    Ok(window)
}

/// How many segments the packet of number 63 gives, behind those of numbers 1 to 62, one after another.
fn up_to_the_last(alloc: Global, window: &mut Window) -> Result<(usize, usize), Fail> {
    for number in 1..WIDEST - 1 {
        given(alloc, window, number)?;
    }
    given(alloc, window, WIDEST - 1)
}

#[test]
fn what_is_too_far_ahead_is_not_kept(rt: HostRuntime) -> Result<(), Fail> {
    let alloc = rt.alloc();
    let mut once = told_in_turn(&rt, alloc, &[(64, 0), (0, 1)])?;
    same(&rt, up_to_the_last(alloc, &mut once)?, (1, 1));
    let mut again = told_in_turn(&rt, alloc, &[(64, 0), (0, 1), (64, 0)])?;
    same(&rt, up_to_the_last(alloc, &mut again)?, (2, 2));
    Ok(())
}

/// An end to which 65 segments are pushed, one more than may be on their way.
fn more_than_fit(alloc: Global) -> Result<Window, Fail> {
    let mut window = Window::new(alloc, WIDEST);
    for _ in 0..WIDEST + 1 {
        window.push(alloc, segment(alloc, 65)?)?;
    }
    Ok(window)
}

/// As below, of a wide window: on a turn the new segments go first, and then those that were sent.
const WIDE_DUE: [(u64, bool, bool, (usize, bool, u64)); 5] = [
    (0, false, false, (64, true, 63)),
    (0, true, false, (64, true, 63)),
    (1, true, false, (64, true, 63)),
    (2, false, true, (1, false, 0)),
    (64, true, false, (1, true, 64)),
];

#[test]
fn what_is_due_of_a_wide_window(rt: HostRuntime) -> Result<(), Fail> {
    let mut window = more_than_fit(rt.alloc())?;
    for (ack, turn, heard, goes) in WIDE_DUE {
        same(&rt, due(rt.alloc(), &mut window, ack, turn, heard)?, goes);
    }
    Ok(())
}

/// What each of the packets gave, the last one told first.
fn told_backwards(alloc: Global, to: &mut Post, sent: &[Sent]) -> Result<Vec<(u64, usize)>, Fail> {
    let mut told = Vec::new(alloc);
    for sent in sent.iter().rev() {
        let packet = read_packet(alloc, sent.bytes.as_slice())?.ok_or("it is a packet")?;
        let Heard { fresh, joined } = to.accept(alloc, CLIENT, &packet)?;
        told.push((fresh, joined.len()))?;
    }
    Ok(told)
}

#[test]
fn one_packet_makes_two_messages_whole(rt: HostRuntime) -> Result<(), Fail> {
    let alloc = rt.alloc();
    let mut client = Post::new(alloc, CLIENT, WIDEST)?;
    client.push(alloc, SERVER, &[7; 1016])?;
    client.push(alloc, SERVER, &[8; 1017])?;
    let sent = client.due(alloc, false, None)?;
    let mut server = Post::new(alloc, SERVER, WIDEST)?;
    let told = told_backwards(alloc, &mut server, sent.as_slice())?;
    same(&rt, told.as_slice(), &[(0, 0), (0, 0), (3, 2)]);
    Ok(())
}

/// An end to which two segments are pushed.
fn two_pushed(alloc: Global) -> Result<Window, Fail> {
    let mut window = Window::new(alloc, 1);
    window.push(alloc, segment(alloc, 65)?)?;
    window.push(alloc, segment(alloc, 66)?)?;
    Ok(window)
}

/// What goes after so many segments were acknowledged: how many packets, whether the last has a segment, and its number.
fn due(
    alloc: Global,
    window: &mut Window,
    ack: u64,
    turn: bool,
    heard: bool,
) -> Result<(usize, bool, u64), Fail> {
    window.accept(alloc, &Packet { ack, body: None })?;
    Ok(numbered(window.due(alloc, turn, heard)?.as_slice()))
}

fn numbered(packets: &[Packet]) -> (usize, bool, u64) {
    match packets.last() {
        Some(
            Packet {
                body: Some((number, _)),
                ..
            },
        ) => (packets.len(), true, *number),
        _ => (packets.len(), false, 0),
    }
}

/// What is acknowledged, whether it is a turn, whether a packet was heard, and what goes.
const DUE: [(u64, bool, bool, (usize, bool, u64)); 6] = [
    (0, false, false, (1, true, 0)),
    (0, false, false, (0, false, 0)),
    (0, false, true, (1, false, 0)),
    (0, true, true, (1, true, 0)),
    (1, false, false, (1, true, 1)),
    (2, true, false, (0, false, 0)),
];

#[test]
fn what_is_due(rt: HostRuntime) -> Result<(), Fail> {
    let mut window = two_pushed(rt.alloc())?;
    same(&rt, window.pushed(), 2);
    for (ack, turn, heard, goes) in DUE {
        same(&rt, due(rt.alloc(), &mut window, ack, turn, heard)?, goes);
    }
    Ok(())
}

fn sent(alloc: Global) -> Result<Sent, Fail> {
    Ok(Sent {
        from: SERVER,
        to: CLIENT,
        bytes: List::from_vec(FIRST.to_vec(alloc)?),
    })
}

#[test]
fn copies_what_was_sent(rt: HostRuntime) -> Result<(), Fail> {
    let twin = sent(rt.alloc())?.copy(rt.alloc())?;
    same(&rt, (twin.from, twin.to), (SERVER, CLIENT));
    same(&rt, twin.bytes.as_slice(), &FIRST);
    Ok(())
}

const SERVER: Peer = Peer::Server(0);

const CLIENT: Peer = Peer::Client(Session(1));

/// How many segments the first packet gave, and how many messages.
fn told(alloc: Global, to: &mut Post, from: Peer, sent: &[Sent]) -> Result<(u64, usize), Fail> {
    match sent.first() {
        Some(first) => heard(alloc, to, from, first.bytes.as_slice()),
        None => Err(Fail::from("none is sent")),
    }
}

fn heard(alloc: Global, to: &mut Post, from: Peer, bytes: &[u8]) -> Result<(u64, usize), Fail> {
    let packet = read_packet(alloc, bytes)?.ok_or("it is a packet")?;
    let heard = to.accept(alloc, from, &packet)?;
    Ok((heard.fresh, heard.joined.len()))
}

/// What the client sends, told at the server. A turn sends again what was not acknowledged.
fn goes(
    alloc: Global,
    client: &mut Post,
    server: &mut Post,
    turn: bool,
) -> Result<(u64, usize), Fail> {
    let sent = client.due(alloc, turn, None)?;
    told(alloc, server, CLIENT, sent.as_slice())
}

/// What the server answers, told at the client.
fn comes(alloc: Global, client: &mut Post, server: &mut Post) -> Result<(u64, usize), Fail> {
    let sent = server.due(alloc, false, Some(CLIENT))?;
    told(alloc, client, SERVER, sent.as_slice())
}

/// A segment is told twice and answered, and makes so many messages whole.
fn exchange(
    rt: &impl Abort,
    alloc: Global,
    client: &mut Post,
    server: &mut Post,
    whole: usize,
) -> Result<(), Fail> {
    same(rt, goes(alloc, client, server, false)?, (1, whole));
    same(rt, goes(alloc, client, server, true)?, (0, 0));
    same(rt, comes(alloc, client, server)?, (0, 0));
    Ok(())
}

/// A client that sends two messages, of one segment and of two.
fn sender(alloc: Global) -> Result<Post, Fail> {
    let mut client = Post::new(alloc, CLIENT, 1)?;
    client.push(alloc, SERVER, &[7; 1016])?;
    client.push(alloc, SERVER, &[8; 1017])?;
    Ok(client)
}

/// Whether nothing is left to send, of a copy too.
fn is_done(alloc: Global, post: &Post) -> Result<(bool, bool), Fail> {
    let mut twin = post.copy(alloc)?;
    let done = post.packets(alloc, true, None)?.is_empty();
    Ok((done, twin.due(alloc, true, None)?.is_empty()))
}

fn exchanges(
    rt: &impl Abort,
    alloc: Global,
    client: &mut Post,
    server: &mut Post,
) -> Result<(), Fail> {
    same(rt, client.pushed(SERVER), 3);
    same(rt, server.pushed(CLIENT), 0);
    exchange(rt, alloc, client, server, 1)?;
    exchange(rt, alloc, client, server, 0)?;
    exchange(rt, alloc, client, server, 1)?;
    same(rt, server.got(CLIENT), 3);
    same(rt, is_done(alloc, client)?, (true, true));
    same(rt, is_done(alloc, server)?, (true, true));
    Ok(())
}

#[test]
fn messages_over_a_network(rt: HostRuntime) -> Result<(), Fail> {
    let alloc = rt.alloc();
    let mut client = sender(alloc)?;
    let mut server = Post::new(alloc, SERVER, 1)?;
    exchanges(&rt, alloc, &mut client, &mut server)
}

/// A client that pushed one segment and heard one.
fn begun(alloc: Global) -> Result<Post, Fail> {
    let mut post = Post::new(alloc, CLIENT, 1)?;
    post.push(alloc, SERVER, &[65])?;
    post.accept(alloc, SERVER, &packet(alloc, 0, 7)?)?;
    Ok(post)
}

/// Pushes to the server and to another, and hears a segment; tells how many segments were new.
fn goes_on(alloc: Global, post: &mut Post, undo: &mut Undo) -> Result<u64, Fail> {
    post.push_with_undo(alloc, SERVER, &[66], undo)?;
    post.push_with_undo(alloc, Peer::Server(1), &[67], undo)?;
    let packet = packet(alloc, 1, 8)?;
    Ok(post.accept_with_undo(alloc, SERVER, &packet, undo)?.fresh)
}

/// How many segments are pushed to the server and to the other, and how many the server's packets gave.
fn counts(post: &Post) -> [u64; 3] {
    [
        post.pushed(SERVER),
        post.pushed(Peer::Server(1)),
        post.got(SERVER),
    ]
}

#[test]
fn what_was_done_is_undone(rt: HostRuntime) -> Result<(), Fail> {
    let alloc = rt.alloc();
    let mut post = begun(alloc)?;
    let mut undo = Undo::new(alloc);
    same(&rt, goes_on(alloc, &mut post, &mut undo)?, 1);
    same(&rt, counts(&post), [2, 1, 2]);
    post.undo(undo);
    same(&rt, counts(&post), [1, 0, 1]);
    Ok(())
}

/// The packets that go on a turn, one after another.
fn turn_bytes(alloc: Global, post: &Post) -> Result<Vec<u8>, Fail> {
    let mut bytes = Vec::new(alloc);
    for sent in post.packets(alloc, true, None)?.as_slice() {
        bytes.extend_from_slice(sent.bytes.as_slice())?;
    }
    Ok(bytes)
}

/// A wide end that sent two segments, and keeps one behind a hole.
fn wide(alloc: Global) -> Result<Post, Fail> {
    let mut post = Post::new(alloc, CLIENT, WIDEST)?;
    post.push(alloc, SERVER, &[65])?;
    post.push(alloc, SERVER, &[66])?;
    post.due(alloc, false, None)?;
    post.accept(alloc, SERVER, &packet(alloc, 2, 7)?)?;
    Ok(post)
}

/// Hears an acknowledgement, what comes behind a hole, and what fills the first one, and pushes.
fn goes_far(alloc: Global, post: &mut Post, undo: &mut Undo) -> Result<(), Fail> {
    let acked = Packet { ack: 1, body: None };
    post.accept_with_undo(alloc, SERVER, &acked, undo)?;
    for number in [4, 1, 0] {
        post.accept_with_undo(alloc, SERVER, &packet(alloc, number, 8)?, undo)?;
    }
    Ok(post.push_with_undo(alloc, SERVER, &[67], undo)?)
}

#[test]
fn what_a_wide_link_did_is_undone(rt: HostRuntime) -> Result<(), Fail> {
    let alloc = rt.alloc();
    let mut post = wide(alloc)?;
    let before = turn_bytes(alloc, &post)?;
    let mut undo = Undo::new(alloc);
    goes_far(alloc, &mut post, &mut undo)?;
    same(&rt, counts(&post), [3, 0, 3]);
    post.undo(undo);
    same(&rt, counts(&post), [2, 0, 0]);
    same(&rt, turn_bytes(alloc, &post)?.as_slice(), before.as_slice());
    goes_far(alloc, &mut post, &mut Undo::new(alloc))?;
    same(&rt, counts(&post), [3, 0, 3]);
    Ok(())
}

/// How many packets are to go before and after they are marked as sent.
fn marked(alloc: Global, post: &mut Post) -> Result<(usize, usize), Fail> {
    let before = post.packets(alloc, false, None)?.len();
    post.mark_sent();
    Ok((before, post.packets(alloc, false, None)?.len()))
}

#[test]
fn what_is_marked_is_not_due(rt: HostRuntime) -> Result<(), Fail> {
    let mut post = begun(rt.alloc())?;
    same(&rt, marked(rt.alloc(), &mut post)?, (1, 0));
    Ok(())
}
