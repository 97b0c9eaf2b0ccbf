//! What a server hears of a packet that joins two messages, over links that are two segments wide.
use crate::nodes::{QUESTION, same};
use fs_actor::server_told_all;
use fs_ident::{Peer, Session};
use fs_server::ServerCore;
use fs_window::{Packet, Post, read_packet};
use std::alloc::Global;
use std::process::Abort;
use std::test::Fail;

const CLIENT: Peer = Peer::Client(Session(1));

/// The question as the segment of this number.
fn question(alloc: Global, number: u8) -> Result<Packet, Fail> {
    let mut bytes = QUESTION;
    bytes[17] = number;
    match read_packet(alloc, &bytes)? {
        Some(p) => Ok(p),
        None => Err(Fail::from("a packet")),
    }
}

/// The server hears the segment of this number. So many packets go out then, and so many segments were given and pushed.
fn is_told(
    rt: &impl Abort,
    alloc: Global,
    number: u8,
    server: &mut ServerCore,
    post: &mut Post,
    wanted: (usize, u64, u64),
) -> Result<(), Fail> {
    let p = question(alloc, number)?;
    match server_told_all(alloc, 5, CLIENT, &p, server, post) {
        Ok(told) => {
            let found = (told.packets.len(), post.got(CLIENT), post.pushed(CLIENT));
            same(rt, found, wanted);
            Ok(())
        }
        Err(_) => Err(Fail::from("an event")),
    }
}

#[test]
fn all_that_a_packet_joins_is_answered_at_once(rt: HostRuntime) -> Result<(), Fail> {
    let alloc = rt.alloc();
    let mut server = ServerCore::new(alloc, 0, 10, 100)?;
    let mut post = Post::new(alloc, Peer::Server(0), 2)?;
    is_told(&rt, alloc, 1, &mut server, &mut post, (1, 0, 0))?;
    is_told(&rt, alloc, 0, &mut server, &mut post, (2, 2, 2))
}
