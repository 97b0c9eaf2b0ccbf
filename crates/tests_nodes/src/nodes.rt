//! A node's turns and its last lines, over a link in memory.
use fs_ident::{FileId, List, Peer, Session};
use fs_io::{Addr, CallKind, MemClock, MemLink, MemSink};
use fs_model::Op;
use fs_node::{ClientNode, ServerNode};
use fs_schedule::Script;
use fs_turns::{Actor, Counts, run};
use std::alloc::Global;
use std::fmt::Debug;
use std::process::Abort;
use std::test::Fail;

/// Where the server stands, where the client does, and where nobody does.
pub(crate) const SERVER: Addr = Addr {
    ip: [127, 0, 0, 1],
    port: 7000,
};

pub(crate) const CLIENT: Addr = Addr {
    ip: [127, 0, 0, 1],
    port: 7001,
};

const NOBODY: Addr = Addr {
    ip: [127, 0, 0, 2],
    port: 7000,
};

/// The packet of a client that asks for the life of the root.
pub(crate) const QUESTION: [u8; 39] = [
    0x46, 0, 0, 0, 0, 0, 0, 0, 0, 1, 0, 0, 0, 0, 0, 0, 0, 0, 0, 0, 0, 0, 0, 0, 0, 13, 1, 0, 0, 0,
    0, 0, 0, 0, 1, 0, 128, 0, 0,
];

pub(crate) fn same<T: PartialEq + Debug + Drop>(rt: &impl Abort, found: T, wanted: T) {
    assert_eq!(rt; found, wanted);
}

/// The server of number 0 and the client of session 1, each at its place.
pub(crate) fn peers(alloc: Global) -> Result<List<(Peer, Addr)>, Fail> {
    let mut peers = List::new(alloc);
    peers.push((Peer::Server(0), SERVER))?;
    peers.push((Peer::Client(Session(1)), CLIENT))?;
    Ok(peers)
}

/// A link at which this datagram waits.
fn link_with(alloc: Global, from: Addr, bytes: &[u8]) -> Result<MemLink, Fail> {
    let mut waiting = Vec::new(alloc);
    waiting.push((from, List::from_vec(bytes.to_vec(alloc)?)))?;
    Ok(MemLink::new(alloc, waiting, 20, Vec::new(alloc))?)
}

/// What so many turns of the actor count; nothing is written in them.
fn turned<A: Actor>(
    rt: &impl Abort,
    alloc: Global,
    turns: u64,
    actor: &mut A,
    link: &mut MemLink,
) -> Result<Counts, Fail> {
    let mut counts = Counts {
        turns: 0,
        receive_faults: 0,
        send_faults: 0,
    };
    let mut clock = MemClock::new(Vec::new(alloc));
    let mut out = MemSink::new(alloc, 100, Vec::new(alloc))?;
    let ran = run(alloc, turns, actor, &mut counts, &mut clock, link, &mut out);
    same(rt, ran, Ok(()));
    same(rt, out.bytes(), b"".as_slice());
    Ok(counts)
}

/// With what a server without a script ends after two turns, where this datagram waits at its link.
fn is_ended(
    rt: &impl Abort,
    alloc: Global,
    from: Addr,
    bytes: &[u8],
    wanted: &[u8],
) -> Result<(), Fail> {
    let mut link = link_with(alloc, from, bytes)?;
    let mut node = ServerNode::new(alloc, 0, 10, 100, peers(alloc)?, List::new(alloc))?;
    let counts = turned(rt, alloc, 2, &mut node, &mut link)?;
    let text = node.ending(alloc, &counts)?;
    same(rt, text.as_slice(), wanted);
    Ok(())
}

#[test]
fn what_comes_from_nowhere_and_what_is_no_packet_is_dropped(rt: HostRuntime) -> Result<(), Fail> {
    let none = b"summary turns 2 admitted 0 dropped 0 receive_faults 0 send_faults 0\n";
    let one = b"summary turns 2 admitted 0 dropped 1 receive_faults 0 send_faults 0\n";
    is_ended(&rt, rt.alloc(), CLIENT, &QUESTION, none)?;
    is_ended(&rt, rt.alloc(), NOBODY, &QUESTION, one)?;
    is_ended(&rt, rt.alloc(), SERVER, &QUESTION, one)?;
    is_ended(&rt, rt.alloc(), CLIENT, b"abc", one)
}

/// The client asks its server at its first turn, which is the first idle one.
fn is_asked(rt: &impl Abort, link: &MemLink) -> Result<(), Fail> {
    if link.calls().len() < 2 {
        return Err(Fail::from("two calls"));
    }
    same(rt, link.calls()[1].what, CallKind::Send);
    same(rt, link.calls()[1].addr, Some(SERVER));
    same(rt, link.bytes(1), QUESTION.as_slice());
    Ok(())
}

#[test]
fn a_client_asks_at_its_first_turn(rt: HostRuntime) -> Result<(), Fail> {
    let alloc = rt.alloc();
    let mut link = MemLink::new(alloc, Vec::new(alloc), 20, Vec::new(alloc))?;
    let mut script = List::new(alloc);
    script.push(Script::Op(Op::Kind {
        file: FileId::root(alloc),
    }))?;
    let made = ClientNode::new(alloc, Session(1), 100, peers(alloc)?, script);
    let mut node = made?;
    let counts = turned(&rt, alloc, 3, &mut node, &mut link);
    let text = match counts {
        Ok(counts) => node.ending(alloc, &counts).map_err(Fail::from),
        Err(e) => Err(e),
    };
    node.discard();
    let wanted = b"open 0\nsummary turns 3 admitted 0 dropped 0 receive_faults 0 send_faults 0\n";
    same(&rt, text?.as_slice(), wanted.as_slice());
    is_asked(&rt, &link)
}
