//! Nodes from their words to their last line, over links in memory and over sockets.
use super::{ROOM, same, words};
use crate::status::Status;
use crate::top::farsite;
use fs_ident::List;
use fs_io::{Addr, Link, MemClock, MemLink, MemSink, MemSource, SureLink, UdpLink};
use fs_schedule::Which;
use std::alloc::Global;
use std::process::Abort;
use std::test::Fail;

/// The words of a server that makes two turns.
const SERVER: &[&str] = &["node", "s0", "1", "10", "100", "2", "s0=127.0.0.1:7000"];

/// The words of a client that makes ten.
const CLIENT: &[&str] = &[
    "node",
    "c1",
    "1",
    "10",
    "100",
    "10",
    "c1=127.0.0.1:7001",
    "s0=127.0.0.1:7000",
];

const LOCALHOST: [u8; 4] = [127, 0, 0, 1];

/// What a message is cut into that no actor sends: one packet with one byte.
const STRANGE: &[u8] = &[
    0x46, 0, 0, 0, 0, 0, 0, 0, 0, 1, 0, 0, 0, 0, 0, 0, 0, 0, 0, 0, 0, 0, 0, 0, 0, 1, 7,
];

/// What is asked of a node: its words, its script, a datagram that waits, with the port that it comes from, and which calls of
/// its link fail, counted from its bind.
struct Case {
    words: &'static [&'static str],
    script: &'static [u8],
    waiting: Option<(u16, &'static [u8])>,
    fails: &'static [u64],
    status: Status,
    written: &'static [u8],
}

const CASES: [Case; 9] = [
    Case {
        words: SERVER,
        script: b"",
        waiting: None,
        fails: &[],
        status: Status::Done,
        written: b"summary turns 2 admitted 0 dropped 0 receive_faults 0 send_faults 0\n",
    },
    Case {
        words: SERVER,
        script: b"",
        waiting: None,
        fails: &[1],
        status: Status::LinkFault,
        written: b"",
    },
    Case {
        words: SERVER,
        script: b"",
        waiting: None,
        fails: &[2],
        status: Status::Done,
        written: b"summary turns 2 admitted 0 dropped 0 receive_faults 1 send_faults 0\n",
    },
    Case {
        words: SERVER,
        script: b"",
        waiting: Some((7001, b"abc")),
        fails: &[],
        status: Status::Done,
        written: b"summary turns 2 admitted 0 dropped 1 receive_faults 0 send_faults 0\n",
    },
    Case {
        words: SERVER,
        script: b"recall life /\nrecall life /1\n",
        waiting: None,
        fails: &[],
        status: Status::Done,
        written: b"open 1\nsummary turns 2 admitted 0 dropped 0 receive_faults 0 send_faults 0\n",
    },
    Case {
        words: SERVER,
        script: b"kind /\n",
        waiting: None,
        fails: &[],
        status: Status::BadLine { line: 1 },
        written: b"",
    },
    Case {
        words: CLIENT,
        script: b"kind /\n",
        waiting: None,
        fails: &[3],
        status: Status::Done,
        written: b"open 0\nsummary turns 10 admitted 0 dropped 0 receive_faults 0 send_faults 1\n",
    },
    Case {
        words: CLIENT,
        script: b"kind /\n",
        waiting: Some((7000, STRANGE)),
        fails: &[],
        status: Status::Done,
        written: b"open 0\nsummary turns 10 admitted 0 dropped 0 receive_faults 0 send_faults 0\n",
    },
    Case {
        words: CLIENT,
        script: b"kind /\nkind\n",
        waiting: None,
        fails: &[],
        status: Status::BadLine { line: 2 },
        written: b"",
    },
];

/// How a node ends with these words and this script, and what it writes. Its clock stands still.
fn ended<L: Link>(
    alloc: Global,
    given: &[&str],
    script: Vec<u8>,
    link: &mut L,
) -> Result<(Status, Vec<u8>), Fail> {
    let mut source = MemSource::new(script, Vec::new(alloc));
    let mut sink = MemSink::new(alloc, ROOM, Vec::new(alloc))?;
    let mut clock = MemClock::new(Vec::new(alloc));
    let words = words(alloc, given)?;
    let status = farsite(alloc, &words, &mut source, &mut sink, &mut clock, link);
    Ok((status, Vec::from_slice(alloc, sink.bytes())?))
}

/// Whether the node ends so, and writes this.
fn ends<L: Link>(
    rt: &impl Abort,
    alloc: Global,
    given: &[&str],
    script: &[u8],
    link: &mut L,
    status: Status,
    wanted: &[u8],
) -> Result<(), Fail> {
    let (found, written) = ended(alloc, given, Vec::from_slice(alloc, script)?, link)?;
    same(rt, found, status);
    same(rt, written.as_slice(), wanted);
    Ok(())
}

/// A link with room for these calls, at which this datagram waits.
fn link_of(alloc: Global, case: &Case) -> Result<MemLink, Fail> {
    let mut waiting = Vec::new(alloc);
    if let Some((port, bytes)) = case.waiting {
        let from = Addr {
            ip: LOCALHOST,
            port,
        };
        waiting.push((from, List::from_vec(Vec::from_slice(alloc, bytes)?)))?;
    }
    let fails = Vec::from_slice(alloc, case.fails)?;
    Ok(MemLink::new(alloc, waiting, 40, fails)?)
}

#[test]
fn nodes_to_the_byte(rt: HostRuntime) -> Result<(), Fail> {
    for case in &CASES {
        let mut link = link_of(rt.alloc(), case)?;
        ends(
            &rt,
            rt.alloc(),
            case.words,
            case.script,
            &mut link,
            case.status,
            case.written,
        )?;
    }
    Ok(())
}

/// A link that never fails: the calls of a node that makes two turns.
#[test]
fn a_node_over_a_sure_link(rt: HostRuntime) -> Result<(), Fail> {
    let alloc = rt.alloc();
    let mut link = SureLink::new(alloc, Vec::new(alloc), 20)?;
    let done = b"summary turns 2 admitted 0 dropped 0 receive_faults 0 send_faults 0\n";
    ends(&rt, alloc, SERVER, b"", &mut link, Status::Done, done)?;
    same(&rt, link.calls().len(), 3);
    Ok(())
}

/// A line too long, behind one that fits.
#[test]
fn a_script_past_a_limit(rt: HostRuntime) -> Result<(), Fail> {
    let alloc = rt.alloc();
    let mut script = Vec::from_slice(alloc, b"kind /\n")?;
    script.resize(5_000, b'x')?;
    let mut link = SureLink::new(alloc, Vec::new(alloc), 20)?;
    let status = Status::Limit {
        which: Which::Bytes,
        at: 2,
    };
    ends(&rt, alloc, CLIENT, &script, &mut link, status, b"")?;
    same(&rt, link.calls().len(), 1);
    Ok(())
}

/// Where the server's socket is, and where the client's is.
const HERE: Addr = Addr {
    ip: LOCALHOST,
    port: 7100,
};

const THERE: Addr = Addr {
    ip: LOCALHOST,
    port: 7101,
};

const ASKING: &[&str] = &[
    "node",
    "c1",
    "1",
    "10",
    "100",
    "3",
    "c1=127.0.0.1:7101",
    "s0=127.0.0.1:7100",
];

/// The packet of a client that asks for the life of the root.
const QUESTION: [u8; 39] = [
    0x46, 0, 0, 0, 0, 0, 0, 0, 0, 1, 0, 0, 0, 0, 0, 0, 0, 0, 0, 0, 0, 0, 0, 0, 0, 13, 1, 0, 0, 0,
    0, 0, 0, 0, 1, 0, 128, 0, 0,
];

/// A client asks over its socket, and the server's socket has the question; no other can be bound there.
#[test]
fn a_client_asks_over_a_socket(rt: HostRuntime) -> Result<(), Fail> {
    let alloc = rt.alloc();
    let mut server = UdpLink::new(&rt);
    same(&rt, server.bind(HERE).is_ok(), true);
    let mut link = UdpLink::new(&rt);
    let open = b"open 0\nsummary turns 3 admitted 0 dropped 0 receive_faults 0 send_faults 0\n";
    ends(&rt, alloc, ASKING, b"kind /", &mut link, Status::Done, open)?;
    let mut buf = [0; 1100];
    same(&rt, server.receive(&mut buf), Ok(Some((THERE, 39))));
    same(&rt, buf.starts_with(&QUESTION), true);
    let mut other = UdpLink::new(&rt);
    let taken = &["node", "s0", "1", "10", "100", "2", "s0=127.0.0.1:7100"];
    ends(&rt, alloc, taken, b"", &mut other, Status::LinkFault, b"")
}
