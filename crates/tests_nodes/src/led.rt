//! A client's node and a server's that hear each other: a file is made, and a server leads its delete.
ghost use Rattle.std.specs.Prelude.{IfOk};
ghost use Rattle.fs_node.specs.Scripts.{AreAskable};

use crate::nodes::{CLIENT, SERVER, peers, same};
use fs_ident::{FileId, Kind, List, Name, Session};
use fs_io::Addr;
use fs_model::Op;
use fs_node::{ClientNode, ServerNode};
use fs_schedule::Script;
use fs_turns::{Actor, Counts, Turn};
use std::alloc::Global;
use std::test::Fail;

/// What a node has sent, how much of it the other has heard, and the node's lines.
#[derive(Debug, Drop)]
struct Said {
    sent: Vec<List<u8>>,
    heard: usize,
    lines: Vec<u8>,
}

impl Said {
    fn new(alloc: Global) -> Said {
        Said {
            sent: Vec::new(alloc),
            heard: 0,
            lines: Vec::new(alloc),
        }
    }

    /// The node made a turn.
    fn add(&mut self, turn: Turn) -> Result<(), Fail> {
        for (_, bytes) in turn.due.into_vec() {
            self.sent.push(bytes)?;
        }
        self.lines.extend_from_slice(turn.lines.as_slice())?;
        Ok(())
    }
}

/// A turn of the node, with the next packet of the other, if there is one.
fn takes_turn<A: Actor>(
    alloc: Global,
    node: &mut A,
    from: Addr,
    other: &mut Said,
    own: &mut Said,
) -> Result<(), Fail> {
    let turn = match other.sent.get(other.heard) {
        Some(bytes) => {
            other.heard += 1;
            node.step(alloc, 5, Some((from, bytes.as_slice())))
        }
        None => node.step(alloc, 5, None),
    };
    match turn {
        Ok(turn) => own.add(turn),
        Err(_) => Err(Fail::from("a turn")),
    }
}

/// A file is made and deleted.
fn script(alloc: Global) -> Result<List<Script>, Fail>
    ensures { IfOk result AreAskable }
{
    let mut script = List::new(alloc);
    script.push(Script::Op(Op::Create {
        dir: FileId::root(alloc),
        name: Name::new(alloc, b"a")?,
        kind: Kind::File,
        id: None,
    }))?;
    script.push(Script::Op(Op::Delete {
        dir: FileId::root(alloc),
        name: Name::new(alloc, b"a")?,
    }))?;
    Ok(script)
}

/// So many turns of each: what the client has said, and what the server has.
fn take_turns(
    alloc: Global,
    turns: u64,
    client: &mut ClientNode,
    server: &mut ServerNode,
    up: &mut Said,
    down: &mut Said,
) -> Result<(), Fail> {
    for _ in 0..turns {
        takes_turn(alloc, client, SERVER, down, up)?;
        takes_turn(alloc, server, CLIENT, up, down)?;
    }
    Ok(())
}

/// The last lines of the client, and then all lines of the server, join those of the client.
fn add_endings(
    alloc: Global,
    turns: u64,
    client: &ClientNode,
    up: &mut Said,
    down: &Said,
) -> Result<(), Fail> {
    let counts = Counts {
        turns,
        receive_faults: 0,
        send_faults: 0,
    };
    let ending = client.ending(alloc, &counts)?;
    up.lines.extend_from_slice(ending.as_slice())?;
    up.lines.extend_from_slice(down.lines.as_slice())?;
    Ok(())
}

/// The lines of the client and those of the server, after so many turns of each.
fn lines_of(
    alloc: Global,
    turns: u64,
    client: &mut ClientNode,
    server: &mut ServerNode,
) -> Result<Vec<u8>, Fail> {
    let mut up = Said::new(alloc);
    let mut down = Said::new(alloc);
    take_turns(alloc, turns, client, server, &mut up, &mut down)?;
    add_endings(alloc, turns, client, &mut up, &down)?;
    Ok(up.lines)
}

/// The same, of a server that is made for it.
fn lines_with(alloc: Global, turns: u64, client: &mut ClientNode) -> Result<Vec<u8>, Fail> {
    let peers = peers(alloc)?;
    let mut server = ServerNode::new(alloc, 0, 10, 1000, peers, List::new(alloc))?;
    lines_of(alloc, turns, client, &mut server)
}

#[test]
fn what_a_server_leads_is_one_line(rt: HostRuntime) -> Result<(), Fail> {
    let alloc = rt.alloc();
    let made = ClientNode::new(alloc, Session(1), 1000, peers(alloc)?, script(alloc)?);
    let mut client = made?;
    let lines = lines_with(alloc, 40, &mut client);
    client.discard();
    let wanted = b"c1 1 create / \"a\" file /1 made\n\
        c1 2 delete / \"a\" deleted\n\
        summary turns 40 admitted 2 dropped 0 receive_faults 0 send_faults 0\n\
        c1 1 create / \"a\" file /1 made\n\
        c1 2 delete / \"a\" deleted\n";
    same(&rt, lines?.as_slice(), wanted.as_slice());
    Ok(())
}
