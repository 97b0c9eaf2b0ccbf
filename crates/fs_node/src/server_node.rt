//! A server as a node runs it.
ghost use Rattle.std.specs.Prelude.{◌≡◌, ◌<◌, ◌≤◌, IfOk};
ghost use Rattle.fs_msg.specs.declared.limits.TheConstants.{LONGEST, SERVERS};
ghost use Rattle.fs_node.specs.Endings.{server_ending};
ghost use Rattle.fs_node.specs.ServerNode.{first_server_node, server_is_over, server_step};

use crate::arrival::arrival_of;
use crate::ending::ending;
use crate::server_state::ServerState;
use fs_ident::{LATEST, List, Memory, Peer};
use fs_io::Addr;
use fs_msg::CoreError;
use fs_schedule::Script;
use fs_server::ServerCore;
use fs_turns::{Actor, Counts, Turn};
use fs_window::{LINK_WIDTH, Post};
use std::alloc::Global;
use std::marker::Model;

/// A server, its links, and its script.
#[derive(Drop)]
pub struct ServerNode {
    state: ServerState,
}

impl Model for ServerNode {
    ghost use Rattle.fs_node.specs.contracts.server_state.ServerState as whole;
    ghost use Rattle.fs_node.specs.declared.server_state.ServerState.{ServerState};

    ghost Value = { ServerState };

    ghost coded = { whole.the_row.coded };

    ghost view = { λ n. n.state };
}

impl ServerNode {
    /// A server before its first turn: its number, by how much two clocks may differ, and for how long it gives a lease,
    /// both in milliseconds, the address of each actor, its own among them, and its script.
    pub fn new(
        alloc: Global,
        me: u8,
        skew: u64,
        term: u64,
        peers: List<(Peer, Addr)>,
        script: List<Script>,
    ) -> Result<ServerNode, Memory>
        requires few { me < SERVERS }
        requires skew { skew ≤ LONGEST }
        requires some { 1 ≤ term }
        requires term { term ≤ LONGEST }
        ensures { IfOk result (λ n. n ≡ first_server_node me skew term peers script) }
    {
        let post = Post::new(alloc, Peer::Server(me), LINK_WIDTH)?;
        let server = ServerCore::new(alloc, me, skew, term)?;
        Ok(ServerNode {
            state: ServerState {
                me,
                server,
                post,
                peers,
                script,
                taken: 0,
                odd: true,
                dropped: 0,
                admitted: 0,
            },
        })
    }

    /// The lines with which the node ends, where so much was counted.
    pub fn ending(&self, alloc: Global, counts: &Counts) -> Result<Vec<u8>, Memory>
        ensures { IfOk result (λ text. text.items ≡ server_ending counts.now self.now) }
    {
        let state = &self.state;
        ending(
            alloc,
            None,
            state.is_open(),
            state.taken as u64,
            state.admitted,
            state.dropped,
            counts,
        )
    }
}

impl Actor for ServerNode {
    ghost is_over = { server_is_over };

    ghost step = { server_step };

    fn is_over(&self) -> bool {
        false
    }

    fn step(
        &mut self,
        alloc: Global,
        reading: u64,
        came: Option<(Addr, &[u8])>,
    ) -> Result<Turn, CoreError> {
        let me = Peer::Server(self.state.me);
        let arrival = arrival_of(alloc, me, self.state.peers.as_slice(), came)?;
        self.state.take(alloc, reading.min(LATEST), arrival)
    }
}
