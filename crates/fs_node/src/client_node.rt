//! A client as a node runs it.
ghost use Rattle.std.specs.Prelude.{◌≡◌, ◌≤◌, IfOk};
ghost use Rattle.fs_ident.specs.declared.limits.TheConstants.{SESSIONS};
ghost use Rattle.fs_msg.specs.declared.limits.TheConstants.{LONGEST};
ghost use Rattle.fs_node.specs.ClientNode.{client_is_over, client_step, first_client_node};
ghost use Rattle.fs_node.specs.Endings.{client_ending};
ghost use Rattle.fs_node.specs.Scripts.{AreAskable};

use crate::arrival::arrival_of;
use crate::client_state::ClientState;
use crate::ending::ending;
use fs_client::ClientCore;
use fs_ident::{LATEST, List, Memory, Peer, Session};
use fs_io::Addr;
use fs_msg::CoreError;
use fs_schedule::Script;
use fs_turns::{Actor, Counts, Turn};
use fs_window::{LINK_WIDTH, Post};
use std::alloc::Global;
use std::marker::Model;

/// The client of a session, its links, and the script of its user.
pub struct ClientNode {
    state: ClientState,
}

impl Model for ClientNode {
    ghost use Rattle.fs_node.specs.Scripts.{AreAskable};
    ghost use Rattle.fs_node.specs.declared.client_state.ClientState.{ClientState};

    ghost Value = { ClientState };

    ghost view = { λ n. n.state };

    ghost invariant = { λ n. AreAskable n.state.script };
}

impl ClientNode {
    /// A client before its first turn: its session, how long its servers give leases, in milliseconds, the address of each
    /// actor, its own among them, and its script.
    pub fn new(
        alloc: Global,
        session: Session,
        term: u64,
        peers: List<(Peer, Addr)>,
        script: List<Script>,
    ) -> Result<ClientNode, Memory>
        requires first { 1 ≤ session.0 }
        requires few { session.0 ≤ SESSIONS }
        requires some { 1 ≤ term }
        requires most { term ≤ LONGEST }
        requires askable { AreAskable script }
        ensures { IfOk result (λ n. n ≡ first_client_node session term peers script) }
    {
        let post = Post::new(alloc, Peer::Client(session), LINK_WIDTH)?;
        let client = ClientCore::new(alloc, session, term)?;
        Ok(ClientNode {
            state: ClientState {
                session,
                client,
                post,
                peers,
                script,
                done: 0,
                odd: true,
                dropped: 0,
                admitted: 0,
            },
        })
    }

    /// The lines with which the node ends, where so much was counted.
    pub fn ending(&self, alloc: Global, counts: &Counts) -> Result<Vec<u8>, Memory>
        ensures { IfOk result (λ text. text.items ≡ client_ending counts.now self.now) }
    {
        let state = &self.state;
        ending(
            alloc,
            state.client.over(),
            state.is_open(),
            state.done as u64,
            state.admitted,
            state.dropped,
            counts,
        )
    }

    /// Gives the client up, with every lease.
    pub fn discard(self) {
        let ClientNode { state } = self;
        let ClientState {
            session: _,
            client,
            post: _,
            peers: _,
            script: _,
            done: _,
            odd: _,
            dropped: _,
            admitted: _,
        } = state;
        client.discard();
    }
}

impl Actor for ClientNode {
    ghost is_over = { client_is_over };

    ghost step = { client_step };

    fn is_over(&self) -> bool {
        self.state.client.over().is_some() || !self.state.is_open()
    }

    fn step(
        &mut self,
        alloc: Global,
        reading: u64,
        came: Option<(Addr, &[u8])>,
    ) -> Result<Turn, CoreError> {
        let me = Peer::Client(self.state.session);
        let arrival = arrival_of(alloc, me, self.state.peers.as_slice(), came)?;
        self.state.take(alloc, reading.min(LATEST), arrival)
    }
}
