//! What stands at a session.
ghost use Rattle.std.specs.Prelude.{◌≡◌, ◌≤◌, IfOk};
ghost use Rattle.fs_ident.specs.declared.limits.TheConstants.{SESSIONS};
ghost use Rattle.fs_world.specs.Served.{first_session_state};

use crate::servers::term::Term;
use fs_client::ClientCore;
use fs_ident::{List, Memory, Peer, Session, Twin, copy_three, zip_ok};
use fs_msg::{Answer, ClientMsg};
use fs_window::{LINK_WIDTH, Post};
use std::alloc::Global;

/// A client, its links, and the messages on their way between it and servers, each with the server's number.
#[derive(Debug)]
pub(crate) struct SessionState {
    pub(crate) client: ClientCore,
    pub(crate) post: Post,
    /// From the session to servers, in order.
    pub(crate) up: List<(u8, ClientMsg)>,
    /// From servers to the session, in order.
    pub(crate) down: List<(u8, Answer)>,
}

impl SessionState {
    /// What stands at a session that begins.
    pub(crate) fn new(alloc: Global, s: Session, term: &Term) -> Result<SessionState, Memory>
        requires first { 1 ≤ s.0 }
        requires few { s.0 ≤ SESSIONS }
        ensures { IfOk result (λ state. state ≡ first_session_state term.now s) }
    {
        let post = Post::new(alloc, Peer::Client(s), LINK_WIDTH)?;
        Ok(SessionState {
            client: ClientCore::new(alloc, s, term.millis())?,
            post,
            up: List::new(alloc),
            down: List::new(alloc),
        })
    }
}

impl Twin for SessionState {
    fn copy(&self, alloc: Global) -> Result<SessionState, Memory> {
        let links = copy_three(alloc, &self.post, &self.up, &self.down)?;
        let ((post, up, down), client) = zip_ok(links, self.client.copy(alloc))?;
        Ok(SessionState {
            client,
            post,
            up,
            down,
        })
    }

    fn discard(self) {
        let SessionState {
            client,
            post: _,
            up: _,
            down: _,
        } = self;
        client.discard();
    }
}
