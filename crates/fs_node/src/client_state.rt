//! What a client's node holds.
use fs_client::ClientCore;
use fs_ident::{List, Peer, Session};
use fs_io::Addr;
use fs_schedule::Script;
use fs_window::Post;

/// What a client's node holds.
#[derive(Debug)]
pub(crate) struct ClientState {
    pub(crate) session: Session,
    pub(crate) client: ClientCore,
    pub(crate) post: Post,
    /// The address of each actor, the node's own among them.
    pub(crate) peers: List<(Peer, Addr)>,
    pub(crate) script: List<Script>,
    /// How many lines of the script are done.
    pub(crate) done: usize,
    /// Whether the next idle turn is an odd one.
    pub(crate) odd: bool,
    /// How many datagrams were dropped.
    pub(crate) dropped: u64,
    /// How many lines of items there were.
    pub(crate) admitted: u64,
}
