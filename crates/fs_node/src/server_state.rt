//! What a server's node holds.
use fs_ident::{List, Peer};
use fs_io::Addr;
use fs_schedule::Script;
use fs_server::ServerCore;
use fs_window::Post;

/// What a server's node holds.
#[derive(Drop)]
pub(crate) struct ServerState {
    pub(crate) me: u8,
    pub(crate) server: ServerCore,
    pub(crate) post: Post,
    /// The address of each actor, the node's own among them.
    pub(crate) peers: List<(Peer, Addr)>,
    pub(crate) script: List<Script>,
    /// How many lines of the script were taken.
    pub(crate) taken: usize,
    /// Whether the next idle turn is an odd one.
    pub(crate) odd: bool,
    /// How many datagrams were dropped.
    pub(crate) dropped: u64,
    /// How many lines of items there were.
    pub(crate) admitted: u64,
}
