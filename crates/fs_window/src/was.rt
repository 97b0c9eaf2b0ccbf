//! How an end was.
use crate::queue::Change;
use fs_frag::Segment;

/// What an end needs to be again what it was: its numbers, and what changes its queues back.
#[derive(Debug, Drop)]
pub(crate) struct Was {
    pub(crate) acked: u64,
    pub(crate) sent: u64,
    pub(crate) got: u64,
    pub(crate) waiting: Change<Segment>,
    pub(crate) kept: Change<Option<Segment>>,
}
