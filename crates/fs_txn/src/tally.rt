//! What a leader waits for.

/// What is left to do after a vote was counted.
#[derive(Clone, Copy, Debug, PartialEq, Eq)]
pub enum Tally {
    /// Other votes are awaited.
    Waiting,
    /// The part has to be asked of this server.
    Seek { part: u8, to: u8 },
    /// Every part has voted, and the leader decides.
    Full,
}
