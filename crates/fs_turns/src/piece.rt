//! The limit of a datagram.

/// How many bytes of a datagram are received.
pub const PIECE: usize = 1100;
