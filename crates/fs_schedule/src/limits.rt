//! The limits of a schedule.

/// The most bytes of a line.
pub const BYTES: usize = 4096;

/// The most events of a schedule.
pub const EVENTS: usize = 65_536;

/// The most packets that are sent in a run.
pub const PACKETS: usize = 1_048_576;
