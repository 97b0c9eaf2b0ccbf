//! The limits of a service: its servers, clocks and leases.

/// The most servers.
pub const SERVERS: u8 = 15;

/// The greatest skew between two clocks, and the longest term of a lease, in milliseconds.
pub const LONGEST: u64 = 1_000_000_000;
