//! How wide links are.

/// How many segments may be on their way on a link, counted from the first that is not acknowledged; as many, counted
/// from the next one, may be told in any order and are given in theirs.
pub const LINK_WIDTH: u64 = 64;
