//! What a node counts.

/// How many turns were made, and how many receives and sends failed. A packet that is due to an actor without an address is
/// counted among the sends.
#[derive(Clone, Copy, Debug, PartialEq, Eq)]
pub struct Counts {
    pub turns: u64,
    pub receive_faults: u64,
    pub send_faults: u64,
}
