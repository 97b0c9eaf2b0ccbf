//! What the words of the command line ask for.
use fs_ident::Peer;
use fs_io::Addr;

/// The most turns of a node.
pub const TURNS: u64 = 1_000_000;

/// What the words of the command line ask for.
#[derive(Clone, Copy, Debug, PartialEq, Eq)]
pub enum Command {
    /// A schedule is read from the input to its end and run, and its run is written like this.
    Run(Format),
    /// The schedule that is made from the number is run, and what it came to is counted.
    Generate { n: u64 },
    /// One client or server is run as a node, with the script that the input is.
    Node(Settings),
}

/// How a run is written.
#[derive(Clone, Copy, Debug, PartialEq, Eq)]
pub enum Format {
    /// As a report.
    Report,
    /// The journal and the namespace at its end, in JSON.
    Json,
}

/// What a node is to be; where the others stand is told by the words behind.
#[derive(Clone, Copy, Debug, PartialEq, Eq)]
pub struct Settings {
    pub who: Peer,
    /// How many servers there are.
    pub servers: u8,
    /// By how much two clocks may differ, in milliseconds.
    pub skew: u64,
    /// For how long a lease is given, in milliseconds.
    pub term: u64,
    /// After how many turns it ends.
    pub turns: u64,
    /// Where it stands.
    pub at: Addr,
}
