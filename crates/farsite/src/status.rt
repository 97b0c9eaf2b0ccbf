//! How a call of the program ends.
ghost use Rattle.std.specs.Prelude.{◌≡◌, Some};

use fs_msg::Counter;
use fs_schedule::Which;
use std::fmt;

/// How a call of the program ends. Words and lines are counted from 1.
#[derive(Clone, Copy, Debug, PartialEq, Eq)]
pub enum Status {
    /// The input was read to its end, the run ended, and all was written.
    Done,
    /// No form of the command line has this word there.
    Usage { word: u64 },
    /// The first faulty line is outside the grammar.
    BadLine { line: u64 },
    /// All lines pass, and the line's reading is more than the skew before that of an earlier one. Never of a script.
    Skewed { line: u64, earlier: u64 },
    /// The first faulty line passes a limit, or the run passes that of packets at the line's event.
    Limit { which: Which, at: u64 },
    /// The input has more bytes than the limit.
    TooLong { limit: u64 },
    /// The input could not be read.
    ReadFault,
    /// The output could not be written; what is written is a prefix of it.
    WriteFault,
    /// This counter is at its end, and the run needs one more of it. Within the limits of a schedule it does not come.
    Spent { counter: Counter },
    /// Memory is wanting.
    Memory,
    /// The address of a node could not be bound.
    LinkFault,
}

impl Status {
    ghost use Rattle.farsite.specs.Status.{number_of};

    /// The number with which the program ends.
    pub fn number(self) -> u8
        ensures { result ≡ number_of self }
    {
        match self {
            Status::Done => 0,
            Status::Usage { .. } => 2,
            Status::BadLine { .. } => 3,
            Status::Skewed { .. } => 4,
            Status::Limit { .. } => 5,
            Status::TooLong { .. } => 6,
            Status::ReadFault => 7,
            Status::WriteFault => 8,
            Status::Spent { .. } => 9,
            Status::Memory => 10,
            Status::LinkFault => 11,
        }
    }
}

impl fmt::Display for Status {
    ghost use Rattle.farsite.specs.Status.{status_text};

    ghost output = { λ s. Some (status_text s) };

    fn fmt<W: fmt::Write>(&self, f: &mut fmt::Formatter<W>) -> fmt::Result {
        match self {
            Status::Done => f.write_str("done"),
            Status::Usage { word } => write!(f, "word {word} is not understood"),
            Status::BadLine { line } => write!(f, "line {line} is not in the grammar"),
            Status::Skewed { line, earlier } => {
                write!(f, "line {line} is more than the skew before line {earlier}")
            }
            Status::Limit { which, at } => write!(f, "line {at} passes the limit of {which}"),
            Status::TooLong { limit } => write!(f, "the input has more than {limit} bytes"),
            Status::ReadFault => f.write_str("the input could not be read"),
            Status::WriteFault => f.write_str("the output could not be written"),
            Status::Spent { .. } => f.write_str("a counter is spent"),
            Status::Memory => f.write_str("memory is wanting"),
            Status::LinkFault => f.write_str("the address could not be bound"),
        }
    }
}
