//! Why lines are no schedule.
ghost use Rattle.std.specs.Prelude.{◌≡◌};
ghost use Rattle.fs_schedule.specs.declared.error.ScheduleError.TheVariants.{Memory};

use std::alloc::{AllocError, AllocFailed};
use std::fmt;
use thiserror::Error;

/// What has a limit.
#[derive(Clone, Copy, Debug, PartialEq, Eq)]
pub enum Which {
    /// Bytes of a line, 4,096.
    Bytes,
    /// Servers of a form, 15.
    Servers,
    /// A session's number, 1,000.
    Sessions,
    /// Events of a schedule, 65,536.
    Events,
    /// Packets that were sent, 1,048,576.
    Packets,
}

impl fmt::Display for Which {
    ghost use Rattle.std.specs.Prelude.{Some};
    ghost use Rattle.fs_schedule.specs.Limits.{which_text};

    ghost output = { λ w. Some (which_text w) };

    fn fmt<W: fmt::Write>(&self, f: &mut fmt::Formatter<W>) -> fmt::Result {
        match self {
            Which::Bytes => f.write_str("bytes"),
            Which::Servers => f.write_str("servers"),
            Which::Sessions => f.write_str("sessions"),
            Which::Events => f.write_str("events"),
            Which::Packets => f.write_str("packets"),
        }
    }
}

/// Why bytes are no schedule. Lines are counted from 1.
#[derive(Clone, Copy, Debug, PartialEq, Eq, Error)]
pub enum ScheduleError {
    /// The first faulty line is outside the grammar.
    BadLine { line: u64 },
    /// The first faulty line passes a limit.
    Limit { which: Which, at: u64 },
    /// All lines pass, and the line's reading is more than the skew before that of an earlier one.
    Skewed { line: u64, earlier: u64 },
    /// Memory is wanting.
    Memory,
}

impl fmt::Display for ScheduleError {
    ghost use Rattle.std.specs.Prelude.{Some};
    ghost use Rattle.fs_schedule.specs.Errors.{error_text};

    ghost output = { λ e. Some (error_text e) };

    fn fmt<W: fmt::Write>(&self, f: &mut fmt::Formatter<W>) -> fmt::Result {
        match self {
            ScheduleError::BadLine { line } => write!(f, "line {line} is not in the grammar"),
            ScheduleError::Limit { which, at } => {
                write!(f, "line {at} passes the limit of {which}")
            }
            ScheduleError::Skewed { line, earlier } => {
                write!(f, "line {line} is more than the skew before line {earlier}")
            }
            ScheduleError::Memory => f.write_str("memory is wanting"),
        }
    }
}

impl From<fs_ident::Memory> for ScheduleError {
    ghost from_gives = { λ _ e. e ≡ Memory };

    fn from(_: fs_ident::Memory) -> ScheduleError {
        ScheduleError::Memory
    }
}

impl From<AllocError> for ScheduleError {
    ghost from_gives = { λ _ e. e ≡ Memory };

    fn from(_: AllocError) -> ScheduleError {
        ScheduleError::Memory
    }
}

impl<T: Drop> From<AllocFailed<T>> for ScheduleError {
    ghost from_gives = { λ _ e. e ≡ Memory };

    fn from(_: AllocFailed<T>) -> ScheduleError {
        ScheduleError::Memory
    }
}
