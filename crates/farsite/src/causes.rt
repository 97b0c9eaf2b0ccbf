//! The status of each cause for which a call does not end as it should.
ghost use Rattle.std.specs.Prelude.{◌≡◌};
ghost use Rattle.farsite.specs.Status.{launch_status, read_status, run_status, schedule_status, stop_status};

use crate::run_error::RunError;
use crate::status::Status;
use fs_io::ReadError;
use fs_launch::LaunchError;
use fs_schedule::{ScheduleError, Which};
use fs_turns::Stop;

/// The status of an input that was not read to its end.
pub(crate) fn read_status(e: ReadError) -> Status
    ensures { result ≡ read_status e }
{
    match e {
        ReadError::ReadFault => Status::ReadFault,
        ReadError::TooLong { limit } => Status::TooLong {
            limit: limit as u64,
        },
        ReadError::Memory => Status::Memory,
    }
}

/// The status of an input that is no schedule, or no script.
pub(crate) fn schedule_status(e: ScheduleError) -> Status
    ensures { result ≡ schedule_status e }
{
    match e {
        ScheduleError::BadLine { line } => Status::BadLine { line },
        ScheduleError::Skewed { line, earlier } => Status::Skewed { line, earlier },
        ScheduleError::Limit { which, at } => Status::Limit { which, at },
        ScheduleError::Memory => Status::Memory,
    }
}

/// The status of a run that was broken off.
pub(crate) fn run_status(e: RunError) -> Status
    ensures { result ≡ run_status e }
{
    match e {
        RunError::Spent { counter } => Status::Spent { counter },
        RunError::Packets { line } => Status::Limit {
            which: Which::Packets,
            at: line,
        },
        RunError::Memory => Status::Memory,
    }
}

/// The status of a node that was broken off.
fn stop_status(why: Stop) -> Status
    ensures { result ≡ stop_status why }
{
    match why {
        Stop::Write => Status::WriteFault,
        Stop::Spent { counter } => Status::Spent { counter },
        Stop::Memory => Status::Memory,
    }
}

/// The status of a node that did not end as it should.
pub(crate) fn launch_status(e: LaunchError) -> Status
    ensures { result ≡ launch_status e }
{
    match e {
        LaunchError::Bind => Status::LinkFault,
        LaunchError::Read { why } => read_status(why),
        LaunchError::Script { why } => schedule_status(why),
        LaunchError::Turns { why } => stop_status(why),
    }
}
