//! Why a node did not end as it should.
use fs_io::ReadError;
use fs_schedule::ScheduleError;
use fs_turns::Stop;
use thiserror::Error;

/// Why a node did not end as it should.
#[derive(Clone, Copy, Debug, PartialEq, Eq, Error)]
pub enum LaunchError {
    /// Its address could not be bound: nothing was read, and it made no turn.
    #[error("the address could not be bound")]
    Bind,
    /// Its script was not read to its end, and it made no turn.
    #[error("the script was not read to its end")]
    Read { why: ReadError },
    /// The input is no script, and it made no turn.
    #[error("the input is no script")]
    Script { why: ScheduleError },
    /// Its turns or its last lines were broken off.
    #[error("the node was broken off")]
    Turns { why: Stop },
}
