//! Why a run is broken off.
ghost use Rattle.std.specs.Prelude.{◌≡◌};
ghost use Rattle.fs_turns.specs.Run.{stop_of};

use fs_msg::{CoreError, Counter};
use thiserror::Error;

/// Why a run is broken off.
#[derive(Clone, Copy, Debug, PartialEq, Eq, Error)]
pub enum Stop {
    /// A line could not be written.
    #[error("the output could not be written")]
    Write,
    /// An actor's step needs a number after this counter's last one.
    #[error("a counter is spent")]
    Spent { counter: Counter },
    /// Memory is wanting.
    #[error("memory is wanting")]
    Memory,
}

impl From<CoreError> for Stop {
    ghost from_gives = { λ e s. s ≡ stop_of e };

    fn from(e: CoreError) -> Stop {
        match e {
            CoreError::Spent { counter } => Stop::Spent { counter },
            CoreError::Memory => Stop::Memory,
        }
    }
}
