//! Why a run is broken off.
ghost use Rattle.std.specs.Prelude.{◌≡◌};
ghost use Rattle.farsite.specs.declared.run_error.RunError.TheVariants.{Memory};

use fs_msg::Counter;
use thiserror::Error;

/// Why a run is broken off.
#[derive(Clone, Copy, Debug, PartialEq, Eq, Error)]
pub(crate) enum RunError {
    /// An event needs a number after this counter's last one.
    #[error("a counter is spent")]
    Spent { counter: Counter },
    /// Up to the event of this line more packets were sent than the limit.
    #[error("line {line} passes the limit of packets")]
    Packets { line: u64 },
    /// Memory is wanting.
    #[error("memory is wanting")]
    Memory,
}

impl From<fs_ident::Memory> for RunError {
    ghost from_gives = { λ _ e. e ≡ Memory };

    fn from(_: fs_ident::Memory) -> RunError {
        RunError::Memory
    }
}
