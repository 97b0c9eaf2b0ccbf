//! Why a core or a world makes no step.
ghost use Rattle.std.specs.Prelude.{◌≡◌};
ghost use Rattle.fs_msg.specs.declared.core_error.CoreError.TheVariants.{Memory};

use std::alloc::{AllocError, AllocFailed};
use thiserror::Error;

/// What only rises, and can come to the end of its type.
#[derive(Clone, Copy, Debug, PartialEq, Eq)]
pub enum Counter {
    /// Numbers of leases.
    Leases,
    /// Numbers of transactions.
    Transactions,
    /// Numbers of path leases.
    Paths,
    /// Numbers of a session's operations.
    Entries,
    /// Numbers of a server's reaps.
    Reaps,
    /// Numbers of segments on a link.
    Segments,
}

/// Why a core or a world makes no step; it is as it was.
#[derive(Clone, Copy, Debug, PartialEq, Eq, Error)]
pub enum CoreError {
    /// The step must raise this counter, which is at u64::MAX.
    #[error("a counter is spent")]
    Spent { counter: Counter },
    /// Memory is wanting.
    #[error("memory is wanting")]
    Memory,
}

impl From<fs_ident::Memory> for CoreError {
    ghost from_gives = { λ _ e. e ≡ Memory };

    fn from(_: fs_ident::Memory) -> CoreError {
        CoreError::Memory
    }
}

impl From<AllocError> for CoreError {
    ghost from_gives = { λ _ e. e ≡ Memory };

    fn from(_: AllocError) -> CoreError {
        CoreError::Memory
    }
}

impl<T: Drop> From<AllocFailed<T>> for CoreError {
    ghost from_gives = { λ _ e. e ≡ Memory };

    fn from(_: AllocFailed<T>) -> CoreError {
        CoreError::Memory
    }
}
