//! Why segments could not be joined.
ghost use Rattle.std.specs.Prelude.{◌≡◌};
ghost use Rattle.fs_frag.specs.declared.error.FragError.TheVariants.{Memory};

use std::alloc::{AllocError, AllocFailed};
use thiserror::Error;

/// Why a joiner takes no segment.
#[derive(Clone, Copy, Debug, PartialEq, Eq, Error)]
pub enum FragError {
    /// The segments so far hold `have` bytes of a message, where their first eight bytes announce `want`.
    #[error("the segments hold {have} bytes of a message of {want}")]
    Over { have: u64, want: u64 },
    /// Memory is wanting.
    #[error("memory is wanting")]
    Memory,
}

impl From<fs_ident::Memory> for FragError {
    ghost from_gives = { λ _ e. e ≡ Memory };

    fn from(_: fs_ident::Memory) -> FragError {
        FragError::Memory
    }
}

impl From<AllocError> for FragError {
    ghost from_gives = { λ _ e. e ≡ Memory };

    fn from(_: AllocError) -> FragError {
        FragError::Memory
    }
}

impl<T: Drop> From<AllocFailed<T>> for FragError {
    ghost from_gives = { λ _ e. e ≡ Memory };

    fn from(_: AllocFailed<T>) -> FragError {
        FragError::Memory
    }
}
