//! Why a segment could not be pushed.
ghost use Rattle.std.specs.Prelude.{◌≡◌};
ghost use Rattle.fs_window.specs.declared.error.LinkError.TheVariants.{Memory};

use std::alloc::{AllocError, AllocFailed};
use thiserror::Error;

/// Why a link takes no segment.
#[derive(Clone, Copy, Debug, PartialEq, Eq, Error)]
pub enum LinkError {
    /// 18,446,744,073,709,551,615 segments were pushed, and no number is left.
    #[error("no number is left for a segment")]
    Spent,
    /// Memory is wanting.
    #[error("memory is wanting")]
    Memory,
}

impl From<fs_ident::Memory> for LinkError {
    ghost from_gives = { λ _ e. e ≡ Memory };

    fn from(_: fs_ident::Memory) -> LinkError {
        LinkError::Memory
    }
}

impl From<AllocError> for LinkError {
    ghost from_gives = { λ _ e. e ≡ Memory };

    fn from(_: AllocError) -> LinkError {
        LinkError::Memory
    }
}

impl<T: Drop> From<AllocFailed<T>> for LinkError {
    ghost from_gives = { λ _ e. e ≡ Memory };

    fn from(_: AllocFailed<T>) -> LinkError {
        LinkError::Memory
    }
}
