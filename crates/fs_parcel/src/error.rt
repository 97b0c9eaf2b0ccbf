//! Why nothing moves.
ghost use Rattle.std.specs.Prelude.{◌≡◌};
ghost use Rattle.fs_parcel.specs.declared.error.MoveError.TheVariants.{Memory};

use fs_ident::{FileId, PathNo, TxnNo};
use std::alloc::{AllocError, AllocFailed};
use thiserror::Error;

/// Why what a server has below a prefix does not go to another.
#[derive(Debug, Error, Drop)]
pub enum MoveError {
    /// The longest prefix that the map lists is another server's.
    #[error("{prefix} is at s{to}")]
    NotMine { prefix: FileId, to: u8 },
    /// The prefix has no living record.
    #[error("no file has the prefix")]
    NoFile,
    /// It would go where it is.
    #[error("it is there")]
    Same,
    /// A transaction keeps a row on a file that would go: the least of these.
    #[error("{txn} keeps a row")]
    Busy { txn: TxnNo },
    /// A path lease goes through a file that would go.
    #[error("{no} goes through it")]
    Paths { no: PathNo },
    /// Memory is wanting.
    #[error("memory is wanting")]
    Memory,
}

impl From<fs_ident::Memory> for MoveError {
    ghost from_gives = { λ _ e. e ≡ Memory };

    fn from(_: fs_ident::Memory) -> MoveError {
        MoveError::Memory
    }
}

impl From<AllocError> for MoveError {
    ghost from_gives = { λ _ e. e ≡ Memory };

    fn from(_: AllocError) -> MoveError {
        MoveError::Memory
    }
}

impl<T: Drop> From<AllocFailed<T>> for MoveError {
    ghost from_gives = { λ _ e. e ≡ Memory };

    fn from(_: AllocFailed<T>) -> MoveError {
        MoveError::Memory
    }
}
