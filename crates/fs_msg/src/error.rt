//! Why bytes are no message.
ghost use Rattle.std.specs.Prelude.{◌≡◌};
ghost use Rattle.fs_msg.specs.declared.error.MsgError.TheVariants.{Memory};

use std::alloc::{AllocError, AllocFailed};
use thiserror::Error;

/// Why no message could be read. Places count bytes from 0.
#[derive(Clone, Copy, Debug, PartialEq, Eq, Error)]
pub enum MsgError {
    /// The input is the beginning of a message, and not a whole one.
    #[error("the message is cut off")]
    Short,
    /// The byte at the place is no tag that can stand there; the bytes before it still begin a message.
    #[error("no tag is like the byte at {at}")]
    Tag { at: usize },
    /// The byte at the place is out of range there, and is no tag; the bytes before it still begin a message.
    #[error("the byte at {at} is out of range")]
    Range { at: usize },
    /// A message ends at the place, and bytes follow.
    #[error("bytes follow the message from {at} on")]
    Trailing { at: usize },
    /// Memory is wanting.
    #[error("memory is wanting")]
    Memory,
}

impl From<fs_ident::Memory> for MsgError {
    ghost from_gives = { λ _ e. e ≡ Memory };

    fn from(_: fs_ident::Memory) -> MsgError {
        MsgError::Memory
    }
}

impl From<AllocError> for MsgError {
    ghost from_gives = { λ _ e. e ≡ Memory };

    fn from(_: AllocError) -> MsgError {
        MsgError::Memory
    }
}

impl<T: Drop> From<AllocFailed<T>> for MsgError {
    ghost from_gives = { λ _ e. e ≡ Memory };

    fn from(_: AllocFailed<T>) -> MsgError {
        MsgError::Memory
    }
}
