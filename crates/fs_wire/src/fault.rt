//! Where reading stops.
ghost use Rattle.std.specs.Prelude.{◌≡◌};
ghost use Rattle.fs_wire.specs.declared.fault.ReadError.TheVariants.{Memory};

use std::alloc::{AllocError, AllocFailed};
use thiserror::Error;

/// The place where reading stops.
#[derive(Clone, Copy, Debug, PartialEq, Eq)]
pub struct Fault {
    /// How many bytes are left from there on; none where the bytes are too few.
    pub left: usize,
    /// Whether a tag stands there.
    pub tag: bool,
}

/// Why nothing is read.
#[derive(Clone, Copy, Debug, PartialEq, Eq, Error)]
pub enum ReadError {
    /// Memory is wanting.
    #[error("memory is wanting")]
    Memory,
    /// Reading stops.
    #[error("reading stops before the end")]
    Fault(Fault),
}

/// Reading stops before the last bytes, at a tag or at another byte.
pub fn stop(tag: bool, left: usize) -> ReadError
    ensures { result ≡ ReadError.Fault (record { left = left; tag = tag }) }
{
    ReadError::Fault(Fault { left, tag })
}

impl From<fs_ident::Memory> for ReadError {
    ghost from_gives = { λ _ e. e ≡ Memory };

    fn from(_: fs_ident::Memory) -> ReadError {
        ReadError::Memory
    }
}

impl From<AllocError> for ReadError {
    ghost from_gives = { λ _ e. e ≡ Memory };

    fn from(_: AllocError) -> ReadError {
        ReadError::Memory
    }
}

impl<T: Drop> From<AllocFailed<T>> for ReadError {
    ghost from_gives = { λ _ e. e ≡ Memory };

    fn from(_: AllocFailed<T>) -> ReadError {
        ReadError::Memory
    }
}
